//! The two links between a and b of docs/METHOD.md, "Master step", which that section works out by hand.

ghost use Rattle.std.specs.Prelude.{◌≡◌};

use super::cutless_table;
use column_pool::Brief;
use cut_values::CutTable;
use link_steps::Ranges;
use master_step::{NodeMaster, Step, advance, best_step, crowd_prices};
use plan_base::{
    ArcId, BranchId, CountLaw, Demand, Instance, Items, Link, Module, NodeId, Orient, Parts, Path,
    Prices,
};
use std::alloc::Global;

/// A link from a to b.
fn link_of(alloc: Global, pre: u64, routing: u64, modules: &[Module]) -> Option<Link> {
    Some(Link {
        source: NodeId(0),
        target: NodeId(1),
        pre,
        routing,
        modules: Items::from_vec(Vec::from_slice(alloc, modules).ok()?),
    })
}

/// A link of capacity 10 at a routing cost of 1, with these modules, and one of 100 at 3.
fn links_of(alloc: Global, modules: &[Module]) -> Option<Items<Link>> {
    let links = vec![in alloc;
        link_of(alloc, 10_000_000, 1_000_000, modules)?,
        link_of(alloc, 100_000_000, 3_000_000, &[])?,
    ];
    Some(Items::from_vec(links.ok()?))
}

/// The two links, with these modules on the first, and two demands of 10.
fn two_links(alloc: Global, modules: &[Module]) -> Option<Instance> {
    let demand = Demand {
        source: NodeId(0),
        target: NodeId(1),
        load: 10_000_000,
        hops: None,
    };
    let parts = Parts {
        orient: Orient::Undirected,
        law: CountLaw::Any,
        nodes: 2,
        links: links_of(alloc, modules)?,
        demands: Items::from_vec(vec![in alloc; demand, demand].ok()?),
    };
    Instance::build(alloc, parts).ok()
}

/// The start prices.
fn start_prices(alloc: Global) -> Option<Prices> {
    let prices = vec![in alloc; 1_000_000_000, 3_000_000_000];
    Some(Prices::from_vec(prices.ok()?))
}

/// The path along the first link, as the only column of a demand.
fn first_link(alloc: Global) -> Option<Items<Path>> {
    let path = Path::from_vec(vec![in alloc; ArcId(0)].ok()?);
    Some(Items::from_vec(vec![in alloc; path].ok()?))
}

/// Start prices, and the first link as the only column of each demand.
fn brief_of(alloc: Global, inst: &Instance) -> Option<Brief> {
    let columns = vec![in alloc; first_link(alloc)?, first_link(alloc)?];
    Some(Brief {
        node: BranchId(0),
        version: 1,
        prices: start_prices(alloc)?,
        ranges: Ranges::whole(alloc, inst).ok()?,
        columns: Items::from_vec(columns.ok()?),
        crowd_tried: false,
        has_enough: false,
        incumbent: None,
        unit: 1,
    })
}

/// Whether the step raises the value of the start prices, which the section tells, to this one, with these prices.
fn raises(step: &Step, wanted: &[u128], value: i128) -> bool {
    match step {
        Step::Raised { prices, old, new } => {
            *old == 20_000_000_000_000_000 && *new == value && prices.as_slice() == wanted
        }
        Step::Same { .. } | Step::Bare { .. } => false,
    }
}

/// The step of a brief with a table, or the better of it and an ascent. None as `step_of`.
fn step_with(alloc: Global, table: &CutTable, brief: &Brief, is_best: bool) -> Option<Step> {
    let inst = table.instance();
    if !brief.fits(inst, table) {
        return None;
    }
    let node = NodeMaster { table, brief };
    if is_best {
        return best_step(alloc, &node).ok();
    }
    advance(alloc, &node).ok()
}

/// The step of a brief, or the better of it and an ascent. None where the brief does not fit, and where memory is wanting.
fn step_of(alloc: Global, inst: &Instance, brief: &Brief, is_best: bool) -> Option<Step> {
    let table = cutless_table(alloc, inst)?;
    step_with(alloc, &table, brief, is_best)
}

/// Whether the step, and the better of it and an ascent, are as worked out.
fn has_steps(alloc: Global, inst: &Instance) -> Option<bool> {
    let brief = brief_of(alloc, inst)?;
    let step = step_of(alloc, inst, &brief, false)?;
    let best = step_of(alloc, inst, &brief, true)?;
    let prices = [4_000_000_000, 3_000_000_000];
    let best_prices = [12_288_000_000_000, 3_000_000_000];
    Some(
        raises(&step, &prices, 50_000_000_000_000_000)
            && raises(&best, &best_prices, 122_890_000_000_000_000_000),
    )
}

/// The crowd prices of the start prices.
fn crowd_of(alloc: Global, inst: &Instance) -> Option<Prices> {
    let prices = start_prices(alloc)?;
    if !prices.fits(inst) {
        return None;
    }
    crowd_prices(alloc, inst, &prices).ok()
}

/// Whether two links with these modules on the first have these crowd prices.
fn has_crowd(alloc: Global, modules: &[Module], wanted: &[u128]) -> Option<bool> {
    let inst = two_links(alloc, modules)?;
    let crowd = crowd_of(alloc, &inst)?;
    Some(crowd.as_slice() == wanted)
}

/// Whether the steps of the two links without a module are as worked out.
fn has_plain_steps(alloc: Global) -> Option<bool> {
    let inst = two_links(alloc, &[])?;
    has_steps(alloc, &inst)
}

/// Whether the two links come out as worked out, with no module and with one on the first. None where memory is wanting.
pub(crate) fn are_as_worked_out(alloc: Global) -> Option<bool> {
    let module = Module {
        capacity: 1,
        cost: 1,
    };
    Some(
        has_plain_steps(alloc)?
            && has_crowd(alloc, &[], &[1_000_000_000, 3_000_000_000])?
            && has_crowd(alloc, &[module], &[0, 3_000_000_000])?,
    )
}
