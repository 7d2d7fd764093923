//! The designs that searches begin with.

ghost use Rattle.std.specs.Prelude.{◌≡◌, ◌<◌, length, IfSome};
ghost use Rattle.least_path.specs.Paths.{AreWeights};
ghost use Rattle.plan_base.specs.Designs.{IsGoodDesign};

use least_path::{Room, are_weights};
use link_steps::StepTable;
use plan_base::{ArcId, Demand, DemandId, Design, Instance, Items, LinkId, Path, check_design};
use std::alloc::Global;

/// The start price of its place for each arc.
fn start_weights(alloc: Global, inst: &Instance, table: &StepTable) -> Option<Vec<Option<u128>>> {
    let prices = table.start_prices(alloc).ok()?;
    let mut weights = Vec::new(alloc);
    for number in 0..inst.arcs() {
        let place = inst.place(ArcId(number)) as usize;
        weights.push(prices.as_slice().get(place).copied()).ok()?;
    }
    Some(weights)
}

/// Adds a path of least weight for a demand.
fn add_path(
    room: &mut Room,
    inst: &Instance,
    weights: &[Option<u128>],
    demand: DemandId,
    paths: &mut Vec<Path>,
) -> Option<()>
    requires weights { AreWeights inst.now weights.now }
    requires demand { demand.0 < length inst.now.demands }
{
    let Demand { source, target, .. } = *inst.demand(demand);
    let _weight = room.search(inst, weights, source, target).ok()??;
    let path = room.path().copy().ok()?;
    paths.push(path).ok()
}

/// Adds a path of least weight for each demand, in order.
fn add_paths(
    room: &mut Room,
    inst: &Instance,
    weights: &[Option<u128>],
    paths: &mut Vec<Path>,
) -> Option<()>
    requires { AreWeights inst.now weights.now }
{
    for place in 0..inst.demands() {
        add_path(room, inst, weights, DemandId(place), paths)?;
    }
    Some(())
}

/// A path of least weight for each demand, in order.
fn least_paths(alloc: Global, inst: &Instance, weights: &[Option<u128>]) -> Option<Items<Path>> {
    if !are_weights(inst, weights) {
        return None;
    }
    let mut room = Room::new(alloc, inst).ok()?;
    let mut paths = Vec::new(alloc);
    add_paths(&mut room, inst, weights, &mut paths)?;
    Some(Items::from_vec(paths))
}

/// Counts with which each link carries all loads together.
fn full_counts(alloc: Global, table: &StepTable) -> Option<Items<Items<u64>>> {
    let inst = table.instance();
    let mut counts = Vec::new(alloc);
    for place in 0..inst.links() {
        let of_link = table.counts(alloc, LinkId(place), inst.total_load()).ok()?;
        counts.push(of_link?).ok()?;
    }
    Some(Items::from_vec(counts))
}

/// A path of least weight for each demand at the start prices.
fn start_paths(alloc: Global, inst: &Instance, table: &StepTable) -> Option<Items<Path>> {
    least_paths(alloc, inst, &start_weights(alloc, inst, table)?)
}

/// A dear design with the least paths at the start prices.
pub(crate) fn start_design(alloc: Global, table: &StepTable) -> Option<Design>
    ensures { IfSome result (IsGoodDesign table.now) }
{
    let inst = table.instance();
    let design = Design {
        paths: start_paths(alloc, inst, table)?,
        counts: full_counts(alloc, table)?,
    };
    if check_design(inst, &design).is_err() {
        return None;
    }
    Some(design)
}
