//! What rules choose: by which loads a node is divided, and which cuts a search begins with, on a ring of four nodes.
//!
//! Written is, for each rule, the split that it proposes where one link carries 23 of its 24 grains on average and the others
//! few; and the cuts that it finds where links were seen with 4 and 10 grains in turn. Of the 18 grains that leave the first
//! node 14 were seen; of the 16 that count there, 8 of each 10, only 12.

ghost use Rattle.std.specs.Prelude.{◌≡◌, length};
ghost use Rattle.plan_base.specs.Places.{places};
ghost use Rattle.link_steps.specs.Ranges.{AreRanges};

use cut_separation::CutSearch;
use cut_separation::counting_rules::{CountingRule, Periods, WholeRest};
use cut_separation::set_rules::{Connected, SetRule, SingleNodes};
use cut_values::SeenLoads;
use gate_networks::{find, network_of, table_of};
use leaf_tasks::split_rules::{Middle, Shortfall, SplitNode, SplitRule, best_split};
use link_steps::{Ranges, StepTable};
use master_step::Averages;
use plan_base::{Instance, Items};
use proof_tree::Cut;
use std::alloc::Global;

/// A ring of four nodes whose links take modules of 10 grains for 5, with demands across it and along one link.
const RING: &str =
    "ring undirected 4 : 0 1 0 0 / 10 5, 1 2 0 0 / 10 5, 2 3 0 0 / 10 5, 0 3 0 0 / 10 5 : 0 2 6, 1 3 6, 0 1 12";

/// Adds the split that a rule proposes.
fn tell_split<R: SplitRule>(
    name: &str,
    rule: &R,
    node: SplitNode<'_>,
    text: &mut String,
) -> Option<()> {
    match best_split(rule, node) {
        Some(split) => writeln!(text, "{name}: place {} at {}", split.place, split.load).ok(),
        None => writeln!(text, "{name}: none").ok(),
    }
}

/// Averages of an ascent in which only the third place carries much.
fn averages_of(alloc: Global) -> Option<Averages> {
    Some(Averages {
        loads: Items::from_vec(vec![in alloc; 3, 7, 23, 4].ok()?),
        costs: Items::from_vec(vec![in alloc; 3, 3, 3, 3].ok()?),
    })
}

/// Adds the splits that the rules propose of the ring's root.
fn tell_splits(
    table: &StepTable,
    ranges: &Ranges,
    averages: &Averages,
    text: &mut String,
) -> Option<()>
    requires ranges { AreRanges table.now ranges.now }
{
    let inst = table.instance();
    if averages.loads.len() != inst.places() as usize {
        return None;
    }
    if averages.costs.len() != inst.links() as usize {
        return None;
    }
    let node = SplitNode {
        table,
        ranges,
        averages,
    };
    tell_split("shortfall", &Shortfall, node, text)?;
    tell_split("middle", &Middle, node, text)
}

/// Adds the splits that the rules propose where places may carry all loads.
fn tell_root(alloc: Global, table: &StepTable, text: &mut String) -> Option<()> {
    let ranges = Ranges::whole(alloc, table.instance()).ok()?;
    tell_splits(table, &ranges, &averages_of(alloc)?, text)
}

/// Adds a cut: its nodes, and how many grains it counts of how many.
fn tell_cut(cut: &Cut, text: &mut String) -> Option<()> {
    text.push_str(", nodes").ok()?;
    for (node, is_in) in cut.nodes.as_slice().iter().enumerate() {
        if *is_in {
            write!(text, " {node}").ok()?;
        }
    }
    write!(text, " count {} of {}", cut.first, cut.period).ok()
}

/// Adds the cuts, at most so many, that are found by rules where loads were seen.
#[tactic(auto, using(proof_tree::proofs::CutlessPlans::no_cuts))]
fn tell_cuts<S: SetRule, C: CountingRule>(
    alloc: Global,
    inst: &Instance,
    seen: &SeenLoads,
    sets: &S,
    countings: &C,
    most: u32,
    text: &mut String,
) -> Option<()> {
    let search = CutSearch::by(alloc, inst, sets, countings).ok()?;
    let mut list = Vec::new(alloc);
    let found = search.extend(alloc, inst, seen, most, &mut list).ok()?;
    write!(text, "{found} cuts").ok()?;
    for cut in &list {
        tell_cut(cut, text)?;
    }
    text.push('\n').ok()
}

/// One turn in which places carry 4 and 10 grains in turn.
fn seen_on(alloc: Global, inst: &Instance) -> Option<SeenLoads> {
    let mut seen = SeenLoads::new(alloc, inst, 1).ok()?;
    seen.begin_turn();
    for place in 0..inst.places() {
        seen.note(place, if place % 2 == 0 { 4 } else { 10 });
    }
    Some(seen)
}

/// Adds the cuts that each pair of rules finds on the ring.
fn tell_pairs(alloc: Global, inst: &Instance, table: &StepTable, text: &mut String) -> Option<()>
    requires { table.now ≡ inst.now }
{
    let seen = seen_on(alloc, inst)?;
    let periods = Periods::of(alloc, inst, table).ok()?;
    tell_cuts(alloc, inst, &seen, &Connected, &periods, 25, text)?;
    tell_cuts(alloc, inst, &seen, &Connected, &periods, 2, text)?;
    tell_cuts(alloc, inst, &seen, &Connected, &WholeRest, 25, text)?;
    tell_cuts(alloc, inst, &seen, &SingleNodes, &periods, 25, text)?;
    tell_cuts(alloc, inst, &seen, &SingleNodes, &WholeRest, 25, text)
}

/// Adds what the rules choose. None where memory is wanting.
pub(crate) fn tell_rules(alloc: Global, text: &mut String) -> Option<()> {
    let mut networks = Vec::new(alloc);
    networks.push(network_of(alloc, RING)?).ok()?;
    let inst = find(networks.as_slice(), "ring")?;
    let table = table_of(alloc, inst)?;
    tell_root(alloc, &table, text)?;
    tell_pairs(alloc, inst, &table, text)
}
