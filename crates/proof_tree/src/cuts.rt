//! Cuts: sets of nodes, and which grains of the loads that cross them are counted.

ghost use Rattle.std.specs.Prelude.{ℕ, ◌≡◌, ◌≢◌, ◌<◌, ◌≤◌, ◌↔◌, length, IsTrue, Any, IfOk, if◌then◌else◌};
ghost use Rattle.plan_base.specs.declared.limits.TheConstants.{MAX_TOTAL_LOAD, CAPACITY_BOUND};
ghost use Rattle.plan_base.specs.Arcs.{is_arc, demand_at};
ghost use Rattle.plan_base.specs.Places.{places};
ghost use Rattle.link_steps.specs.Tallies.{IsTally};
ghost use Rattle.proof_tree.specs.NodeSets.{holds};
ghost use Rattle.proof_tree.specs.Cuts.{is_shared, leaves_by, leaves, arc_of_place, place_crosses, demand_crosses, crossing_load, before_at, crossing_before, rest_of, batch_of, cut_at, IsCut, AreCuts, AreDifferent, IsCutList};

use crate::limits::{MAX_CUTS, MAX_PERIOD};
use link_steps::Batch;
use plan_base::{ArcId, DemandId, Instance, Items, NodeId, Orient};
use std::alloc::AllocError;

/// A set of nodes, and which grains of the loads that cross it are counted: the first ones of each period.
///
/// - Rule: docs/DEFINITIONS.md, "Cuts".
#[derive(Debug, Drop)]
pub struct Cut {
    /// For each node whether it is in the set.
    pub nodes: Items<bool>,
    /// The period, in load grains.
    pub period: u64,
    /// How many grains of each period are counted.
    pub first: u64,
    /// Whether what the pre-installed capacities carry is left out before counting.
    pub counts_installed: bool,
}

/// Whether the set holds the node.
fn holds(nodes: &[bool], node: NodeId) -> bool
    ensures { result ≡ holds nodes.now node }
{
    (node.0 as usize) < nodes.len() && nodes[node.0 as usize]
}

/// Whether the loads of both directions of a link share its capacity.
fn is_shared(orient: Orient) -> bool
    ensures { result ≡ is_shared orient }
{
    match orient {
        Orient::Undirected => true,
        Orient::Directed | Orient::Bidirected => false,
    }
}

/// Whether going from inside or outside a set to inside or outside leaves it, or for both ways enters it.
fn leaves_by(both: bool, from: bool, to: bool) -> bool
    ensures { result ≡ leaves_by both from to }
{
    if from { !to } else { both && to }
}

/// Whether going from the one node to the other crosses the set.
fn leaves(inst: &Instance, nodes: &[bool], from: NodeId, to: NodeId) -> bool
    ensures { result ≡ leaves inst.now nodes.now from to }
{
    leaves_by(
        is_shared(inst.orient()),
        holds(nodes, from),
        holds(nodes, to),
    )
}

/// The arc of a place.
fn arc_of_place(inst: &Instance, place: u32) -> ArcId
    requires { place < places inst.now }
    ensures value { result ≡ arc_of_place inst.now place }
    ensures exists { IsTrue (is_arc inst.now result) }
{
    let _places = inst.places();
    if inst.orient().is_two_way() {
        ArcId(place)
    } else {
        ArcId(2 * place)
    }
}

/// Whether the demand of this number crosses the set.
fn is_crossing(inst: &Instance, nodes: &[bool], place: u32) -> bool
    requires { place < length inst.now.demands }
    ensures { result ≡ demand_crosses inst.now nodes.now place }
{
    let demand = inst.demand(DemandId(place));
    leaves(inst, nodes, demand.source, demand.target)
}

/// The load of the demand of this number where it crosses the set, else 0, in load grains.
fn crossing_from(inst: &Instance, nodes: &[bool], place: u32) -> u128
    requires { place < length inst.now.demands }
    ensures { result ≡ (if demand_crosses inst.now nodes.now place then (demand_at inst.now place).load else 0) }
{
    if is_crossing(inst, nodes, place) {
        inst.demand(DemandId(place)).load
    } else {
        0
    }
}

/// The loads of the demands that cross the set, in load grains.
fn crossing_load(inst: &Instance, nodes: &[bool]) -> u128
    ensures value { result ≡ crossing_load inst.now nodes.now }
    ensures within { result ≤ MAX_TOTAL_LOAD }
{
    let mut total: u128 = 0;
    for place in 0..inst.demands() {
        total += crossing_from(inst, nodes, place);
    }
    total
}

/// The pre-installed capacity of the place's link where it is left out, else 0, in load grains.
fn before_at(inst: &Instance, cut: &Cut, place: u32) -> u64
    requires { place < places inst.now }
    ensures value { result ≡ before_at inst.now cut.now place }
    ensures within { result < CAPACITY_BOUND }
{
    if cut.counts_installed {
        inst.link(inst.link_of_place(place)).pre
    } else {
        0
    }
}

/// Whether the place crosses the set.
fn place_crosses(inst: &Instance, nodes: &[bool], place: u32) -> bool
    requires { place < places inst.now }
    ensures { result ≡ place_crosses inst.now nodes.now place }
{
    let arc = arc_of_place(inst, place);
    leaves(inst, nodes, inst.tail(arc), inst.head(arc))
}

/// What is left out on the place where it crosses the set, else 0, in load grains.
fn crossing_before_at(inst: &Instance, cut: &Cut, place: u32) -> u64
    requires { place < places inst.now }
    ensures value { result ≡ (if place_crosses inst.now cut.now.nodes place then before_at inst.now cut.now place else 0) }
    ensures within { result < CAPACITY_BOUND }
{
    if place_crosses(inst, cut.nodes.as_slice(), place) {
        before_at(inst, cut, place)
    } else {
        0
    }
}

/// What is left out on the places that cross the set, in load grains.
fn crossing_before(inst: &Instance, cut: &Cut) -> u128
    ensures { result ≡ crossing_before inst.now cut.now }
{
    let mut total: u128 = 0;
    for place in 0..inst.places() {
        total += u128::from(crossing_before_at(inst, cut, place));
    }
    total
}

/// Whether some grains of each period are counted, at most all, and the period is small.
fn is_counting(cut: &Cut) -> bool
    ensures { IsTrue result ↔ IsTally cut.now.period cut.now.first × (cut.now.period ≤ MAX_PERIOD) }
{
    1 <= cut.first && cut.first <= cut.period && cut.period <= MAX_PERIOD
}

/// Whether a node has this answer.
fn has_answer(nodes: &[bool], inside: bool) -> bool
    ensures { IsTrue result ↔ Any (λ node. node ≡ inside) nodes.now }
{
    nodes.iter().any(|node| *node == inside)
}

/// Whether the sets are the same.
fn are_same_nodes(one: &[bool], other: &[bool]) -> bool
    ensures { IsTrue result ↔ (one.now ≡ other.now) }
{
    one == other
}

/// Whether the cuts are the same.
#[tactic(auto, using(crate::proofs::CutChecks::same_cuts))]
fn is_same(one: &Cut, other: &Cut) -> bool
    ensures { IsTrue result ↔ (one.now ≡ other.now) }
{
    one.period == other.period
        && one.first == other.first
        && one.counts_installed == other.counts_installed
        && are_same_nodes(one.nodes.as_slice(), other.nodes.as_slice())
}

/// Whether no earlier cut is the same as the one of this number. Takes no memory.
///
/// - Rule: docs/DEFINITIONS.md, "Cuts".
/// - Time: linear in the earlier cuts, times the nodes where all else is the same.
pub fn is_new(cuts: &[Cut], number: usize) -> bool
    requires { number < length cuts.now }
    ensures { IsTrue result ↔ ((i : ℕ) → i < number → cut_at cuts.now i ≢ cut_at cuts.now number) }
{
    for earlier in 0..number {
        if is_same(&cuts[earlier], &cuts[number]) {
            return false;
        }
    }
    true
}

/// Whether no two cuts are the same.
fn are_different(cuts: &[Cut]) -> bool
    ensures { IsTrue result ↔ AreDifferent cuts.now }
{
    for number in 0..cuts.len() {
        if !is_new(cuts, number) {
            return false;
        }
    }
    true
}

/// Whether each of them is a cut of the instance.
fn are_cuts(inst: &Instance, cuts: &[Cut]) -> bool
    ensures { IsTrue result ↔ AreCuts inst.now cuts.now }
{
    for number in 0..cuts.len() {
        if !cuts[number].fits(inst) {
            return false;
        }
    }
    true
}

/// Whether a plan for the instance may have this list of cuts: each is one, there are not too many, and no two are the same.
/// Takes no memory.
///
/// - Rule: docs/DEFINITIONS.md, "Cuts".
/// - Time: quadratic in the cuts, and linear in the nodes.
pub fn is_cut_list(inst: &Instance, cuts: &[Cut]) -> bool
    ensures { IsTrue result ↔ IsCutList inst.now cuts.now }
{
    if cuts.len() > MAX_CUTS {
        return false;
    }
    if !are_cuts(inst, cuts) {
        return false;
    }
    are_different(cuts)
}

impl Cut {
    /// A copy.
    ///
    /// - Errors: want of memory alone.
    pub fn copy(&self) -> Result<Cut, AllocError>
        ensures { IfOk result (λ copy. copy ≡ self.now) }
    {
        Ok(Cut {
            nodes: self.nodes.copy()?,
            period: self.period,
            first: self.first,
            counts_installed: self.counts_installed,
        })
    }

    /// Whether it is a cut of the instance: one answer for each node, some nodes and not all, at least one grain of each
    /// period and at most all, and no period above twice the largest total load. Takes no memory.
    ///
    /// - Rule: docs/DEFINITIONS.md, "Cuts".
    /// - Time: linear in the nodes.
    pub fn fits(&self, inst: &Instance) -> bool
        ensures { IsTrue result ↔ IsCut inst.now self.now }
    {
        let nodes = self.nodes.as_slice();
        nodes.len() == inst.nodes() as usize
            && has_answer(nodes, true)
            && has_answer(nodes, false)
            && is_counting(self)
    }

    /// Whether the place crosses the set: its link has one end in it, or where links have a direction its arc leaves it.
    ///
    /// - Rule: docs/DEFINITIONS.md, "Cuts".
    /// - Time: constant.
    pub fn crosses(&self, inst: &Instance, place: u32) -> bool
        requires { place < places inst.now }
        ensures { result ≡ place_crosses inst.now self.now.nodes place }
    {
        place_crosses(inst, self.nodes.as_slice(), place)
    }

    /// What crosses the set beyond what is left out, in load grains: the loads of the demands that cross it less what is left
    /// out on the places that do, or 0.
    ///
    /// - Rule: docs/DEFINITIONS.md, "Cuts".
    /// - Time: linear in the demands and places. Takes no memory.
    pub fn rest(&self, inst: &Instance) -> u64
        ensures value { result ≡ rest_of inst.now self.now }
        ensures within { result ≤ MAX_TOTAL_LOAD }
    {
        let load = crossing_load(inst, self.nodes.as_slice());
        load.saturating_sub(crossing_before(inst, self)) as u64
    }

    /// The cut as a place sees it.
    ///
    /// - Takes: a place, and what crosses the set beyond what is left out, as `rest` gives it.
    /// - Rule: docs/DEFINITIONS.md, "Cuts".
    /// - Time: constant.
    pub fn batch(&self, inst: &Instance, place: u32, rest: u64) -> Batch
        requires place { place < places inst.now }
        requires rest { rest ≡ rest_of inst.now self.now }
        ensures { result ≡ batch_of inst.now self.now place }
    {
        Batch {
            period: self.period,
            first: self.first,
            before: before_at(inst, self, place),
            rest,
        }
    }
}
