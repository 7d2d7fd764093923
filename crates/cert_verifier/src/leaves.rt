//! The rules of each kind of leaf.

ghost use Rattle.std.specs.Prelude.{◌≡◌, ◌<◌, ◌≤◌, ◌+◌, ◌-◌, ◌*◌, ◌↔◌, ℕ, max, Some, None, IsTrue, IsFalse, ℤ, pos, ◌+ℤ◌, ◌<ℤ◌, false, length, slice_index, IfOk, IfSome, IfNone, IsSomeAnd, MatchOption, ⊤};
ghost use Rattle.std.specs.Result.{result_err};
ghost use Rattle.link_steps.specs.Costs.{CannotCarry, IsStepCost};
ghost use Rattle.link_steps.specs.Ranges.{IsIn, AreRanges};
ghost use Rattle.link_steps.specs.Unit.{IsUnit};
ghost use Rattle.plan_base.specs.Facts.{is_useful, total_load};
ghost use Rattle.plan_base.specs.Arcs.{demand_at, link_at};
ghost use Rattle.plan_base.specs.Places.{places, link_of_place};
ghost use Rattle.plan_base.specs.Paths.{IsSimplePath};
ghost use Rattle.plan_base.specs.Designs.{load_at, KeepsLimits};
ghost use Rattle.proof_tree.specs.declared.limits.TheConstants.{MAX_CUTS};
ghost use Rattle.proof_tree.specs.declared.tree.Evidence.TheVariants as kind;
ghost use Rattle.proof_tree.specs.Evidence.{holds, is_cut_short};
ghost use Rattle.proof_tree.specs.Plans.{IsOpenBound};
ghost use Rattle.proof_tree.specs.Spellings.{FitsEvidence};
ghost use Rattle.verifier_paths.specs.Kept.{forbidden_by};
ghost use Rattle.verifier_paths.specs.OnlyPaths.{path_in};
ghost use Rattle.cert_verifier.specs.declared.rejected.Rejected.TheVariants.{Leaf};
ghost use Rattle.cert_verifier.specs.Told.{Tells};
ghost use Rattle.cert_verifier.specs.Leaving.{leads_out, IsNoWayOut};
ghost use Rattle.cert_verifier.specs.Routings.{bare_design, needed, IsCostOfLoads, HasOverfull, AreIn, AreLoadsInRange};
ghost use Rattle.cert_verifier.specs.Bounds.{AreForInstance, IsOpenLawful};
ghost use Rattle.cert_verifier.specs.LeafRules.{HasLimit, AreFreeOnUseful, LeafFinds};
ghost use Rattle.cert_verifier.specs.Walks.{region_of_marks};

use crate::bounds::{are_lawful, bound_at, is_crowded, is_enough, price_total};
use crate::rejected::Rejected;
use link_steps::limits::MAX_STEPS;
use link_steps::{LinkRanges, LoadRange, Ranges, StepTable};
use plan_base::limits::{MAX_PLACES, MAX_ROUTING_COST, MODULE_COST_BOUND};
use plan_base::{
    ArcId, DemandId, Design, Instance, Items, LinkId, LinkLoads, NodeId, Path, Prices, loads_of,
};
use proof_tree::{Cut, Evidence, are_within_limit, is_cut_short};
use std::alloc::{AllocError, Global};
use verifier_paths::{Forbidden, OnlyPaths, fewest_arcs, only_paths};

/// Where a leaf stands: the region there, and the index of its record.
#[derive(Clone, Copy)]
pub(crate) struct Place<'a> {
    pub(crate) inst: &'a Instance,
    pub(crate) table: &'a StepTable,
    pub(crate) forbidden: &'a Forbidden,
    pub(crate) ranges: &'a Ranges,
    /// The plan's cuts.
    pub(crate) cuts: &'a Items<Cut>,
    /// What crosses each of them beyond what it leaves out, in load grains.
    pub(crate) rests: &'a [u64],
    /// The unit of costs, in cost grains.
    pub(crate) unit: u128,
    /// The cost that the plan states for its design, in cost grains.
    pub(crate) cost: Option<u128>,
    pub(crate) index: u32,
}

/// The leaf of this index breaks this rule.
fn broken(index: u32, rule: u8) -> Result<(), Rejected>
    ensures { result_err result ≡ Some (Leaf index rule) }
{
    Err(Rejected::Leaf { index, rule })
}

/// The leaf of this index breaks this rule where it does not hold.
fn holds_or(holds: bool, index: u32, rule: u8) -> Result<(), Rejected>
    ensures ok { IsTrue holds → result_err result ≡ None }
    ensures broken { IsFalse holds → result_err result ≡ Some (Leaf index rule) }
{
    if holds { Ok(()) } else { broken(index, rule) }
}

/// Whether there is a cost, and the bound is above that less the unit.
fn is_above(bound: i128, cost: Option<u128>, unit: u128) -> bool
    ensures { IsTrue result ↔ IsSomeAnd cost (λ c. pos c <ℤ (bound +ℤ pos unit)) }
{
    match cost {
        Some(cost) => is_enough(bound, cost, unit),
        None => false,
    }
}

/// The rules of a leaf that is closed by its bound.
fn check_bound(alloc: Global, at: &Place, numbers: &Prices) -> Result<(), Rejected>
    requires parts { AreForInstance at.now.inst.now at.now.table.now at.now.ranges.now at.now.cuts.now at.now.rests.now }
    requires unit { IsUnit at.now.inst.now at.now.unit }
    requires count { length numbers.now ≡ places at.now.inst.now + length at.now.cuts.now }
    ensures { Tells (LeafFinds at.now.inst.now at.now.cuts.now at.now.cost (region_of_marks at.now.forbidden.now at.now.ranges.now) at.now.index (kind.Bound numbers.now)) (result_err result) }
{
    if !are_lawful(at, numbers) {
        return broken(at.index, 1);
    }
    match bound_at(alloc, at, numbers)? {
        Some(bound) => holds_or(is_above(bound, at.cost, at.unit), at.index, 3),
        None => broken(at.index, 2),
    }
}

/// What the link costs at these loads of its places, in cost grains, and none where it cannot carry the larger one.
fn cost_of_link(inst: &Instance, table: &StepTable, link: LinkId, loads: LinkLoads) -> Option<u128>
    requires table { table.now ≡ inst.now }
    requires link { link.0 < length inst.now.links }
    requires there { loads.there ≤ total_load inst.now }
    requires back { loads.back ≤ total_load inst.now }
    ensures cost { IfSome result (IsStepCost inst.now link.0 loads.there loads.back) }
    ensures none { IfNone result (CannotCarry inst.now link.0 (max loads.there loads.back)) }
    ensures within { IfSome result (λ cost. cost ≤ 2 * MAX_ROUTING_COST + (MAX_STEPS - 1) * MODULE_COST_BOUND) }
{
    inst.lawful();
    let routing = u128::from(inst.link(link).routing);
    match table.at(link, loads.need() as u64) {
        Some(modules) => Some(routing * (loads.there + loads.back) + modules),
        None => None,
    }
}

/// What the only paths cost, in cost grains, and none where a link cannot carry the larger load of its places.
fn cost_of_paths(inst: &Instance, table: &StepTable, loads: &[u128; MAX_PLACES]) -> Option<u128>
    requires table { table.now ≡ inst.now }
    requires loads { (q : ℕ) → q < MAX_PLACES → slice_index loads.now q ≤ total_load inst.now }
    ensures cost { IfSome result (IsCostOfLoads inst.now loads.now) }
    ensures none { IfNone result (HasOverfull inst.now loads.now) }
{
    let mut total = 0;
    for place in 0..inst.links() {
        let link = LinkId(place);
        match cost_of_link(inst, table, link, LinkLoads::of_link(inst, loads, link)) {
            Some(cost) => total += cost,
            None => return None,
        }
    }
    Some(total)
}

/// The loads that the only paths put on places, in load grains.
fn loads_of_paths(alloc: Global, inst: &Instance, paths: Items<Path>) -> [u128; MAX_PLACES]
    requires count { length paths ≡ length inst.now.demands }
    requires simple { (k : ℕ) → k < length inst.now.demands → IsSimplePath inst.now (demand_at inst.now k) (path_in paths k) }
    ensures value { (q : ℕ) → q < MAX_PLACES → slice_index result q ≡ load_at inst.now (bare_design paths) q }
    ensures within { (q : ℕ) → q < MAX_PLACES → slice_index result q ≤ total_load inst.now }
{
    let design = Design {
        paths,
        counts: Items::new(alloc),
    };
    loads_of(inst, &design)
}

/// Whether there is a cost, and the total is at least that.
fn costs_enough(total: u128, cost: Option<u128>) -> bool
    ensures { IsTrue result ↔ IsSomeAnd cost (λ c. c ≤ total) }
{
    match cost {
        Some(cost) => cost <= total,
        None => false,
    }
}

/// Whether no path has more arcs than its demand's limit.
fn are_within(inst: &Instance, paths: &Items<Path>) -> bool
    requires { length paths.now ≡ length inst.now.demands }
    ensures { IsTrue result ↔ KeepsLimits inst.now (bare_design paths.now) }
{
    for place in 0..inst.demands() {
        let path = &paths.as_slice()[place as usize];
        if !inst
            .demand(DemandId(place))
            .keeps_limit(path.as_slice().len())
        {
            return false;
        }
    }
    true
}

/// The leaf of this index breaks rule 4 where its only paths cost too little, or else rule 5 where one is too long.
fn routing_or(enough: bool, within: bool, index: u32) -> Result<(), Rejected>
    ensures ok { IsTrue enough → IsTrue within → result_err result ≡ None }
    ensures cheap { IsFalse enough → result_err result ≡ Some (Leaf index 4) }
    ensures long { IsTrue enough → IsFalse within → result_err result ≡ Some (Leaf index 5) }
{
    holds_or(enough, index, 4)?;
    holds_or(within, index, 5)
}

/// The rules of a leaf that is closed by its routing.
fn check_routed(alloc: Global, at: &Place) -> Result<(), Rejected>
    requires table { at.now.table.now ≡ at.now.inst.now }
    ensures { Tells (LeafFinds at.now.inst.now at.now.cuts.now at.now.cost (region_of_marks at.now.forbidden.now at.now.ranges.now) at.now.index kind.Routed) (result_err result) }
{
    at.inst.lawful();
    match only_paths(alloc, at.inst, at.forbidden)? {
        OnlyPaths::Missing => broken(at.index, 1),
        OnlyPaths::Second => broken(at.index, 2),
        OnlyPaths::Only(paths) => {
            let within = are_within(at.inst, &paths);
            let loads = loads_of_paths(alloc, at.inst, paths);
            match cost_of_paths(at.inst, at.table, &loads) {
                Some(total) => routing_or(costs_enough(total, at.cost), within, at.index),
                None => broken(at.index, 3),
            }
        }
    }
}

/// Whether the link cannot carry the larger load of its places.
fn cannot_carry(at: &Place, link: LinkId, loads: &[u128; MAX_PLACES]) -> bool
    requires table { at.now.table.now ≡ at.now.inst.now }
    requires link { link.0 < length at.now.inst.now.links }
    requires loads { (q : ℕ) → q < MAX_PLACES → slice_index loads.now q ≤ total_load at.now.inst.now }
    ensures { IsTrue result ↔ CannotCarry at.now.inst.now link.0 (needed at.now.inst.now loads.now link.0) }
{
    at.inst.lawful();
    let carried = LinkLoads::of_link(at.inst, loads, link);
    match cost_of_link(at.inst, at.table, link, carried) {
        Some(_) => false,
        None => true,
    }
}

/// Whether the load, in load grains, is in the range.
fn is_in(range: LoadRange, load: u128) -> bool
    ensures { IsTrue result ↔ IsIn range load }
{
    u128::from(range.least) <= load && load <= u128::from(range.most)
}

/// Whether the loads of a link's places are in their ranges.
fn are_in(ranges: LinkRanges, loads: LinkLoads) -> bool
    ensures { IsTrue result ↔ AreIn ranges loads.there loads.back }
{
    is_in(ranges.there, loads.there) && is_in(ranges.back, loads.back)
}

/// Whether the loads of the link's places are in their ranges at the leaf.
fn are_in_range(at: &Place, link: LinkId, loads: &[u128; MAX_PLACES]) -> bool
    requires ranges { length at.now.ranges.now ≡ places at.now.inst.now }
    requires link { link.0 < length at.now.inst.now.links }
    ensures { IsTrue result ↔ AreLoadsInRange at.now.inst.now at.now.ranges.now loads.now link.0 }
{
    let ranges = at.ranges.of_link(at.inst, link);
    let carried = LinkLoads::of_link(at.inst, loads, link);
    are_in(ranges, carried)
}

/// The rules of a leaf that is closed by a link that cannot carry what it needs, or has a load outside its range.
fn check_overfull(alloc: Global, at: &Place, link: LinkId) -> Result<(), Rejected>
    requires table { at.now.table.now ≡ at.now.inst.now }
    requires ranges { AreRanges at.now.inst.now at.now.ranges.now }
    ensures { Tells (LeafFinds at.now.inst.now at.now.cuts.now at.now.cost (region_of_marks at.now.forbidden.now at.now.ranges.now) at.now.index (kind.Overfull link)) (result_err result) }
{
    if link.0 >= at.inst.links() {
        return broken(at.index, 1);
    }
    match only_paths(alloc, at.inst, at.forbidden)? {
        OnlyPaths::Missing => broken(at.index, 2),
        OnlyPaths::Second => broken(at.index, 3),
        OnlyPaths::Only(paths) => {
            let loads = loads_of_paths(alloc, at.inst, paths);
            if !are_in_range(at, link, &loads) {
                return Ok(());
            }
            holds_or(cannot_carry(at, link, &loads), at.index, 4)
        }
    }
}

/// Whether the set holds the node.
fn holds(reached: &[bool], node: NodeId) -> bool
    ensures { result ≡ holds reached.now node }
{
    (node.0 as usize) < reached.len() && reached[node.0 as usize]
}

/// Whether the arc is permitted to the demand and leaves the set.
fn leads_out(at: &Place, demand: DemandId, reached: &[bool], arc: ArcId) -> bool
    ensures { result ≡ leads_out at.now.inst.now (forbidden_by at.now.forbidden.now) demand reached.now arc }
{
    at.inst.is_arc(arc)
        && !at.forbidden.forbids(demand, arc)
        && holds(reached, at.inst.tail(arc))
        && !holds(reached, at.inst.head(arc))
}

/// Whether no arc that is permitted to the demand leaves the set.
fn is_closed(at: &Place, demand: DemandId, reached: &[bool]) -> bool
    ensures { IsTrue result ↔ IsNoWayOut at.now.inst.now (forbidden_by at.now.forbidden.now) demand reached.now }
{
    for arc in 0..at.inst.arcs() {
        if leads_out(at, demand, reached, ArcId(arc)) {
            return false;
        }
    }
    true
}

/// The rules of a leaf that is closed by a cut.
#[tactic(auto, using(crate::proofs::LeafFindings::cut_findings))]
fn check_cut(at: &Place, demand: DemandId, reached: &[bool]) -> Result<(), Rejected>
    ensures { LeafFinds at.now.inst.now at.now.cuts.now at.now.cost (region_of_marks at.now.forbidden.now at.now.ranges.now) at.now.index (kind.Cut demand reached.now) (result_err result) }
{
    if demand.0 >= at.inst.demands() {
        return broken(at.index, 1);
    }
    if !holds(reached, at.inst.demand(demand).source) {
        return broken(at.index, 2);
    }
    if holds(reached, at.inst.demand(demand).target) {
        return broken(at.index, 3);
    }
    if !is_closed(at, demand, reached) {
        return broken(at.index, 4);
    }
    Ok(())
}

/// The limit on the arcs of the demand's path, where there is such a demand and it has one.
fn limit_of(inst: &Instance, demand: DemandId) -> Option<u64>
    ensures demand { IfSome result (λ limit. demand.0 < length inst.now.demands) }
    ensures limit { IfSome result (λ limit. (demand_at inst.now demand.0).hops ≡ Some limit) }
    ensures none { IfNone result (HasLimit inst.now demand → ⊥) }
{
    if demand.0 >= inst.demands() {
        return None;
    }
    inst.demand(demand).hops
}

/// Whether each path has more arcs than the limit, where the fewest of any path are told, or none where there is none.
fn is_past(fewest: Option<u128>, limit: u64) -> bool
    ensures { IsTrue result ↔ MatchOption fewest ⊤ (λ arcs. limit < arcs) }
{
    match fewest {
        Some(arcs) => arcs > u128::from(limit),
        None => true,
    }
}

/// The rules of a leaf where no path of a demand keeps its limit.
fn check_far(alloc: Global, at: &Place, demand: DemandId) -> Result<(), Rejected>
    ensures { Tells (LeafFinds at.now.inst.now at.now.cuts.now at.now.cost (region_of_marks at.now.forbidden.now at.now.ranges.now) at.now.index (kind.Far demand)) (result_err result) }
{
    let Some(limit) = limit_of(at.inst, demand) else {
        return broken(at.index, 1);
    };
    let fewest = fewest_arcs(alloc, at.inst, at.forbidden, demand)?;
    holds_or(is_past(fewest, limit), at.index, 2)
}

/// Whether the place is one of a useful link, and its range ends at the top load.
fn is_unlimited(inst: &Instance, ranges: &Ranges, place: u32) -> bool
    requires ranges { length ranges.now ≡ places inst.now }
    requires place { place < places inst.now }
    ensures { IsTrue result ↔ (IsTrue (is_useful (link_at inst.now (link_of_place inst.now place))) × (is_cut_short inst.now ranges.now place ≡ false)) }
{
    inst.useful(inst.link_of_place(place)) && !is_cut_short(inst, ranges, place)
}

/// Whether the prices of the places of useful links are 0 where their ranges end at the top load.
fn are_free_on_useful(inst: &Instance, ranges: &Ranges, prices: &[u128]) -> bool
    requires ranges { length ranges.now ≡ places inst.now }
    requires count { places inst.now ≤ length prices.now }
    ensures { IsTrue result ↔ AreFreeOnUseful inst.now ranges.now prices.now }
{
    for place in 0..inst.places() {
        if is_unlimited(inst, ranges, place) && prices[place as usize] > 0 {
            return false;
        }
    }
    true
}

/// The rules of a leaf that is closed by a crowd.
fn check_crowd(alloc: Global, at: &Place, prices: &Prices) -> Result<(), Rejected>
    requires ranges { length at.now.ranges.now ≡ places at.now.inst.now }
    requires count { places at.now.inst.now ≤ length prices.now }
    ensures { Tells (LeafFinds at.now.inst.now at.now.cuts.now at.now.cost (region_of_marks at.now.forbidden.now at.now.ranges.now) at.now.index (kind.Crowd prices.now)) (result_err result) }
{
    let numerators = prices.as_slice();
    if !are_within_limit(at.inst, numerators) {
        return broken(at.index, 1);
    }
    if !are_free_on_useful(at.inst, at.ranges, numerators) {
        return broken(at.index, 2);
    }
    match price_total(alloc, at.inst, at.forbidden, numerators)? {
        Some(total) => holds_or(
            is_crowded(at.inst, at.ranges, numerators, total),
            at.index,
            4,
        ),
        None => broken(at.index, 3),
    }
}

/// The rule of a leaf that is left open.
#[tactic(auto, using(crate::proofs::LeafFindings::open_findings))]
fn check_open(at: &Place, numbers: &Prices) -> Result<(), Rejected>
    requires few { length at.now.cuts.now ≤ MAX_CUTS }
    requires count { length numbers.now ≡ places at.now.inst.now + length at.now.cuts.now }
    ensures { LeafFinds at.now.inst.now at.now.cuts.now at.now.cost (region_of_marks at.now.forbidden.now at.now.ranges.now) at.now.index (kind.Open numbers.now) (result_err result) }
{
    if !are_lawful(at, numbers) {
        return broken(at.index, 1);
    }
    Ok(())
}

/// The first rule that the leaf breaks.
pub(crate) fn check_leaf(alloc: Global, at: &Place, evidence: &Evidence) -> Result<(), Rejected>
    requires parts { AreForInstance at.now.inst.now at.now.table.now at.now.ranges.now at.now.cuts.now at.now.rests.now }
    requires unit { IsUnit at.now.inst.now at.now.unit }
    requires fits { FitsEvidence at.now.inst.now.nodes (places at.now.inst.now + length at.now.cuts.now) evidence.now }
    ensures { Tells (LeafFinds at.now.inst.now at.now.cuts.now at.now.cost (region_of_marks at.now.forbidden.now at.now.ranges.now) at.now.index evidence.now) (result_err result) }
{
    match evidence {
        Evidence::Bound(numbers) => check_bound(alloc, at, numbers),
        Evidence::Routed => check_routed(alloc, at),
        Evidence::Overfull { link } => check_overfull(alloc, at, *link),
        Evidence::Cut { demand, reached } => check_cut(at, *demand, reached.as_slice()),
        Evidence::Far { demand } => check_far(alloc, at, *demand),
        Evidence::Crowd(prices) => check_crowd(alloc, at, prices),
        Evidence::Open(numbers) => check_open(at, numbers),
    }
}

/// The bound of an open leaf, in cost grains, where it is one and each demand has a permitted path.
pub(crate) fn open_bound(
    alloc: Global,
    at: &Place,
    evidence: &Evidence,
) -> Result<Option<i128>, AllocError>
    requires parts { AreForInstance at.now.inst.now at.now.table.now at.now.ranges.now at.now.cuts.now at.now.rests.now }
    requires fits { FitsEvidence at.now.inst.now.nodes (places at.now.inst.now + length at.now.cuts.now) evidence.now }
    requires lawful { IsOpenLawful at.now.inst.now at.now.cuts.now evidence.now }
    ensures bound { IfOk result (λ bound. IfSome bound (IsOpenBound at.now.inst.now at.now.cuts.now (region_of_marks at.now.forbidden.now at.now.ranges.now) evidence.now)) }
    ensures none { IfOk result (λ bound. IfNone bound ((bound : ℤ) → IsOpenBound at.now.inst.now at.now.cuts.now (region_of_marks at.now.forbidden.now at.now.ranges.now) evidence.now bound → ⊥)) }
{
    match evidence {
        Evidence::Open(numbers) => bound_at(alloc, at, numbers),
        _ => Ok(None),
    }
}
