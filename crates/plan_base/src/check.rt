//! Whether a design serves an instance, and what it costs.

ghost use Rattle.std.specs.Prelude.{ℕ, ◌≡◌, ◌<◌, ◌≤◌, ◌+◌, ◌*◌, max, ◌^◌, ◌↔◌, ◌&&◌, ◌==◌, length, sum, nat_lt, IfOk, IsOk, All, slice_index};
ghost use Rattle.std.specs.Result.{result_err};
ghost use Rattle.plan_base.specs.First.{first_fault};
ghost use Rattle.plan_base.specs.Facts.{total_load, IsInstance};
ghost use Rattle.plan_base.specs.Designs.{load_at, capacity_with, module_cost_with, need, carried, link_cost, cost_of, AreCountsInShape, IsGoodDesign};
ghost use Rattle.plan_base.specs.DesignFaults.{is_past_shape, is_unlawful, counts_fault, carries_fault, design_fault};

use crate::design_fault::DesignFault;
use crate::ids::LinkId;
use crate::instance::Instance;
use crate::limits::{CAPACITY_BOUND, MAX_COUNT, MAX_COUNT_COST, MAX_PLACES};
use crate::loads::{LinkLoads, loads_of};
use crate::parts::{CountLaw, Link};
use crate::path::Design;
use crate::walks::check_paths;

/// What the design costs in cost grains, where it serves the instance.
///
/// - Takes: an instance; any design.
/// - Gives: cost grains.
/// - Errors: the first fault, in the order count of paths and of lists, each demand's path, each
///   link's counts and then its capacity.
/// - Rule: docs/DEFINITIONS.md, "Designs".
/// - Time: linear in the arcs of all paths and in links times modules. Takes no memory.
#[tactic(auto, using(crate::proofs::DesignLaws::design_laws))]
pub fn check_design(inst: &Instance, design: &Design) -> Result<u128, DesignFault>
    // It is accepted exactly where it is feasible and in shape.
    ensures ok { IsOk result ↔ IsGoodDesign inst.now design.now }
    ensures cost { IfOk result (λ cost. cost ≡ cost_of inst.now design.now) }
    ensures fault { result_err result ≡ design_fault inst.now design.now }
{
    checked_cost(inst, design)
}

/// Whether there is one path for each demand and one list of counts for each link.
fn has_right_counts(inst: &Instance, design: &Design) -> bool
    ensures { result
        ≡ (length design.now.paths == length inst.now.demands
        && (length design.now.counts == length inst.now.links)) }
{
    let paths = design.paths.len();
    let counts = design.counts.len();
    paths == inst.demands() as usize && counts == inst.links() as usize
}

/// Whether a count, or its cost, is too large.
fn is_past_shape(count: u64, cost: u128) -> bool
    ensures { result ≡ is_past_shape count cost }
{
    count > MAX_COUNT
        || match u128::from(count).checked_mul(cost) {
            Some(together) => together > MAX_COUNT_COST,
            None => true,
        }
}

/// Whether the law does not allow these counts.
fn is_unlawful(law: CountLaw, counts: &[u64]) -> bool
    ensures { result ≡ is_unlawful law counts.now }
{
    match law {
        CountLaw::Any => false,
        CountLaw::AtMostOne => is_more_than_one(counts),
    }
}

/// Whether the counts add to more than one.
fn is_more_than_one(counts: &[u64]) -> bool
    ensures { result ≡ nat_lt 1 (sum counts.now) }
{
    let mut sum: u64 = 0;
    for count in counts {
        sum = sum.saturating_add(*count);
    }
    sum > 1
}

/// Whether there is one count for each module, none, nor its cost, is too large, and the law allows them.
#[tactic(auto, using(crate::proofs::FirstFault::first_faults), unfolding(crate::specs::DesignFaults::counts_fault))]
fn check_counts(law: CountLaw, id: LinkId, link: &Link, counts: &[u64]) -> Result<(), DesignFault>
    ensures { result_err result ≡ counts_fault law id link.now counts.now }
{
    let modules = link.modules.as_slice();
    if counts.len() != modules.len() {
        return Err(DesignFault::CountShape { link: id });
    }
    for (place, module) in modules.iter().enumerate() {
        if is_past_shape(counts[place], module.cost) {
            return Err(DesignFault::CountShape { link: id });
        }
    }
    if is_unlawful(law, counts) {
        return Err(DesignFault::CountShape { link: id });
    }
    Ok(())
}

/// The capacity of the link with these counts of its modules: what is installed before, and theirs.
///
/// - Takes: a link of an instance; a count in shape for each of its modules.
/// - Gives: load grains.
/// - Rule: docs/DEFINITIONS.md, "Designs".
/// - Time: linear in the link's modules. Takes no memory.
#[tactic(auto, using(crate::proofs::SumLaws::sums))]
pub fn capacity_with(link: &Link, counts: &[u64]) -> u128
    requires pre { link.now.pre < CAPACITY_BOUND }
    requires few { length link.now.modules ≤ 32 }
    requires modules { All (λ m. m.capacity < CAPACITY_BOUND) link.now.modules }
    requires length { length counts.now ≡ length link.now.modules }
    requires shape { AreCountsInShape link.now counts.now }
    ensures { result ≡ capacity_with link.now counts.now }
{
    let mut capacity = u128::from(link.pre);
    for (place, module) in link.modules.as_slice().iter().enumerate() {
        capacity += u128::from(counts[place]) * u128::from(module.capacity);
    }
    capacity
}

/// What these counts of the link's modules cost.
///
/// - Takes: a link of an instance; a count in shape for each of its modules.
/// - Gives: cost grains.
/// - Rule: docs/DEFINITIONS.md, "Designs".
/// - Time: linear in the link's modules. Takes no memory.
pub fn module_cost_with(link: &Link, counts: &[u64]) -> u128
    requires length { length counts.now ≡ length link.now.modules }
    requires few { length link.now.modules ≤ 32 }
    requires shape { AreCountsInShape link.now counts.now }
    ensures value { result ≡ module_cost_with link.now counts.now }
    ensures within { result ≤ 32 * MAX_COUNT_COST }
{
    let mut cost: u128 = 0;
    for (place, module) in link.modules.as_slice().iter().enumerate() {
        cost += u128::from(counts[place]) * module.cost;
    }
    cost
}

/// What the link costs, where it has a capacity for its load.
#[tactic(auto, using(crate::proofs::CountLaws::count_laws), unfolding(crate::specs::DesignFaults::carries_fault))]
fn check_link(
    inst: &Instance,
    design: &Design,
    id: LinkId,
    loads: LinkLoads,
) -> Result<u128, DesignFault>
    requires lawful { IsInstance inst.now }
    requires link { id.0 < length inst.now.links }
    requires counts { length design.now.counts ≡ length inst.now.links }
    requires need { max loads.there loads.back ≡ need inst.now design.now id.0 }
    requires carried { loads.there + loads.back ≡ carried inst.now design.now id.0 }
    requires within { loads.there + loads.back ≤ 2 * total_load inst.now }
    ensures fault { result_err result ≡ carries_fault inst.now design.now id.0 }
    ensures cost { IfOk result (λ cost. cost ≡ link_cost inst.now design.now id.0) }
    ensures within { IfOk result (λ cost. cost ≤ 34 * 10 ^ 30) }
{
    let link = inst.link(id);
    let counts = design.counts.as_slice()[id.0 as usize].as_slice();
    check_counts(inst.law(), id, link, counts)?;
    let capacity = capacity_with(link, counts);
    let load = loads.need();
    if load > capacity {
        return Err(DesignFault::Short {
            link: id,
            load,
            capacity,
        });
    }
    Ok(u128::from(link.routing) * (loads.there + loads.back) + module_cost_with(link, counts))
}

/// What the links cost, where each has a capacity for its load.
#[tactic(auto, using(crate::proofs::FirstFault::first_faults, crate::proofs::SumLaws::sums, crate::proofs::LoadLaws::load_laws))]
fn check_links(
    inst: &Instance,
    design: &Design,
    loads: &[u128; MAX_PLACES],
) -> Result<u128, DesignFault>
    requires counts { length design.now.counts ≡ length inst.now.links }
    requires loads { (q : ℕ) → q < MAX_PLACES → slice_index loads.now q ≡ load_at inst.now design.now q }
    ensures fault { result_err result
        ≡ first_fault (carries_fault inst.now design.now) (length inst.now.links) }
    ensures cost { IfOk result (λ cost. cost ≡ cost_of inst.now design.now) }
{
    let mut cost: u128 = 0;
    for place in 0..inst.links() {
        let link = LinkId(place);
        cost += check_link(inst, design, link, LinkLoads::of_link(inst, loads, link))?;
    }
    Ok(cost)
}

/// What the design costs, or its first fault.
#[tactic(auto, unfolding(crate::specs::DesignFaults::design_fault))]
fn checked_cost(inst: &Instance, design: &Design) -> Result<u128, DesignFault>
    ensures fault { result_err result ≡ design_fault inst.now design.now }
    ensures cost { IfOk result (λ cost. cost ≡ cost_of inst.now design.now) }
{
    if !has_right_counts(inst, design) {
        return Err(DesignFault::WrongCount);
    }
    check_paths(inst, design)?;
    let loads = loads_of(inst, design);
    check_links(inst, design, &loads)
}
