//! What all costs are multiples of.

ghost use Rattle.std.specs.Prelude.{◌≤◌, max, length};
ghost use Rattle.plan_base.specs.Arcs.{link_at, demand_at};
ghost use Rattle.link_steps.specs.Unit.{IsUnit};
ghost use Rattle.link_steps.specs.Divisors.{IsCommonDivisor, IsDivisorBefore, DividesWith, IsModuleDivisor};

use plan_base::limits::{CAPACITY_BOUND, MAX_TOTAL_LOAD};
use plan_base::{DemandId, Instance, Link, LinkId};

/// The greatest common divisor of two numbers, by Euclid's algorithm; 0 where both are 0.
fn common_divisor(a: u128, b: u128) -> u128
    ensures divisor { IsCommonDivisor a b result }
    ensures within { result ≤ max a b }
{
    let mut larger = a;
    let mut smaller = b;
    while smaller > 0 {
        let rest = larger % smaller;
        larger = smaller;
        smaller = rest;
    }
    larger
}

/// The greatest common divisor of a number and the costs of a link's modules.
#[tactic(auto, using(crate::proofs::DivisorLaws::module_divisors))]
fn with_modules(link: &Link, number: u128) -> u128
    ensures { DividesWith link.now number result }
{
    let mut divisor = number;
    for module in link.modules.as_slice() {
        divisor = common_divisor(divisor, module.cost);
    }
    divisor
}

/// That of the costs of all modules.
#[tactic(auto, using(crate::proofs::DivisorLaws::module_divisors))]
fn module_divisor(inst: &Instance) -> u128
    ensures { IsModuleDivisor inst.now (length inst.now.links) result }
{
    let mut divisor = 0;
    for place in 0..inst.links() {
        divisor = with_modules(inst.link(LinkId(place)), divisor);
    }
    divisor
}

/// That of the routing costs of all links.
fn routing_divisor(inst: &Instance) -> u128
    ensures divisor { IsDivisorBefore (λ e. (link_at inst.now e).routing) (length inst.now.links) result }
    ensures within { result ≤ CAPACITY_BOUND }
{
    let mut divisor = 0;
    for place in 0..inst.links() {
        divisor = common_divisor(divisor, u128::from(inst.link(LinkId(place)).routing));
    }
    divisor
}

/// That of the loads of all demands.
fn load_divisor(inst: &Instance) -> u128
    ensures divisor { IsDivisorBefore (λ k. (demand_at inst.now k).load) (length inst.now.demands) result }
    ensures within { result ≤ MAX_TOTAL_LOAD }
{
    let mut divisor = 0;
    for place in 0..inst.demands() {
        divisor = common_divisor(divisor, inst.demand(DemandId(place)).load);
    }
    divisor
}

/// The unit of costs: the greatest number that divides each module cost, and each routing cost times each load; 1 where
/// all of these are 0. Each design's cost is a multiple of it. Takes no memory.
///
/// - Gives: cost grains.
/// - Rule: docs/DEFINITIONS.md, "Unit of costs".
/// - Time: linear in the modules, the links and the demands.
pub fn cost_unit(inst: &Instance) -> u128
    ensures { IsUnit inst.now result }
{
    let routed = routing_divisor(inst) * load_divisor(inst);
    common_divisor(module_divisor(inst), routed).max(1)
}
