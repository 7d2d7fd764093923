//! The measure in which demands and capacities are compared.

ghost use Rattle.std.specs.Prelude.{◌≡◌, ◌≤◌};
ghost use Rattle.plan_base.specs.Facts.{total_load};
ghost use Rattle.std.specs.Int.{IsGcd};
ghost use Rattle.demand_worth.specs.Measures.{load_divisor, measure};

use crate::limits::MAX_MEASURES;
use plan_base::limits::MAX_TOTAL_LOAD;
use plan_base::{DemandId, Instance};

/// The greatest common divisor of two numbers, by Euclid's algorithm; 0 where both are 0.
fn common_divisor(a: u64, b: u64) -> u64
    ensures { IsGcd a b result }
{
    let mut larger = a;
    let mut smaller = b;
    while smaller > 0 {
        let rest = larger % smaller;
        larger = smaller;
        smaller = rest;
    }
    larger
}

/// The greatest common divisor of the loads, in load grains; 0 where all are 0.
fn load_divisor(inst: &Instance) -> u64
    ensures value { result ≡ load_divisor inst.now }
    ensures within { result ≤ MAX_TOTAL_LOAD }
{
    let mut divisor = 0;
    for place in 0..inst.demands() {
        divisor = common_divisor(divisor, inst.demand(DemandId(place)).load as u64);
    }
    divisor
}

/// The measure of the instance: the least multiple of the greatest common divisor of all loads of which `MAX_MEASURES`
/// come to at least the total load; 1 where there is no load. Takes no memory.
///
/// - Gives: load grains, at least 1.
/// - Rule: docs/DEFINITIONS.md, "Measure".
/// - Time: linear in the demands.
pub fn measure(inst: &Instance) -> u64
    ensures value { result ≡ measure inst.now }
    ensures positive { 1 ≤ result }
{
    let divisor = u128::from(load_divisor(inst));
    if divisor == 0 {
        return 1;
    }
    let part = MAX_MEASURES as u128 * divisor;
    let count = (u128::from(inst.total_load()) + part - 1) / part;
    (divisor * count).max(1) as u64
}
