//! Numbers read as prices of places and rates of cuts.

ghost use Rattle.std.specs.Prelude.{◌≡◌, ◌<◌, ◌≤◌, ◌*◌, ◌+◌, ◌++◌, length, replicate, IfOk, nat_lt, if◌then◌else◌};
ghost use Rattle.plan_base.specs.declared.limits.TheConstants.{MAX_PRICED_LOAD};
ghost use Rattle.plan_base.specs.Arcs.{link_at};
ghost use Rattle.plan_base.specs.Places.{places, link_of_place};
ghost use Rattle.proof_tree.specs.declared.limits.TheConstants.{MAX_CUTS};
ghost use Rattle.proof_tree.specs.RatedEvidence.{rates_in};
ghost use Rattle.arc_restrict.specs.Prices.{AreWithinLimit};
ghost use Rattle.cut_values.specs.Crossings.{rates_on, AreNumbered};

use crate::crossing::Crossing;
use plan_base::{Instance, Prices};
use std::alloc::AllocError;

/// The rates of cuts, which stand behind the prices of places.
pub fn rates_of<'a>(inst: &Instance, numbers: &'a [u128]) -> &'a [u128]
    requires { places inst.now ≤ length numbers.now }
    ensures value { result.now ≡ rates_in inst.now numbers.now }
    ensures len { length result.now + places inst.now ≡ length numbers.now }
{
    let _places = inst.places();
    numbers.split_at(inst.places() as usize).1
}

/// Prices with so many rates of 0 behind them.
///
/// - Errors: want of memory alone.
pub fn with_no_rates(prices: Prices, rates: usize) -> Result<Prices, AllocError>
    ensures { IfOk result (λ numbers. numbers ≡ prices ++ replicate rates 0) }
{
    let mut numbers = prices.into_vec();
    let count = numbers.len().checked_add(rates).ok_or(AllocError)?;
    numbers.resize(count, 0)?;
    Ok(Prices::from_vec(numbers))
}

/// The rates of the cuts of a row together, in thousandths of a cost grain per counted grain.
pub fn rates_on(inst: &Instance, row: &[Crossing], rates: &[u128]) -> u128
    requires few { length row.now ≤ MAX_CUTS }
    requires numbered { AreNumbered (length rates.now) row.now }
    requires within { AreWithinLimit inst.now rates.now }
    ensures value { result ≡ rates_on rates.now row.now }
    ensures within { result ≤ MAX_CUTS * MAX_PRICED_LOAD }
{
    let mut total: u128 = 0;
    for crossing in row {
        total += rates[crossing.number as usize];
    }
    total
}

/// A thousand routing costs of the link of a place where rates are above 0, and else 0, in thousandths of a cost grain.
pub fn least_price(inst: &Instance, rate: u128, place: u32) -> u128
    requires { place < places inst.now }
    ensures { result ≡ (if nat_lt 0 rate then 1000 * (link_at inst.now (link_of_place inst.now place)).routing else 0) }
{
    if rate > 0 {
        1000 * u128::from(inst.link(inst.link_of_place(place)).routing)
    } else {
        0
    }
}
