//! The prices at which useful links are free.

ghost use Rattle.std.specs.Prelude.{◌≡◌, ◌<◌, ◌≤◌, length, IfOk, if◌then◌else◌};
ghost use Rattle.plan_base.specs.Facts.{is_useful};
ghost use Rattle.plan_base.specs.Arcs.{link_at};
ghost use Rattle.plan_base.specs.Places.{places, link_of_place};
ghost use Rattle.master_step.specs.Outcomes.{AreCrowdPrices};

use plan_base::{Instance, Prices};
use std::alloc::{AllocError, Global};

/// The crowd price of the place of this number, and 0 behind the places.
fn crowd_number(inst: &Instance, number: usize, price: u128) -> u128
    ensures place { number < places inst.now → result ≡ (if is_useful (link_at inst.now (link_of_place inst.now number)) then 0 else price) }
    ensures rate { places inst.now ≤ number → result ≡ 0 }
{
    if number >= inst.places() as usize {
        return 0;
    }
    if inst.useful(inst.link_of_place(number as u32)) {
        0
    } else {
        price
    }
}

/// The crowd prices: the same prices, with 0 on every place of a useful link, and rates of 0.
///
/// - Takes: one price for each place, and behind them any rates.
/// - Gives: as many numbers: one price for each place, in thousandths of a cost grain per load grain, and behind them 0.
/// - Errors: want of memory alone.
/// - Rule: docs/METHOD.md, "Master step".
/// - Time: linear in the numbers and the modules of the places' links.
pub fn crowd_prices(alloc: Global, inst: &Instance, prices: &Prices) -> Result<Prices, AllocError>
    requires { places inst.now ≤ length prices.now }
    ensures { IfOk result (AreCrowdPrices inst.now prices.now) }
{
    let mut numerators = Vec::new(alloc);
    for (number, price) in prices.as_slice().iter().enumerate() {
        numerators.push(crowd_number(inst, number, *price))?;
    }
    Ok(Prices::from_vec(numerators))
}
