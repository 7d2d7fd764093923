//! How far the prices of a trial move.

ghost use Rattle.std.specs.Prelude.{◌≡◌, ◌<◌, ◌≤◌, ◌+◌, ◌*◌, max, length, slice_index, if◌then◌else◌, ◌==◌};
ghost use Rattle.plan_base.specs.declared.limits.TheConstants.{MAX_PLACES, MAX_PRICED_LOAD};
ghost use Rattle.plan_base.specs.Facts.{total_load, top_load, price_limit};
ghost use Rattle.plan_base.specs.Arcs.{link_at};
ghost use Rattle.plan_base.specs.Places.{places, link_of_place};
ghost use Rattle.arc_restrict.specs.Prices.{AreWithinLimit};
ghost use Rattle.cut_values.specs.Numbers.{AreNumbers, least_price_at, most_price_at};
ghost use Rattle.master_step.specs.Trials.{apart as apart_of, moved as moved_price, widest_gap as widest_of, greatest_price as greatest_of};
ghost use Rattle.master_step.specs.Climbing.{HasRoom, AreLow, AreMoved};

use crate::rows::Rows;
use cut_values::{CutTable, PriceBounds};
use plan_base::{Instance, Prices};

/// How far two loads are apart.
fn apart(load: u128, other: u128) -> u128
    ensures { result ≡ apart_of load other }
{
    load.abs_diff(other)
}

/// The most that the two loads of a place are apart, in load grains.
pub fn widest_gap(inst: &Instance, rows: &Rows) -> u128
    requires columns { length rows.now.column_loads.items ≡ MAX_PLACES }
    requires values { length rows.now.value_loads.items ≡ MAX_PLACES }
    requires low { AreLow inst.now rows.now }
    ensures within { result ≤ total_load inst.now }
    ensures value { result ≡ widest_of inst.now (slice_index rows.now.column_loads.items) (slice_index rows.now.value_loads.items) }
{
    let mut widest = 0;
    for place in 0..inst.places() as usize {
        widest = widest.max(apart(rows.column_loads[place], rows.value_loads[place]));
    }
    widest
}

/// The price of a place, if its link may carry load, and else 0.
fn loaded_price(inst: &Instance, place: u32, price: u128) -> u128
    requires { place < places inst.now }
    ensures { result ≡ (if top_load inst.now (link_at inst.now (link_of_place inst.now place)) == 0 then 0 else price) }
{
    if inst.top_load(inst.link_of_place(place)) == 0 {
        0
    } else {
        price
    }
}

/// The greatest price of the places whose links may carry load, and at least 1.
pub fn greatest_price(inst: &Instance, prices: &Prices) -> u128
    requires count { places inst.now ≤ length prices.now }
    requires limit { AreWithinLimit inst.now prices.now }
    ensures value { result ≡ greatest_of inst.now prices.now }
    ensures within { result ≤ price_limit inst.now }
{
    inst.lawful();
    let prices = prices.as_slice();
    let mut greatest = 0;
    for place in 0..inst.places() {
        greatest = greatest.max(loaded_price(inst, place, prices[place as usize]));
    }
    greatest.max(1)
}

/// A price moved towards what the columns ask for.
fn moved(
    bounds: PriceBounds,
    greatest: u128,
    divisor: u128,
    columns: u128,
    value: u128,
    price: u128,
) -> u128
    requires divisor { 0 < divisor }
    requires product { apart_of columns value * greatest ≤ MAX_PRICED_LOAD }
    requires price { price ≤ MAX_PRICED_LOAD }
    ensures { result ≡ moved_price bounds.least bounds.most greatest divisor columns value price }
{
    let step = apart(columns, value) * greatest / divisor;
    if value < columns {
        bounds.most.min(price + step)
    } else {
        bounds.least.max(price.saturating_sub(step))
    }
}

/// The price of a place in a trial.
fn trial_price(
    inst: &Instance,
    table: &CutTable,
    prices: &Prices,
    greatest: u128,
    divisor: u128,
    columns: u128,
    value: u128,
    place: u32,
) -> u128
    requires table { table.now.problem ≡ inst.now }
    requires place { place < places inst.now }
    requires numbers { AreNumbers inst.now table.now.cuts prices.now }
    requires columns { columns ≤ total_load inst.now }
    requires value { value ≤ total_load inst.now }
    requires greatest { greatest ≤ price_limit inst.now }
    requires divisor { 0 < divisor }
    ensures { result ≡ moved_price (least_price_at inst.now table.now.cuts prices.now place) (most_price_at inst.now table.now.cuts prices.now place)
        greatest divisor columns value (slice_index prices.now place) }
{
    let bounds = table.price_bounds(prices, place);
    let price = prices.as_slice()[place as usize];
    moved(bounds, greatest, divisor, columns, value, price)
}

/// Writes the numbers of a trial into the rows.
pub fn set_trial(
    inst: &Instance,
    table: &CutTable,
    prices: &Prices,
    greatest: u128,
    divisor: u128,
    rows: &mut Rows,
)
    requires table { table.now.problem ≡ inst.now }
    requires numbers { AreNumbers inst.now table.now.cuts prices.now }
    requires room { HasRoom (places inst.now + length table.now.cuts) rows.old }
    requires loads { AreLow inst.now rows.old }
    requires greatest { greatest ≤ price_limit inst.now }
    requires divisor { 0 < divisor }
    ensures columns { rows.new.column_loads ≡ rows.old.column_loads }
    ensures values { rows.new.value_loads ≡ rows.old.value_loads }
    ensures trial { AreMoved inst.now table.now.cuts prices.now greatest divisor rows.old rows.new.trial }
{
    rows.trial.set_to(prices);
    for place in 0..inst.places() {
        let columns = rows.column_loads[place as usize];
        let value = rows.value_loads[place as usize];
        let price = trial_price(
            inst, table, prices, greatest, divisor, columns, value, place,
        );
        rows.trial.put(place, price);
    }
}
