//! The sums that a bound is made of, and the bound.

ghost use Rattle.std.specs.Prelude.{◌≡◌, ◌≤◌, ◌+◌, ◌*◌, length, pos, ◌+ℤ◌, ◌-ℤ◌, ◌≤ℤ◌};
ghost use Rattle.link_steps.specs.Ranges.{AreRanges};
ghost use Rattle.proof_tree.specs.Bounds.{price_total as total_of_prices};
ghost use Rattle.cut_values.specs.Numbers.{AreNumbers};
ghost use Rattle.bound_assembly.specs.Rounds.{left_in};
ghost use Rattle.bound_assembly.specs.RoundBounds.{length_of, AreShort, IsRoundBound};

use crate::limits::MAX_PATH_LINKS;
use cut_values::CutTable;
use link_steps::Ranges;
use plan_base::limits::{MAX_LINKS, MAX_PRICED_LOAD};
use plan_base::{DemandId, Instance, Prices};
use proof_tree::limits::MAX_CUTS;
use scaled_numbers::up_to_grain;

/// The sum of loads times lengths over the demands, in thousandths of a cost grain.
pub fn price_total(inst: &Instance, lengths: &[Option<u128>]) -> u128
    requires count { length lengths.now ≡ length inst.now.demands }
    requires short { AreShort inst.now lengths.now }
    ensures value { result ≡ total_of_prices inst.now (length_of lengths.now) }
    ensures within { result ≤ MAX_PATH_LINKS * MAX_PRICED_LOAD }
{
    inst.lawful();
    let mut total = 0;
    for (place, found) in lengths.iter().enumerate() {
        total += inst.demand(DemandId(place as u32)).load * found.unwrap_or(0);
    }
    total
}

/// The three sums together, in thousandths of a cost grain.
pub fn total_of(priced: u128, counted: u128, values: i128) -> i128
    requires priced { priced ≤ MAX_PATH_LINKS * MAX_PRICED_LOAD }
    requires counted { counted ≤ MAX_CUTS * MAX_PRICED_LOAD }
    requires not_above { values ≤ℤ pos (MAX_LINKS * MAX_PRICED_LOAD) }
    requires bounded { (pos 0 -ℤ pos (MAX_LINKS * (2 * MAX_PRICED_LOAD))) ≤ℤ values }
    ensures { result ≡ (pos (priced + counted) +ℤ values) }
{
    (priced + counted) as i128 + values
}

/// The bound that prices and rates of cuts give over ranges, together with one length for each demand, in cost grains.
pub fn bound_of(
    inst: &Instance,
    table: &CutTable,
    ranges: &Ranges,
    numbers: &Prices,
    lengths: &[Option<u128>],
) -> i128
    requires table { table.now.problem ≡ inst.now }
    requires ranges { AreRanges inst.now ranges.now }
    requires numbers { AreNumbers inst.now table.now.cuts numbers.now }
    requires length_count { length lengths.now ≡ length inst.now.demands }
    requires short { AreShort inst.now lengths.now }
    requires full { left_in lengths.now ≡ 0 }
    ensures { IsRoundBound inst.now table.now.cuts ranges.now numbers.now lengths.now result }
{
    inst.lawful();
    let priced = price_total(inst, lengths);
    let counted = table.cut_total(numbers);
    let values = table.value_total(ranges, numbers);
    let total = total_of(priced, counted, values);
    up_to_grain(total)
}
