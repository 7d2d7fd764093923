//! What prices and rates leave of the step costs of links.

ghost use Rattle.std.specs.Prelude.{◌≡◌, ◌<◌, ◌≤◌, ◌*◌, length, slice_index, IfOk, ℤ, pos, ◌-ℤ◌, ◌≤ℤ◌};
ghost use Rattle.plan_base.specs.declared.limits.TheConstants.{MAX_PRICED_LOAD};
ghost use Rattle.arc_restrict.specs.Prices.{AreWithinLimit};
ghost use Rattle.proof_tree.specs.declared.limits.TheConstants.{MAX_CUTS};
ghost use Rattle.proof_tree.specs.Cuts.{least_count, cut_at, AreCuts, AreRests};
ghost use Rattle.proof_tree.specs.RatedBounds.{rated_there, rated_back, cut_total, FitRated, IsRatedValue, IsRatedTotal};

use crate::cuts::Cut;
use crate::rated_numbers::RatedNumbers;
use crate::rates::put_rated;
use link_steps::{Rated, tally};
use plan_base::{Instance, LinkId, LinkPrices};
use std::alloc::{AllocError, Global};

/// Puts the cuts that the places of a link cross, each with its rate, over what two lists have: none for the second place
/// where the link has one.
fn put_rates(
    numbers: &RatedNumbers<'_>,
    link: LinkId,
    there: &mut Vec<Rated>,
    back: &mut Vec<Rated>,
) -> Result<(), AllocError>
    requires fit { FitRated numbers.now.table.now numbers.now.ranges.now numbers.now.cuts.now numbers.now.rests.now numbers.now.prices.now numbers.now.rates.now }
    requires link { link.0 < length numbers.now.table.now.links }
    ensures there { IfOk result (λ done. there.new.items ≡ rated_there numbers.now.table.now numbers.now.cuts.now numbers.now.rates.now link.0) }
    ensures back { IfOk result (λ done. back.new.items ≡ rated_back numbers.now.table.now numbers.now.cuts.now numbers.now.rates.now link.0) }
{
    let inst = numbers.table.instance();
    let _places = inst.places();
    if inst.orient().is_two_way() {
        put_rated(numbers, 2 * link.0, there)?;
        put_rated(numbers, 2 * link.0 + 1, back)
    } else {
        back.clear();
        put_rated(numbers, link.0, there)
    }
}

/// The value of a link, in thousandths of a cost grain. What the lists have is written over.
fn rated_value(
    numbers: &RatedNumbers<'_>,
    link: LinkId,
    there: &mut Vec<Rated>,
    back: &mut Vec<Rated>,
) -> Result<i128, AllocError>
    requires fit { FitRated numbers.now.table.now numbers.now.ranges.now numbers.now.cuts.now numbers.now.rests.now numbers.now.prices.now numbers.now.rates.now }
    requires link { link.0 < length numbers.now.table.now.links }
    ensures value { IfOk result (λ value. IsRatedValue numbers.now.table.now numbers.now.cuts.now numbers.now.ranges.now numbers.now.prices.now numbers.now.rates.now link.0 value) }
    ensures not_above { IfOk result (λ value. value ≤ℤ pos MAX_PRICED_LOAD) }
    ensures bounded { IfOk result (λ value. (pos 0 -ℤ pos (2 * MAX_PRICED_LOAD)) ≤ℤ value) }
{
    put_rates(numbers, link, there, back)?;
    let table = numbers.table;
    let inst = table.instance();
    let ranges = numbers.ranges.of_link(inst, link);
    let prices = LinkPrices::of_link(inst, numbers.prices, link);
    let found = table.rated_value(link, ranges, prices.there, there, prices.back, back);
    Ok(found.value)
}

/// The sum of the values of all links at these prices and rates.
///
/// - Takes: numbers that fit their table: the cuts are cuts of the instance, the prices within the price limit, and each large
///   enough for the rates that its place crosses.
/// - Gives: thousandths of a cost grain.
/// - Errors: want of memory alone.
/// - Rule: docs/DEFINITIONS.md, "Link value".
/// - Time: for each link one link value, and a look at each cut.
pub fn rated_total(alloc: Global, numbers: &RatedNumbers<'_>) -> Result<i128, AllocError>
    requires fit { FitRated numbers.now.table.now numbers.now.ranges.now numbers.now.cuts.now numbers.now.rests.now numbers.now.prices.now numbers.now.rates.now }
    ensures { IfOk result (λ total. IsRatedTotal numbers.now.table.now numbers.now.cuts.now numbers.now.ranges.now numbers.now.prices.now numbers.now.rates.now (length numbers.now.table.now.links) total) }
{
    let inst = numbers.table.instance();
    let mut there = Vec::new(alloc);
    let mut back = Vec::new(alloc);
    let mut total = 0;
    for place in 0..inst.links() {
        let value = rated_value(numbers, LinkId(place), &mut there, &mut back)?;
        total += value;
    }
    Ok(total)
}

/// How many grains the cut of this number counts at least.
fn least_count(inst: &Instance, cuts: &[Cut], rests: &[u64], number: usize) -> u64
    requires cuts { AreCuts inst.now cuts.now }
    requires rests { AreRests inst.now cuts.now rests.now }
    requires number { number < length cuts.now }
    ensures { result ≡ least_count inst.now (cut_at cuts.now number) }
{
    let cut = &cuts[number];
    tally(cut.period, cut.first, rests[number])
}

/// The rate of a cut times what it counts at least, in thousandths of a cost grain.
fn cut_worth(inst: &Instance, cuts: &[Cut], rests: &[u64], rates: &[u128], number: usize) -> u128
    requires cuts { AreCuts inst.now cuts.now }
    requires rests { AreRests inst.now cuts.now rests.now }
    requires rates { length rates.now ≡ length cuts.now }
    requires limit { AreWithinLimit inst.now rates.now }
    requires number { number < length cuts.now }
    ensures value { result ≡ slice_index rates.now number * least_count inst.now (cut_at cuts.now number) }
    ensures within { result ≤ MAX_PRICED_LOAD }
{
    rates[number] * u128::from(least_count(inst, cuts, rests, number))
}

/// The rates times what the cuts count at least. Takes no memory.
///
/// - Takes: cuts of the instance, not too many; what crosses each of them beyond what it leaves out; a rate for each of at most
///   the price limit.
/// - Gives: thousandths of a cost grain.
/// - Rule: docs/DEFINITIONS.md, "Bounds".
/// - Time: linear in the cuts.
pub fn cut_total(inst: &Instance, cuts: &[Cut], rests: &[u64], rates: &[u128]) -> u128
    requires cuts { AreCuts inst.now cuts.now }
    requires few { length cuts.now ≤ MAX_CUTS }
    requires rests { AreRests inst.now cuts.now rests.now }
    requires rates { length rates.now ≡ length cuts.now }
    requires limit { AreWithinLimit inst.now rates.now }
    ensures value { result ≡ cut_total inst.now cuts.now rates.now }
    ensures within { result ≤ length cuts.now * MAX_PRICED_LOAD }
{
    let mut total: u128 = 0;
    for number in 0..cuts.len() {
        total += cut_worth(inst, cuts, rests, rates, number);
    }
    total
}
