//! Prices of places with rates of cuts.

ghost use Rattle.std.specs.Prelude.{ℕ, ◌≡◌, ◌<◌, ◌≤◌, ◌*◌, ◌↔◌, length, slice_index, IsTrue, IfOk, if◌then◌else◌};
ghost use Rattle.plan_base.specs.declared.limits.TheConstants.{MAX_PRICED_LOAD};
ghost use Rattle.plan_base.specs.Facts.{price_limit};
ghost use Rattle.plan_base.specs.Arcs.{link_at};
ghost use Rattle.plan_base.specs.Places.{places, link_of_place};
ghost use Rattle.arc_restrict.specs.Prices.{AreWithinLimit};
ghost use Rattle.proof_tree.specs.declared.limits.TheConstants.{MAX_CUTS};
ghost use Rattle.proof_tree.specs.Cuts.{place_crosses, cut_at, AreRests};
ghost use Rattle.proof_tree.specs.RatedBounds.{rated_on, crossing_rates, IsRatedPrice, AreRatedPrices, FitRated};

use crate::cuts::Cut;
use crate::rated_numbers::RatedNumbers;
use link_steps::Rated;
use plan_base::Instance;
use std::alloc::{AllocError, Global};

/// What crosses each cut beyond what it leaves out, in load grains.
///
/// - Errors: want of memory alone.
/// - Rule: docs/DEFINITIONS.md, "Cuts".
/// - Time: linear in demands and places for each cut.
pub fn rests_of(alloc: Global, inst: &Instance, cuts: &[Cut]) -> Result<Vec<u64>, AllocError>
    ensures { IfOk result (λ rests. AreRests inst.now cuts.now rests.items) }
{
    let mut rests = Vec::new(alloc);
    for number in 0..cuts.len() {
        rests.push(cuts[number].rest(inst))?;
    }
    Ok(rests)
}

/// Puts the cuts that a place crosses, each with its rate, over what a list has.
///
/// - Errors: want of memory alone; the list then has the first of them.
/// - Rule: docs/DEFINITIONS.md, "Cuts".
/// - Time: linear in the cuts.
pub(crate) fn put_rated(
    numbers: &RatedNumbers<'_>,
    place: u32,
    list: &mut Vec<Rated>,
) -> Result<(), AllocError>
    requires fit { FitRated numbers.now.table.now numbers.now.ranges.now numbers.now.cuts.now numbers.now.rests.now numbers.now.prices.now numbers.now.rates.now }
    requires place { place < places numbers.now.table.now }
    ensures { IfOk result (λ done. list.new.items ≡ rated_on numbers.now.table.now numbers.now.cuts.now numbers.now.rates.now place) }
{
    let inst = numbers.table.instance();
    list.clear();
    for number in 0..numbers.cuts.len() {
        let cut = &numbers.cuts[number];
        if cut.crosses(inst, place) {
            let batch = cut.batch(inst, place, numbers.rests[number]);
            let rate = numbers.rates[number];
            list.push(Rated { batch, rate })?;
        }
    }
    Ok(())
}

/// The rate of the cut of this number where a place crosses it, else 0, in thousandths of a cost grain per counted grain.
fn crossing_rate(inst: &Instance, cuts: &[Cut], rates: &[u128], place: u32, number: usize) -> u128
    requires place { place < places inst.now }
    requires rates { length rates.now ≡ length cuts.now }
    requires number { number < length cuts.now }
    requires within { AreWithinLimit inst.now rates.now }
    ensures value { result ≡ (if place_crosses inst.now (cut_at cuts.now number).nodes place then slice_index rates.now number else 0) }
    ensures within { result ≤ price_limit inst.now }
{
    if cuts[number].crosses(inst, place) {
        rates[number]
    } else {
        0
    }
}

/// The rates of the cuts that a place crosses, in thousandths of a cost grain per counted grain.
fn crossing_rates(inst: &Instance, cuts: &[Cut], rates: &[u128], place: u32) -> u128
    requires place { place < places inst.now }
    requires rates { length rates.now ≡ length cuts.now }
    requires few { length cuts.now ≤ MAX_CUTS }
    requires within { AreWithinLimit inst.now rates.now }
    ensures value { result ≡ crossing_rates inst.now cuts.now rates.now place }
    ensures within { result ≤ MAX_CUTS * MAX_PRICED_LOAD }
{
    let mut total: u128 = 0;
    for number in 0..cuts.len() {
        total += crossing_rate(inst, cuts, rates, place, number);
    }
    total
}

/// Whether a price is at least a thousand routing costs of the place's link where a rate is above 0.
fn covers_routing(inst: &Instance, price: u128, rate: u128, place: u32) -> bool
    requires { place < places inst.now }
    ensures { IsTrue result ↔ (0 < rate → 1000 * (link_at inst.now (link_of_place inst.now place)).routing ≤ price) }
{
    if rate == 0 {
        return true;
    }
    1000 * u128::from(inst.link(inst.link_of_place(place)).routing) <= price
}

/// Whether a place may have this price with these rates.
fn is_rated_price(inst: &Instance, cuts: &[Cut], price: u128, rates: &[u128], place: u32) -> bool
    requires place { place < places inst.now }
    requires rates { length rates.now ≡ length cuts.now }
    requires few { length cuts.now ≤ MAX_CUTS }
    requires within { AreWithinLimit inst.now rates.now }
    requires price { price ≤ price_limit inst.now }
    ensures { IsTrue result ↔ IsRatedPrice inst.now cuts.now price rates.now place }
{
    let rate = crossing_rates(inst, cuts, rates, place);
    price + rate <= inst.price_limit() && covers_routing(inst, price, rate, place)
}

/// Whether no number is above the price limit. Takes no memory.
///
/// - Rule: docs/DEFINITIONS.md, "Instances".
/// - Time: linear in the numbers.
pub fn are_within_limit(inst: &Instance, numbers: &[u128]) -> bool
    ensures { IsTrue result ↔ AreWithinLimit inst.now numbers.now }
{
    let limit = inst.price_limit();
    numbers.iter().all(|number| *number <= limit)
}

/// Whether each place may have its price with these rates.
fn are_rated(inst: &Instance, cuts: &[Cut], prices: &[u128], rates: &[u128]) -> bool
    requires prices { places inst.now ≤ length prices.now }
    requires rates { length rates.now ≡ length cuts.now }
    requires few { length cuts.now ≤ MAX_CUTS }
    requires prices_within { AreWithinLimit inst.now prices.now }
    requires rates_within { AreWithinLimit inst.now rates.now }
    ensures { IsTrue result ↔ ((q : ℕ) → q < places inst.now → IsRatedPrice inst.now cuts.now (slice_index prices.now q) rates.now q) }
{
    for place in 0..inst.places() {
        if !is_rated_price(inst, cuts, prices[place as usize], rates, place) {
            return false;
        }
    }
    true
}

/// Whether places may have these prices and cuts these rates: none is above the price limit, nor a place's price with the
/// rates of the cuts that it crosses, and where one of these is above 0, the price is at least a thousand routing costs.
///
/// - Takes: at least one price for each place, and one rate for each cut; not too many cuts.
/// - Rule: docs/DEFINITIONS.md, "Prices and rates".
/// - Time: the places times the cuts. Takes no memory.
pub fn are_rated_prices(inst: &Instance, cuts: &[Cut], prices: &[u128], rates: &[u128]) -> bool
    requires prices { places inst.now ≤ length prices.now }
    requires rates { length rates.now ≡ length cuts.now }
    requires few { length cuts.now ≤ MAX_CUTS }
    ensures { IsTrue result ↔ AreRatedPrices inst.now cuts.now prices.now rates.now }
{
    if !are_within_limit(inst, prices) {
        return false;
    }
    if !are_within_limit(inst, rates) {
        return false;
    }
    are_rated(inst, cuts, prices, rates)
}
