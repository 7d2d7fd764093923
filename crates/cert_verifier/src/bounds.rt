//! What prices and rates prove of a region: its bound, and that the demands ask for more than there is.

ghost use Rattle.std.specs.Prelude.{◌≡◌, ◌≤◌, ◌<◌, ◌+◌, ◌*◌, ◌^◌, ◌↔◌, ℤ, pos, ◌≤ℤ◌, ◌<ℤ◌, ◌+ℤ◌, ◌-ℤ◌, ◌*ℤ◌, length, IsTrue, IfOk, IfSome, IfNone};
ghost use Rattle.plan_base.specs.Places.{places};
ghost use Rattle.arc_restrict.specs.Prices.{AreWithinLimit};
ghost use Rattle.proof_tree.specs.declared.limits.TheConstants.{MAX_CUTS};
ghost use Rattle.proof_tree.specs.RatedBounds.{cut_total, IsRatedTotal};
ghost use Rattle.proof_tree.specs.RatedEvidence.{rates_in, AreLawfulNumbers, IsBoundAt};
ghost use Rattle.verifier_paths.specs.declared.limits.TheConstants.{MAX_WAY_ARCS};
ghost use Rattle.verifier_paths.specs.Kept.{forbidden_by};
ghost use Rattle.verifier_paths.specs.OnlyPaths.{HavePaths};
ghost use Rattle.cert_verifier.specs.Bounds.{HasRests, AreForInstance};
ghost use Rattle.cert_verifier.specs.Totals.{IsPriceTotal, room_price};
ghost use Rattle.cert_verifier.specs.Walks.{region_of_marks};

use crate::leaves::Place;
use link_steps::Ranges;
use plan_base::limits::{MAX_LINKS, MAX_PRICED_LOAD};
use plan_base::{DemandId, Instance, Prices};
use proof_tree::{
    RatedNumbers, are_rated_prices, are_within_limit, cut_total, rated_total, room_at,
};
use std::alloc::{AllocError, Global};
use verifier_paths::{Forbidden, prices_of_demands};

/// The sum of loads times least prices over the demands, in thousandths of a cost grain, and none where a demand has no
/// permitted path.
pub(crate) fn price_total(
    alloc: Global,
    inst: &Instance,
    forbidden: &Forbidden,
    prices: &[u128],
) -> Result<Option<u128>, AllocError>
    requires count { places inst.now ≤ length prices.now }
    requires limit { AreWithinLimit inst.now prices.now }
    ensures total { IfOk result (λ total. IfSome total (IsPriceTotal inst.now (forbidden_by forbidden.now) prices.now)) }
    ensures none { IfOk result (λ total. IfNone total (HavePaths inst.now (forbidden_by forbidden.now) → ⊥)) }
    ensures within { IfOk result (λ total. IfSome total (λ total. total ≤ MAX_WAY_ARCS * MAX_PRICED_LOAD)) }
{
    let found = prices_of_demands(alloc, inst, forbidden, prices)?;
    let mut total = 0;
    for place in 0..inst.demands() {
        match found[place as usize] {
            Some(price) => total += inst.demand(DemandId(place)).load * price,
            None => return Ok(None),
        }
    }
    Ok(Some(total))
}

/// The rates of the cuts, which stand behind the prices of places.
fn rates_of<'a>(inst: &Instance, numbers: &'a [u128]) -> &'a [u128]
    requires { places inst.now ≤ length numbers.now }
    ensures value { result.now ≡ rates_in inst.now numbers.now }
    ensures count { places inst.now + length result.now ≡ length numbers.now }
{
    numbers.split_at(inst.places() as usize).1
}

/// Whether the numbers are prices of places and rates of the cuts, as they have to be.
pub(crate) fn are_lawful(at: &Place, numbers: &Prices) -> bool
    requires few { length at.now.cuts.now ≤ MAX_CUTS }
    requires count { length numbers.now ≡ places at.now.inst.now + length at.now.cuts.now }
    ensures { IsTrue result ↔ AreLawfulNumbers at.now.inst.now at.now.cuts.now numbers.now }
{
    let list = numbers.as_slice();
    let cuts = at.cuts.as_slice();
    if cuts.is_empty() {
        return are_within_limit(at.inst, list);
    }
    are_rated_prices(at.inst, cuts, list, rates_of(at.inst, list))
}

/// The rates times what the cuts count at least, in thousandths of a cost grain.
fn counted_at(at: &Place, numbers: &Prices) -> u128
    requires cuts { HasRests at.now.inst.now at.now.cuts.now at.now.rests.now }
    requires count { length numbers.now ≡ places at.now.inst.now + length at.now.cuts.now }
    requires lawful { AreLawfulNumbers at.now.inst.now at.now.cuts.now numbers.now }
    ensures value { result ≡ cut_total at.now.inst.now at.now.cuts.now (rates_in at.now.inst.now numbers.now) }
    ensures within { result ≤ MAX_CUTS * MAX_PRICED_LOAD }
{
    let cuts = at.cuts.as_slice();
    let rates = rates_of(at.inst, numbers.as_slice());
    cut_total(at.inst, cuts, at.rests, rates)
}

/// The sum of the values of all links at the leaf, in thousandths of a cost grain.
fn values_at(alloc: Global, at: &Place, numbers: &Prices) -> Result<i128, AllocError>
    requires parts { AreForInstance at.now.inst.now at.now.table.now at.now.ranges.now at.now.cuts.now at.now.rests.now }
    requires count { length numbers.now ≡ places at.now.inst.now + length at.now.cuts.now }
    requires lawful { AreLawfulNumbers at.now.inst.now at.now.cuts.now numbers.now }
    ensures { IfOk result (λ values. IsRatedTotal at.now.inst.now at.now.cuts.now at.now.ranges.now numbers.now (rates_in at.now.inst.now numbers.now) (length at.now.inst.now.links) values) }
{
    let cuts = at.cuts.as_slice();
    if cuts.is_empty() {
        return Ok(at.table.value_total(at.ranges, numbers));
    }
    let prices = numbers.as_slice();
    rated_total(
        alloc,
        &RatedNumbers {
            table: at.table,
            ranges: at.ranges,
            cuts,
            rests: at.rests,
            prices,
            rates: rates_of(at.inst, prices),
        },
    )
}

/// The three sums together, in thousandths of a cost grain.
fn total_of(priced: u128, counted: u128, values: i128) -> i128
    requires priced { priced ≤ MAX_WAY_ARCS * MAX_PRICED_LOAD }
    requires counted { counted ≤ MAX_CUTS * MAX_PRICED_LOAD }
    requires not_above { values ≤ℤ pos (MAX_LINKS * MAX_PRICED_LOAD) }
    requires bounded { (pos 0 -ℤ pos (MAX_LINKS * (2 * MAX_PRICED_LOAD))) ≤ℤ values }
    ensures { result ≡ (pos (priced + counted) +ℤ values) }
{
    (priced + counted) as i128 + values
}

/// A thousandth of the total, rounded up: cost grains, from thousandths of one.
fn thousandth_up(total: i128) -> i128
    ensures reaches { total ≤ℤ (pos 1000 *ℤ result) }
    ensures least { (other : ℤ) → total ≤ℤ (pos 1000 *ℤ other) → result ≤ℤ other }
{
    let grains = total / 1000;
    if total % 1000 > 0 { grains + 1 } else { grains }
}

/// The bound of the leaf's region at these prices and rates, in cost grains, and none where a demand has no permitted path.
pub(crate) fn bound_at(
    alloc: Global,
    at: &Place,
    numbers: &Prices,
) -> Result<Option<i128>, AllocError>
    requires parts { AreForInstance at.now.inst.now at.now.table.now at.now.ranges.now at.now.cuts.now at.now.rests.now }
    requires count { length numbers.now ≡ places at.now.inst.now + length at.now.cuts.now }
    requires lawful { AreLawfulNumbers at.now.inst.now at.now.cuts.now numbers.now }
    ensures bound { IfOk result (λ bound. IfSome bound (IsBoundAt at.now.inst.now at.now.cuts.now (region_of_marks at.now.forbidden.now at.now.ranges.now) numbers.now)) }
    ensures none { IfOk result (λ bound. IfNone bound (HavePaths at.now.inst.now (forbidden_by at.now.forbidden.now) → ⊥)) }
{
    at.inst.lawful();
    match price_total(alloc, at.inst, at.forbidden, numbers.as_slice())? {
        Some(priced) => {
            let counted = counted_at(at, numbers);
            let values = values_at(alloc, at, numbers)?;
            Ok(Some(thousandth_up(total_of(priced, counted, values))))
        }
        None => Ok(None),
    }
}

/// Whether the bound is above the cost less the unit, all in cost grains.
pub(crate) fn is_enough(bound: i128, cost: u128, unit: u128) -> bool
    ensures { IsTrue result ↔ (pos cost <ℤ (bound +ℤ pos unit)) }
{
    if cost < unit {
        bound >= 0 || bound.unsigned_abs() < unit - cost
    } else {
        bound >= 0 && cost - unit < bound as u128
    }
}

/// The sum over places of the price times what the place carries at most where no module is added, in thousandths of a
/// cost grain, and none where it is `2^128` or more.
fn room_price(inst: &Instance, ranges: &Ranges, prices: &[u128]) -> Option<u128>
    requires ranges { length ranges.now ≡ places inst.now }
    requires count { places inst.now ≤ length prices.now }
    ensures value { IfSome result (λ total. total ≡ room_price inst.now ranges.now prices.now) }
    ensures large { IfNone result (2 ^ 128 ≤ room_price inst.now ranges.now prices.now) }
{
    let mut total: u128 = 0;
    for place in 0..inst.places() {
        let room = u128::from(room_at(inst, ranges, place));
        total = total.checked_add(prices[place as usize].checked_mul(room)?)?;
    }
    Some(total)
}

/// Whether the demands' total is above what the places carry at most where no module is added, at these prices.
pub(crate) fn is_crowded(inst: &Instance, ranges: &Ranges, prices: &[u128], total: u128) -> bool
    requires ranges { length ranges.now ≡ places inst.now }
    requires count { places inst.now ≤ length prices.now }
    ensures { IsTrue result ↔ (room_price inst.now ranges.now prices.now < total) }
{
    match room_price(inst, ranges, prices) {
        Some(given) => given < total,
        None => false,
    }
}
