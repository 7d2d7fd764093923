//! Whether prices and lengths show that places carry too little.

ghost use Rattle.std.specs.Prelude.{◌≡◌, ◌<◌, ◌≤◌, ◌↔◌, false, min, length, IsTrue};
ghost use Rattle.plan_base.specs.Facts.{is_useful};
ghost use Rattle.plan_base.specs.Arcs.{link_at};
ghost use Rattle.plan_base.specs.Places.{places, link_of_place};
ghost use Rattle.proof_tree.specs.Evidence.{is_cut_short};
ghost use Rattle.bound_assembly.specs.Rounds.{left_in};
ghost use Rattle.bound_assembly.specs.RoundBounds.{AreShort, AreFree, priced_room, IsRoundCrowd};

use crate::totals::price_total;
use link_steps::Ranges;
use plan_base::{Instance, Prices};
use proof_tree::{is_cut_short, room_at};

/// Whether a price is 0, if the place's link has a module with capacity and its range ends at the top load.
fn is_free(inst: &Instance, ranges: &Ranges, place: u32, price: u128) -> bool
    requires ranges { length ranges.now ≡ places inst.now }
    requires place { place < places inst.now }
    ensures { IsTrue result ↔ (IsTrue (is_useful (link_at inst.now (link_of_place inst.now place))) → is_cut_short inst.now ranges.now place ≡ false → price ≡ 0) }
{
    price == 0 || !inst.useful(inst.link_of_place(place)) || is_cut_short(inst, ranges, place)
}

/// Whether the price of each place of a link that has a module with capacity is 0 where its range ends at the top load.
fn are_free(inst: &Instance, ranges: &Ranges, prices: &Prices) -> bool
    requires ranges { length ranges.now ≡ places inst.now }
    requires prices { places inst.now ≤ length prices.now }
    ensures { IsTrue result ↔ AreFree inst.now ranges.now prices.now (places inst.now) }
{
    for place in 0..inst.places() {
        if !is_free(inst, ranges, place, prices.as_slice()[place as usize]) {
            return false;
        }
    }
    true
}

/// The sum over places of the price times what the place carries at most where no module is added, up to the greatest
/// number, in thousandths of a cost grain.
fn priced_room(inst: &Instance, ranges: &Ranges, prices: &Prices) -> u128
    requires ranges { length ranges.now ≡ places inst.now }
    requires prices { places inst.now ≤ length prices.now }
    ensures { result ≡ min (priced_room inst.now ranges.now prices.now (places inst.now)) u128.MAX }
{
    let mut total = 0u128;
    for place in 0..inst.places() {
        let price = prices.as_slice()[place as usize];
        let room = u128::from(room_at(inst, ranges, place));
        total = total.saturating_add(price.saturating_mul(room));
    }
    total
}

/// Whether links with useful modules are free at these prices where ranges end at their top loads, and loads times
/// lengths exceed prices times what the places carry at most. Takes no memory.
///
/// - Takes: ranges, a price for each place and, for each demand, a length, the last two in thousandths of a cost grain per load
///   grain; no length is above what a simple path costs with the price limit on each link. What stands behind the prices is
///   not looked at.
/// - Rule: docs/DEFINITIONS.md, "Evidence of a leaf".
/// - Time: linear in the demands, the places and their links' modules.
pub fn is_crowded(
    inst: &Instance,
    ranges: &Ranges,
    prices: &Prices,
    lengths: &[Option<u128>],
) -> bool
    requires range_count { length ranges.now ≡ places inst.now }
    requires price_count { places inst.now ≤ length prices.now }
    requires length_count { length lengths.now ≡ length inst.now.demands }
    requires short { AreShort inst.now lengths.now }
    requires full { left_in lengths.now ≡ 0 }
    ensures { IsTrue result ↔ IsRoundCrowd inst.now ranges.now prices.now lengths.now }
{
    are_free(inst, ranges, prices) && priced_room(inst, ranges, prices) < price_total(inst, lengths)
}
