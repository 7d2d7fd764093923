//! Why prices and rates are not published, and which of them are crowd prices.

ghost use Rattle.std.specs.Prelude.{ℕ, ◌≡◌, ◌<◌, ◌≤◌, ◌+◌, ◌↔◌, IsTrue, length, take, slice_index, not, ◌==◌, if◌then◌else◌};
ghost use Rattle.plan_base.specs.First.{◌or_else◌, when, first_in};
ghost use Rattle.plan_base.specs.Facts.{is_useful};
ghost use Rattle.plan_base.specs.Arcs.{link_at};
ghost use Rattle.plan_base.specs.Places.{places, link_of_place};
ghost use Rattle.master_step.specs.Outcomes.{crowd_price, AreCrowdPrices};
ghost use Rattle.search_machine.specs.declared.answers.Publish.TheVariants as publish;
ghost use Rattle.search_machine.specs.Publishing.{price_fault, unlawful_fault, publish_fault};

use super::PoolView;
use cut_values::CutTable;
use plan_base::{BranchId, Instance, Prices};
use search_machine::Publish;
use search_machine::limits::MAX_VERSIONS;

/// The link of the first place whose price is above the price limit, as a refusal.
///
/// - Takes: the prices of the places alone.
#[tactic(auto, using(plan_base::proofs::FirstFault::first_faults))]
fn over_price(inst: &Instance, prices: &[u128]) -> Option<Publish>
    requires { length prices.now ≡ places inst.now }
    ensures { result ≡ first_in (price_fault inst.now) prices.now }
{
    let _places = inst.places();
    let limit = inst.price_limit();
    for (place, price) in prices.iter().enumerate() {
        if *price > limit {
            return Some(Publish::OverPrice {
                link: inst.link_of_place(place as u32),
            });
        }
    }
    None
}

/// Why prices and rates are none of the instance with the table's cuts, if they are not.
fn price_refusal(inst: &Instance, table: &CutTable, prices: &Prices) -> Option<Publish>
    requires { table.now.problem ≡ inst.now }
    ensures { result ≡ (when (not (length prices.now == places inst.now + length table.now.cuts)) (publish.PriceCount (places inst.now + length table.now.cuts))
        or_else first_in (price_fault inst.now) (take (places inst.now) prices.now)
        or_else unlawful_fault inst.now table.now.cuts prices.now) }
{
    let needed = inst.places() + table.count();
    let numbers = prices.as_slice();
    if numbers.len() != needed as usize {
        return Some(Publish::PriceCount { needed });
    }
    if let Some(refusal) = over_price(inst, &numbers[..inst.places() as usize]) {
        return Some(refusal);
    }
    if !table.are_numbers(prices) {
        return Some(Publish::Unlawful);
    }
    None
}

/// The price of a place when the places of useful links are free.
fn crowd_price(inst: &Instance, place: u32, price: u128) -> u128
    requires { place < places inst.now }
    ensures { result ≡ (if is_useful (link_at inst.now (link_of_place inst.now place)) then 0 else price) }
{
    if inst.useful(inst.link_of_place(place)) {
        0
    } else {
        price
    }
}

/// Whether the places have the crowd prices of the first numbers in the second ones.
fn are_crowded(inst: &Instance, numbers: &[u128], crowd: &[u128]) -> bool
    requires count { places inst.now ≤ length numbers.now }
    requires crowd_count { places inst.now ≤ length crowd.now }
    ensures { IsTrue result ↔ ((q : ℕ) → q < places inst.now → slice_index crowd.now q ≡ crowd_price inst.now numbers.now q) }
{
    for place in 0..inst.places() {
        if crowd[place as usize] != crowd_price(inst, place, numbers[place as usize]) {
            return false;
        }
    }
    true
}

/// Whether the rates of all cuts are 0.
fn have_no_rates(inst: &Instance, numbers: &[u128]) -> bool
    ensures { IsTrue result ↔ ((i : ℕ) → places inst.now ≤ i → slice_index numbers.now i ≡ 0) }
{
    for place in inst.places() as usize..numbers.len() {
        if numbers[place] != 0 {
            return false;
        }
    }
    true
}

/// Whether the second numbers are the crowd prices of the first ones, with rates of 0.
pub fn are_crowd_prices(inst: &Instance, prices: &Prices, crowd: &Prices) -> bool
    requires count { places inst.now ≤ length prices.now }
    requires crowd_count { length crowd.now ≡ length prices.now }
    ensures { IsTrue result ↔ AreCrowdPrices inst.now prices.now crowd.now }
{
    have_no_rates(inst, crowd.as_slice()) && are_crowded(inst, prices.as_slice(), crowd.as_slice())
}

impl<'a> PoolView<'a> {
    /// Why prices and rates are refused before they are valued, if they are.
    #[tactic(auto, unfolding(search_machine::specs::Publishing::publish_fault))]
    pub fn publish_refusal(&self, node: BranchId, seen: u64, prices: &Prices) -> Option<Publish>
        ensures { result ≡ publish_fault self.now node seen prices.now }
    {
        if self.is_spent() {
            return Some(Publish::Spent {
                examined: self.state.examined,
            });
        }
        let current = self.current(node);
        if !super::is_version(current, seen) {
            return Some(Publish::Stale { current });
        }
        if self.is_settled(node) {
            return Some(Publish::Settled);
        }
        if let Some(demand) = self.first_gap(node) {
            return Some(Publish::Incomplete { demand });
        }
        let done = self.completed(node);
        if done >= MAX_VERSIONS {
            return Some(Publish::Rounds { done });
        }
        if let Some(refusal) = price_refusal(self.problem(), self.table(), prices) {
            return Some(refusal);
        }
        self.first_ungathered(node)
            .map(|demand| Publish::Ungathered { demand })
    }
}
