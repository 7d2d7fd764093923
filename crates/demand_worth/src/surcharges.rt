//! What single demands pay on places besides prices.

ghost use Rattle.std.specs.Prelude.{ℕ, ◌≡◌, ◌<◌, ◌≤◌, ◌+◌, ◌^◌, ◌++◌, ◌∷◌, [], ◌↔◌, length, slice_index, IsTrue, IfOk, OnErr, OnOk};
ghost use Rattle.demand_worth.specs.Surcharges.{AreSurcharges, surcharge_at, comes_before, on_place, surcharge_on, greatest_of, own_price};

use crate::limits::MAX_SURCHARGES;
use plan_base::DemandId;
use std::alloc::{AllocError, Global};
use std::marker::Model;

/// What one demand pays on one place besides its price.
#[derive(Clone, Copy, Debug, PartialEq, Eq)]
pub struct Surcharge {
    /// The place.
    pub place: u32,
    /// The demand.
    pub demand: DemandId,
    /// In thousandths of a cost grain per load grain.
    pub number: u128,
}

/// Whether one surcharge stands before another: its place does, or at the same place its demand.
fn comes_before(one: &Surcharge, other: &Surcharge) -> bool
    ensures { result ≡ comes_before one.now other.now }
{
    one.place < other.place || (one.place == other.place && one.demand.0 < other.demand.0)
}

/// How many surcharges are on places below a limit: those that stand first.
fn count_below(list: &[Surcharge], limit: u64) -> usize
    requires { AreSurcharges list.now }
    ensures within { result ≤ length list.now }
    ensures below { (i : ℕ) → i < result → (surcharge_at list.now i).place < limit }
    ensures others { (i : ℕ) → result ≤ i → i < length list.now → limit ≤ (surcharge_at list.now i).place }
{
    let mut low = 0;
    let mut high = list.len();
    while low < high {
        let middle = low + (high - low) / 2;
        if u64::from(list[middle].place) < limit {
            low = middle + 1;
        } else {
            high = middle;
        }
    }
    low
}

/// The surcharges on a place.
fn slice_on(list: &[Surcharge], place: u32) -> &[Surcharge]
    requires { AreSurcharges list.now }
    ensures { result.now ≡ on_place list.now place }
{
    let first = count_below(list, u64::from(place));
    let end = count_below(list, u64::from(place) + 1);
    &list[first..end]
}

/// Whether a surcharge comes after all of those that stand in order.
fn follows(list: &[Surcharge], next: &Surcharge) -> bool
    requires { AreSurcharges list.now }
    ensures { IsTrue result ↔ ((i : ℕ) → i < length list.now → IsTrue (comes_before (surcharge_at list.now i) next.now)) }
{
    list.is_empty() || comes_before(&list[list.len() - 1], next)
}

/// The greatest of some surcharges, 0 where there is none.
///
/// - Gives: thousandths of a cost grain per load grain.
pub fn greatest_of(here: &[Surcharge]) -> u128
    ensures { result ≡ greatest_of here.now }
{
    let mut most = 0;
    for surcharge in here {
        most = most.max(surcharge.number);
    }
    most
}

/// At most `MAX_SURCHARGES` surcharges, each above 0, ascending by place and then by demand.
#[derive(Debug, Drop)]
pub struct Surcharges {
    items: Vec<Surcharge>,
}

impl Model for Surcharges {
    ghost use Rattle.std.specs.Prelude.{List};
    ghost use Rattle.demand_worth.specs.declared.surcharges.Surcharge.{Surcharge};
    ghost use Rattle.demand_worth.specs.Surcharges.{AreSurcharges};

    ghost Value = { List Surcharge };

    ghost view = { λ a. a.items.items };

    ghost invariant = { λ a. AreSurcharges a.items.items };
}

impl Surcharges {
    /// No surcharges. Takes no memory.
    pub fn none(alloc: Global) -> Surcharges
        ensures { result ≡ [] }
    {
        Surcharges {
            items: Vec::new(alloc),
        }
    }

    /// The surcharges in their order.
    pub fn as_slice(&self) -> &[Surcharge]
        ensures value { result.now ≡ self.now }
        ensures len { length result.now ≡ length self.now }
        ensures lawful { AreSurcharges self.now }
    {
        self.items.as_slice()
    }

    /// Whether there is no surcharge.
    pub fn is_empty(&self) -> bool
        ensures { IsTrue result ↔ (self.now ≡ []) }
    {
        self.items.len() == 0
    }

    /// Whether a surcharge may stand behind these: it is above 0 and comes after the last, and there are fewer than
    /// `MAX_SURCHARGES`.
    ///
    /// - Rule: docs/DEFINITIONS.md, "Surcharges".
    /// - Time: constant.
    pub fn can_take(&self, next: &Surcharge) -> bool
        ensures { IsTrue result ↔ AreSurcharges (self.now ++ (next.now ∷ [])) }
    {
        let items = self.as_slice();
        if items.len() >= MAX_SURCHARGES {
            return false;
        }
        if next.number == 0 {
            return false;
        }
        follows(items, next)
    }

    /// Puts a surcharge behind these.
    ///
    /// - Errors: want of memory alone; nothing is changed then.
    /// - Time: constant on average.
    pub fn push(&mut self, next: Surcharge) -> Result<(), AllocError>
        requires { AreSurcharges (self.old ++ (next ∷ [])) }
        ensures ok { OnOk result (self.new ≡ self.old ++ (next ∷ [])) }
        ensures err { OnErr result (self.new ≡ self.old) }
    {
        self.items.push(next)?;
        Ok(())
    }

    /// The same surcharges.
    ///
    /// - Errors: want of memory alone.
    /// - Time: linear in the surcharges.
    pub fn copy(&self) -> Result<Surcharges, AllocError>
        ensures { IfOk result (λ list. list ≡ self.now) }
    {
        Ok(Surcharges {
            items: self.items.clone()?,
        })
    }

    /// The surcharges on a place, in the order of their demands. Takes no memory.
    ///
    /// - Time: logarithmic in the surcharges.
    pub fn on_place(&self, place: u32) -> &[Surcharge]
        ensures value { result.now ≡ on_place self.now place }
        ensures lawful { AreSurcharges self.now }
    {
        slice_on(self.items.as_slice(), place)
    }

    /// The surcharge of a demand on a place, 0 where it has none. Takes no memory.
    ///
    /// - Gives: thousandths of a cost grain per load grain.
    /// - Time: logarithmic in the surcharges, and linear in those on the place.
    pub fn on(&self, place: u32, demand: DemandId) -> u128
        ensures { result ≡ surcharge_on self.now place demand.0 }
    {
        for surcharge in self.on_place(place) {
            if surcharge.demand == demand {
                return surcharge.number;
            }
        }
        0
    }

    /// The own price of a place for a demand: its price and the demand's surcharge there. Takes no memory.
    ///
    /// - Takes: a price for each place, in thousandths of a cost grain per load grain.
    /// - Gives: the same unit.
    /// - Time: as that of `on`.
    #[tactic(auto, using(crate::proofs::Sets::own_prices))]
    pub fn own_price(&self, prices: &[u128], place: u32, demand: DemandId) -> u128
        requires place { place < length prices.now }
        requires small { slice_index prices.now place + greatest_of (on_place self.now place) < 2 ^ 128 }
        ensures { result ≡ own_price prices.now self.now demand.0 place }
    {
        prices[place as usize] + self.on(place, demand)
    }
}
