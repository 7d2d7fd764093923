//! A round: the lengths of the demands under one version of prices and rates, as they come in.

ghost use Rattle.plan_base.specs.Places.{places};
ghost use Rattle.std.specs.Prelude.{◌≡◌, ◌<◌, ◌≤◌, ◌↔◌, ◌^◌, length, replicate, false, None, IfOk, IfSome, IsTrue, IsFalse};
ghost use Rattle.link_steps.specs.Ranges.{AreRanges};
ghost use Rattle.cut_values.specs.Numbers.{AreNumbers};
ghost use Rattle.bound_assembly.specs.Rounds.{HasLength, left_in, IsFirstLeft, restarted, with_length};
ghost use Rattle.bound_assembly.specs.RoundBounds.{AreShort, IsRoundBound, IsRoundCrowd};
ghost use Rattle.bound_assembly.specs.Places.{AreFullBefore, IsNextLeft};

use crate::crowds::is_crowded;
use crate::totals::bound_of;
use cut_values::CutTable;
use link_steps::Ranges;
use plan_base::{BranchId, DemandId, Instance, Prices};
use std::alloc::{AllocError, Global};
use std::marker::Model;

/// The lengths of the demands of one search node under one version of its prices and rates, as they come in.
///
/// Contracts see it as what it holds. It has room for as many lengths and numbers as `new` was given, and is begun anew
/// by `restart`.
#[derive(Debug, Drop)]
pub struct Round {
    begun: bool,
    node: BranchId,
    version: u64,
    prices: Prices,
    lengths: Vec<Option<u128>>,
    /// How many demands have no length.
    left: u32,
    /// The lowest demand without a length, or the count of demands where there is none.
    first: u32,
}

impl Model for Round {
    ghost use Rattle.bound_assembly.specs.Rounds.{RoundState};
    ghost use Rattle.bound_assembly.specs.Places.{AreKept};

    ghost Value = { RoundState };

    ghost view = { λ a. record { begun = a.begun; node = a.node; version = a.version; prices = a.prices; lengths = a.lengths.items } };

    ghost invariant = { λ a. AreKept a.lengths.items a.left a.first };
}

/// The first place from this one on without a length, or the count of places.
fn next_left(lengths: &[Option<u128>], start: u32) -> u32
    requires few { length lengths.now < 2 ^ 32 }
    requires full { AreFullBefore lengths.now start }
    ensures { IsNextLeft lengths.now result }
{
    let mut place = start;
    while (place as usize) < lengths.len() {
        if lengths[place as usize].is_none() {
            return place;
        }
        place += 1;
    }
    place
}

impl Round {
    /// Room for a round that has not begun.
    ///
    /// - Takes: where memory comes from; how many lengths there is room for, and how many prices and rates together.
    /// - Errors: want of memory alone.
    /// - Rule: docs/METHOD.md, "Rounds".
    pub fn new(alloc: Global, demands: u32, prices: u32) -> Result<Round, AllocError>
        ensures begun { IfOk result (λ round. round.begun ≡ false) }
        ensures prices { IfOk result (λ round. length round.prices ≡ prices) }
        ensures lengths { IfOk result (λ round. round.lengths ≡ replicate demands None) }
    {
        Ok(Round {
            begun: false,
            node: BranchId(0),
            version: 0,
            prices: Prices::from_vec(vec![in alloc; 0; prices as usize]?),
            lengths: vec![in alloc; None; demands as usize]?,
            left: demands,
            first: 0,
        })
    }

    /// Begins the round anew: at these prices and rates, with no length. Takes no memory.
    ///
    /// - Takes: the search node and the version that the numbers are of; as many numbers as `new` was given.
    /// - Rule: docs/METHOD.md, "Rounds".
    /// - Time: linear in the demands and the numbers.
    pub fn restart(&mut self, node: BranchId, version: u64, prices: &Prices)
        requires { length prices.now ≡ length self.old.prices }
        ensures { self.new ≡ restarted self.old node version prices.now }
    {
        self.begun = true;
        self.node = node;
        self.version = version;
        self.prices.set_to(prices);
        self.lengths.fill(None);
        self.left = self.lengths.len() as u32;
        self.first = 0;
    }

    /// The search node of the last `restart`.
    pub fn node(&self) -> BranchId
        requires { IsTrue self.now.begun }
        ensures { result ≡ self.now.node }
    {
        self.node
    }

    /// The version of the last `restart`.
    pub fn version(&self) -> u64
        requires { IsTrue self.now.begun }
        ensures { result ≡ self.now.version }
    {
        self.version
    }

    /// The prices and rates of the last `restart`, in thousandths of a cost grain per load grain or counted grain.
    pub fn prices(&self) -> &Prices
        requires { IsTrue self.now.begun }
        ensures { result.now ≡ self.now.prices }
    {
        &self.prices
    }

    /// Puts the length of a demand. Takes no memory.
    ///
    /// - Takes: a demand that there is room for; the price of its path, in thousandths of a cost grain per load grain.
    /// - Gives: false exactly where the demand has a length already; then nothing changes.
    /// - Rule: docs/METHOD.md, "Rounds".
    /// - Time: constant, but for a step of the place of `first_left` over each demand, once a round.
    pub fn put(&mut self, demand: DemandId, price: u128) -> bool
        requires begun { IsTrue self.old.begun }
        requires demand { demand.0 < length self.old.lengths }
        ensures known { IsFalse result ↔ HasLength self.old.lengths demand.0 }
        ensures unchanged { IsFalse result → self.new ≡ self.old }
        ensures put { IsTrue result → self.new ≡ with_length self.old demand.0 price }
    {
        let place = demand.0 as usize;
        if self.lengths[place].is_some() {
            return false;
        }
        self.lengths[place] = Some(price);
        self.left -= 1;
        self.first = next_left(&self.lengths, self.first);
        true
    }

    /// How many demands have no length.
    ///
    /// - Rule: docs/METHOD.md, "Rounds".
    /// - Time: constant.
    pub fn left(&self) -> u32
        ensures { result ≡ left_in self.now.lengths }
    {
        self.left
    }

    /// The lowest demand without a length; None exactly where there is none.
    ///
    /// - Rule: docs/METHOD.md, "Rounds".
    /// - Time: constant.
    pub fn first_left(&self) -> Option<DemandId>
        ensures first { IfSome result (λ demand. IsFirstLeft self.now.lengths demand.0) }
        ensures none { (result ≡ None) ↔ (left_in self.now.lengths ≡ 0) }
    {
        if self.left > 0 {
            Some(DemandId(self.first))
        } else {
            None
        }
    }

    /// The bound that the round's prices, rates and lengths give over ranges. Takes no memory.
    ///
    /// - Takes: the instance, its table with a list of cuts, and its ranges; the round has begun, its prices and rates are as
    ///   they have to be, and there is room for one length for each demand, none of them above what a simple path costs with
    ///   the price limit on each link.
    /// - Gives: cost grains; None exactly where a demand has no length.
    /// - Rule: docs/METHOD.md, "Bound of a round".
    /// - Time: linear in the demands and the cuts, and the time of one link value for each link.
    pub fn bound(&self, inst: &Instance, table: &CutTable, ranges: &Ranges) -> Option<i128>
        requires begun { IsTrue self.now.begun }
        requires table { table.now.problem ≡ inst.now }
        requires ranges { AreRanges inst.now ranges.now }
        requires numbers { AreNumbers inst.now table.now.cuts self.now.prices }
        requires length_count { length self.now.lengths ≡ length inst.now.demands }
        requires short { AreShort inst.now self.now.lengths }
        ensures none { (result ≡ None) ↔ (0 < left_in self.now.lengths) }
        ensures bound { IfSome result (IsRoundBound inst.now table.now.cuts ranges.now self.now.prices self.now.lengths) }
    {
        if self.left > 0 {
            return None;
        }
        Some(bound_of(inst, table, ranges, &self.prices, &self.lengths))
    }

    /// Whether the round shows that places carry too little over ranges: each demand has a length, links with useful
    /// modules are free where their ranges end at the top load, and loads times lengths exceed prices times what the places
    /// carry at most. Takes no memory.
    ///
    /// - Takes: the instance and its ranges; the round has begun, with a price for each place, and there is room for one
    ///   length for each demand, none of them above what a simple path costs with the price limit on each link. What stands
    ///   behind the prices is not looked at.
    /// - Rule: docs/DEFINITIONS.md, "Evidence of a leaf".
    /// - Time: linear in the demands, the places and their links' modules.
    #[tactic(auto, using(crate::proofs::LeastLengths::crowd_full))]
    pub fn is_crowded(&self, inst: &Instance, ranges: &Ranges) -> bool
        requires begun { IsTrue self.now.begun }
        requires range_count { length ranges.now ≡ places inst.now }
        requires price_count { places inst.now ≤ length self.now.prices }
        requires length_count { length self.now.lengths ≡ length inst.now.demands }
        requires short { AreShort inst.now self.now.lengths }
        ensures { IsTrue result ↔ IsRoundCrowd inst.now ranges.now self.now.prices self.now.lengths }
    {
        self.left() == 0 && is_crowded(inst, ranges, &self.prices, &self.lengths)
    }
}
