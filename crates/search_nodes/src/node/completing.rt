//! What is found for a demand, and versions that become complete.

ghost use Rattle.std.specs.Prelude.{◌≡◌, None, Some, length, slice_get, IfSome, IsSomeAnd};
ghost use Rattle.path_pricing.specs.Priced.{IsLeastPath};
ghost use Rattle.search_machine.specs.State.{left_of, restriction_of, ranges_of};
ghost use Rattle.search_machine.specs.Nodes.{IsSoundNode};
ghost use Rattle.search_machine.specs.Offering.{with_found};
ghost use Rattle.search_machine.specs.Changes.{better_of, TakesRound};
ghost use Rattle.search_nodes.specs.Rounds.{best_in, is_below, MayComplete};

use super::PoolNode;
use cut_values::CutTable;
use link_steps::Ranges;
use plan_base::{DemandId, Instance, Prices};
use search_machine::Found;

impl PoolNode {
    /// Keeps what was found for a demand in the node's round. Where that prices the last demand, the version is
    /// complete. Takes no memory.
    ///
    /// - Gives: how many demands are left.
    pub fn put(
        &mut self,
        demand: DemandId,
        found: Found,
        inst: &Instance,
        table: &CutTable,
        ranges: &Ranges,
    ) -> u32
        requires table { table.now.problem ≡ inst.now }
        requires ranges { ranges.now ≡ ranges_of inst.now self.old }
        requires sound { IsSoundNode inst.now table.now.cuts self.old }
        requires round { IsSomeAnd self.old.round (λ round. (slice_get round.found demand.0 ≡ Some None)
            × IsLeastPath inst.now round.prices demand.0 (restriction_of self.old) found.path found.price) }
        ensures left { IfSome self.old.round (λ round. result ≡ left_of (with_found round demand.0 found)) }
        ensures takes { IfSome self.old.round (λ round. TakesRound inst.now table.now.cuts self.old (with_found round demand.0 found) self.new) }
    {
        let left = self.add(demand, found);
        self.complete(inst, table, ranges);
        left
    }

    /// Where the node's round has priced each demand, the version is complete: its bound is recorded, with its prices
    /// where it is the greatest so far, and its crowd proof where it is one. Takes no memory.
    pub fn complete(&mut self, inst: &Instance, table: &CutTable, ranges: &Ranges)
        requires table { table.now.problem ≡ inst.now }
        requires ranges { ranges.now ≡ ranges_of inst.now self.old }
        requires ready { MayComplete inst.now table.now.cuts self.old }
        ensures { IfSome self.old.round (λ round. TakesRound inst.now table.now.cuts self.old round self.new) }
    {
        inst.lawful();
        let Some(round) = &self.round else {
            return;
        };
        let Some(bound) = round.bound(inst, table, ranges) else {
            return;
        };
        keep_better(
            &mut self.best_bound,
            &mut self.best_prices,
            bound,
            round.prices(),
        );
        if round.is_crowded(inst, ranges) {
            fill(&mut self.crowd_prices, round.prices());
            self.is_crowd = true;
        }
        self.completed += 1;
    }

    /// Keeps what was found for a demand in the node's round, and tells how many demands are left.
    fn add(&mut self, demand: DemandId, found: Found) -> u32
        requires { IsSomeAnd self.old.round (λ round. slice_get round.found demand.0 ≡ Some None) }
        ensures left { IfSome self.old.round (λ round. result ≡ left_of (with_found round demand.0 found)) }
        ensures node { IfSome self.old.round (λ round. self.new ≡ record self.old { round = Some (with_found round demand.0 found) }) }
    {
        match &mut self.round {
            Some(round) => {
                round.put(demand, found);
                round.left()
            }
            None => 0,
        }
    }
}

/// Whether no bound is recorded, or it is less than this one.
fn is_below(best: Option<i128>, bound: i128) -> bool
    ensures { result ≡ is_below best bound }
{
    match best {
        Some(held) => held < bound,
        None => true,
    }
}

/// Records a bound with its prices, where it is greater than the recorded one.
#[tactic(auto, using(crate::proofs::Completing::better_bounds))]
fn keep_better(best: &mut Option<i128>, room: &mut Prices, bound: i128, prices: &Prices)
    requires { length prices.now ≡ length room.old }
    ensures best { best_in best.new room.new ≡ Some (better_of (best_in best.old room.old) bound prices.now) }
    ensures room { length room.new ≡ length room.old }
{
    if is_below(*best, bound) {
        *best = Some(bound);
        room.set_to(prices);
    }
}

/// Puts prices into the room for them.
fn fill(room: &mut Option<Prices>, prices: &Prices)
    requires { IsSomeAnd room.old (λ held. length prices.now ≡ length held) }
    ensures { room.new ≡ Some prices.now }
{
    if let Some(held) = room {
        held.set_to(prices);
    }
}
