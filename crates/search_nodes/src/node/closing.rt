//! Whether what is recorded of a node closes it, and nodes that are closed.

ghost use Rattle.std.specs.Prelude.{◌≡◌, pos, int_lt, ◌+ℤ◌, if◌then◌else◌, length, is_some};
ghost use Rattle.proof_tree.specs.declared.tree.Evidence.TheVariants as evidence;
ghost use Rattle.branch_tree.specs.declared.node.Fate.TheVariants.{Undone};
ghost use Rattle.search_machine.specs.Closing.{reaches, is_closable, closed_by};
ghost use Rattle.search_nodes.specs.Rounds.{HasReason, evidence_for, cut_proof};

use super::PoolNode;
use crate::reason::Reason;
use crate::round::PoolRound;
use plan_base::Prices;
use proof_tree::Evidence;
use search_machine::{Fate, HeldCut};

impl PoolNode {
    /// Whether it has a crowd proof.
    fn has_crowd(&self) -> bool
        ensures { result ≡ is_some self.now.crowd }
    {
        self.is_crowd && self.crowd_prices.is_some()
    }

    /// Whether its recorded bound is above the cost less the unit of costs, all in cost grains.
    fn reaches(&self, unit: u128, cost: Option<u128>) -> bool
        ensures { result ≡ reaches unit self.now.best cost }
    {
        match (self.best_bound, cost) {
            (Some(bound), Some(cost)) => is_reached(unit, cost, bound),
            _ => false,
        }
    }

    /// Whether it has a crowd proof, or its recorded bound is above the cost less the unit of costs, all in cost grains.
    pub fn is_closable(&self, unit: u128, cost: Option<u128>) -> bool
        ensures { result ≡ is_closable unit cost self.now }
    {
        self.has_crowd() || self.reaches(unit, cost)
    }

    /// Closes an open leaf for the reason, and hands out its round. Takes no memory.
    pub fn close(&mut self, reason: Reason) -> Option<PoolRound>
        requires undone { self.old.fate ≡ Undone }
        requires reason { HasReason self.old reason }
        ensures node { self.new ≡ closed_by (evidence_for self.old reason) self.old }
        ensures round { result ≡ self.old.round }
    {
        let evidence = match reason {
            Reason::Recorded => {
                let Some(room) = self.crowd_prices.take() else {
                    return None;
                };
                recorded(room, self.is_crowd, &self.best_prices)
            }
            Reason::HeldCut => held_cut(self.cut.take()),
            Reason::Shown(evidence) => evidence,
        };
        self.fate = Fate::ClosedBy(evidence);
        self.cut = None;
        self.is_crowd = false;
        self.round.take()
    }
}

/// Whether the bound is above the cost less the unit.
fn is_reached(unit: u128, cost: u128, bound: i128) -> bool
    ensures { result ≡ int_lt (pos cost) (bound +ℤ pos unit) }
{
    if bound >= 0 {
        return cost < unit || cost - unit < bound.unsigned_abs();
    }
    cost < unit && bound.unsigned_abs() < unit - cost
}

/// The crowd proof that is in the room, or else the bound at the best prices, which are put there.
fn recorded(mut room: Prices, is_crowd: bool, best: &Prices) -> Evidence
    requires { length best.now ≡ length room }
    ensures { result ≡ (if is_crowd then evidence.Crowd room else evidence.Bound best.now) }
{
    if is_crowd {
        return Evidence::Crowd(room);
    }
    room.set_to(best);
    Evidence::Bound(room)
}

/// The evidence of a cut.
fn held_cut(cut: Option<HeldCut>) -> Evidence
    ensures { result ≡ cut_proof cut }
{
    match cut {
        Some(cut) => Evidence::Cut {
            demand: cut.demand,
            reached: cut.reached,
        },
        None => Evidence::Routed,
    }
}
