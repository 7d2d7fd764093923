//! The pool: each call is one event of the machine.

ghost use Rattle.std.specs.Prelude.{◌≡◌};

mod advancing;
mod closing;
mod dividing;
mod examining;
pub mod following;
mod foretelling;
mod gathering;
mod making;
mod offering;
mod opening;
mod planning;
mod publishing;
mod reading;
mod running;
mod settling;
mod tasks;
mod valuing;

use leaf_tasks::KnownAbove;
use master_step::Room;
use search_nodes::{SearchState, Slot};
use search_view::{Claims, OpenLeaves, PoolView};
use std::marker::Model;

/// The state of the search, and what its calls work with.
///
/// Contracts see it as the state of the machine.
#[derive(Drop)]
pub struct Pool {
    state: SearchState,
    /// Where steps are tried; no part of the state.
    room: Room,
    /// The slots of rounds, 64.
    places: Vec<Slot>,
    /// What each worker was given last; no part of the state.
    claims: Claims,
    /// Which nodes are open leaves; no part of the state.
    leaves: OpenLeaves,
    /// What is known above nodes that wait, so that their bounds are found sooner.
    known: KnownAbove,
}

impl Model for Pool {
    ghost use Rattle.std.specs.Arc.{arc_value};
    ghost use Rattle.search_machine.specs.State.{State};
    ghost use Rattle.search_nodes.specs.SearchStates.{machine_state};
    ghost use Rattle.search_view.specs.Views.{IsFittedPool};

    ghost Value = { State };

    ghost view = { λ a. machine_state a.state };

    ghost invariant = { λ a. IsFittedPool (machine_state a.state) (arc_value a.state.table) a.room a.state.grounds.items a.places.items };
}

impl Pool {
    /// How many nodes are examined: splits and closed leaves. At most the budget.
    pub fn examined(&self) -> u32
        ensures { result ≡ self.now.examined }
    {
        self.state.examined
    }

    /// The pool as one that is only read. Takes no memory, and no time to speak of.
    fn view(&self) -> PoolView<'_>
        ensures { result ≡ self.now }
    {
        PoolView {
            state: &self.state,
            places: self.places.as_slice(),
            claims: &self.claims,
            leaves: &self.leaves,
        }
    }
}
