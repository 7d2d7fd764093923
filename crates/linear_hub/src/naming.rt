//! Which search a hub is of, and what its histories mean.

ghost use Rattle.std.specs.Prelude.{ℕ};
ghost use Rattle.plan_base.specs.declared.ids.BranchId.{BranchId};
ghost use Rattle.plan_base.specs.declared.path.Design.{Design};
ghost use Rattle.search_machine.specs.declared.answers.Offer.{Offer};
ghost use Rattle.search_machine.specs.State.{State};
ghost use Rattle.linear_hub.specs.Calls.{Call, no_call, no_design, no_offer, no_state};
ghost use Rattle.linear_hub.specs.Histories.{Leads};

use pool_core::Pool;
use pool_desk::Desk;
use search_worker::Search;
use std::marker::{Brand, Model, PhantomData};
use std::sync::Wait;
use ticket_turns::{Meaning, Said};

/// A search, and the state in which its pool began.
pub trait Naming: Search {
    /// The state of the pool that was handed in.
    ghost opening: { State };
}

impl Naming for Brand {
    ghost opening = { no_state };
}

/// A call with its answer, as contracts see it. No value of it is made.
pub struct Spoken {
    nothing: PhantomData<Pool>,
}

impl Model for Spoken {
    ghost Value = { Call };

    ghost view = { λ _. no_call };
}

impl Said<Spoken> for Brand {
    ghost call = { no_call };
}

/// Where the histories of a search lead: to desks whose pool has the state.
pub struct Of<N> {
    of: PhantomData<N>,
}

impl<N: Naming, R: Wait + Drop> Meaning<Desk<N, R>, Spoken> for Of<N> {
    ghost leads = { λ history desk. Leads N.opening history desk.pool };
}

/// An offer that is handed in, for the proof alone.
pub(crate) trait Offers {
    ghost offer: { Offer };
}

impl Offers for Brand {
    ghost offer = { no_offer };
}

/// A design that is handed in, for the proof alone.
pub(crate) trait Designs {
    ghost design: { Design };
}

impl Designs for Brand {
    ghost design = { no_design };
}

/// A node and a version of it, for the proof alone.
pub(crate) trait Versions {
    ghost node: { BranchId };

    ghost seen: { ℕ };
}

impl Versions for Brand {
    ghost node = { record { 0 = 0 } };

    ghost seen = { 0 };
}
