//! A worker at a hub.

ghost use Rattle.std.specs.Prelude.{◌≡◌, true, OnOk};
ghost use Rattle.search_machine.specs.PlanOf.{is_done};
ghost use Rattle.pool_hub.specs.States.{HasState};

use crate::hub::Hub;
use crate::naming::Naming;
use crate::seat::Seat;
use plan_io::Gate;
use std::alloc::{AllocError, Global};
use std::sync::Wait;

/// Does tasks until none is left: until the budget of the search is spent or no leaf is open.
///
/// - Takes: a hub, a seat of it, and a gate, which is passed between the taking of a task and its work.
/// - Gives: Ok where the last task was `Done`. Its clause says that some state of this search has nothing left to do, and not
///   that the hub's pool is in it.
/// - Errors: want of memory alone. Then the seat is as the calls made so far left it.
pub fn work<N: Naming, R: Wait + Drop, W: Wait, G: Gate>(
    rt: &W,
    alloc: Global,
    hub: &Hub<N, R>,
    seat: &mut Seat<N>,
    gate: &G,
) -> Result<(), AllocError>
    ensures done { OnOk result (HasState N.problem N.cuts N.budget (λ s. is_done s ≡ true)) }
    ensures number { seat.new.number ≡ seat.old.number }
{
    search_worker::work::<N, Hub<N, R>, W, G>(rt, alloc, hub, seat, gate)
}
