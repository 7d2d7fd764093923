//! A worker at a hub whose calls stand in one history.

ghost use Rattle.std.specs.Prelude.{◌≡◌, OnOk};
ghost use Rattle.block_deques.specs.Decks.{IsSameDeck};
ghost use Rattle.ticket_turns.specs.Passes.{view_of};
ghost use Rattle.linear_hub.specs.Works.{HasWorkedOn, HasEndedWell};

use crate::hub::{LinearHub, LinearSeat};
use crate::naming::Naming;
use block_deques::Deck;
use plan_io::Gate;
use std::alloc::{AllocError, Global};
use std::sync::Wait;

/// Does tasks until none is left, or the seat may make no further call. Other seats' versions are priced by what the board
/// shows alone: a task whose version the seat does not see there is dropped.
///
/// - Takes: a hub, a seat of it, and a gate, which is passed between the taking of a task and its work.
/// - Errors: want of memory alone. Then the seat is as the calls made so far left it.
pub fn work_linear<N: Naming, R: Wait + Drop, T: Wait, G: Gate>(
    rt: &T,
    alloc: Global,
    hub: &LinearHub<N, R>,
    seat: &mut LinearSeat<N, R>,
    gate: &G,
) -> Result<(), AllocError>
    requires hub { seat.old.pass.table_id ≡ hub.now.turns.table.shared.table_id }
    ensures worked { HasWorkedOn seat.old.pass seat.new.pass }
    ensures done { OnOk result (HasEndedWell seat.new.calls (view_of seat.new.pass)) }
{
    search_worker::work::<N, LinearHub<N, R>, T, G>(rt, alloc, hub, seat, gate)
}

/// Does what `work_linear` does, and lets other workers steal the demands of the versions that this one opened or published,
/// as `search_worker::work_blocks` says.
///
/// - Takes: besides, a deck of one making with those of the other workers. The gate is passed once for each block or task.
/// - Errors: want of memory alone. Then seat and deck are as the calls made so far left them.
pub fn work_blocks<N: Naming, R: Wait + Drop, T: Wait, G: Gate>(
    rt: &T,
    alloc: Global,
    hub: &LinearHub<N, R>,
    seat: &mut LinearSeat<N, R>,
    deck: &mut Deck,
    gate: &G,
) -> Result<(), AllocError>
    requires hub { seat.old.pass.table_id ≡ hub.now.turns.table.shared.table_id }
    ensures worked { HasWorkedOn seat.old.pass seat.new.pass }
    ensures done { OnOk result (HasEndedWell seat.new.calls (view_of seat.new.pass)) }
    ensures deck { IsSameDeck deck.old deck.new }
{
    search_worker::work_blocks::<N, LinearHub<N, R>, T, G>(rt, alloc, hub, seat, deck, gate)
}
