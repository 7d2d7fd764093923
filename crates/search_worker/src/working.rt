//! What a worker does until nothing is left: tasks alone, or blocks of demands and tasks.

ghost use Rattle.std.specs.Prelude.{◌≡◌, true, OnOk, IfOk, IfNone};
ghost use Rattle.block_deques.specs.Decks.{IsSameDeck};

use crate::bench::Bench;
use crate::blocks::{drop_blocks, next_block, price_block, put_blocks};
use crate::office::Office;
use crate::search::Search;
use crate::tasks::{Left, do_task, seek_design};
use block_deques::{Block, Deck};
use plan_io::Gate;
use search_machine::Task;
use std::alloc::{AllocError, Global};
use std::sync::Wait;

/// Takes a task and does it, but for the search for a design that may follow. None where no task is left.
fn take_task<N: Search, H: Office<N>, T: Wait, G: Gate>(
    rt: &T,
    alloc: Global,
    hub: &H,
    seat: &mut H::Seat,
    bench: &mut Bench<N>,
    gate: &G,
    number: u32,
    turn: u64,
) -> Result<Option<Left<N>>, AllocError>
    requires of { H.of hub.now seat.old }
    requires free { H.free seat.old }
    ensures of { H.of hub.now seat.new }
    ensures keeps { H.keeps seat.old seat.new }
    ensures done { IfOk result (λ left. IfNone left (H.ended hub.now seat.new)) }
{
    let (task, standing) = hub.standing_task(rt, seat, gate.asks());
    if let Task::Done = task {
        return Ok(None);
    }
    gate.pass(number, turn);
    gate.stand(standing);
    let left = do_task(rt, alloc, hub, seat, bench, task)?;
    Ok(Some(left))
}

/// Takes a task and does all of it.
///
/// - Gives: whether no task is left.
fn do_next<N: Search, H: Office<N>, T: Wait, G: Gate>(
    rt: &T,
    alloc: Global,
    hub: &H,
    seat: &mut H::Seat,
    bench: &mut Bench<N>,
    gate: &G,
    number: u32,
    turn: u64,
) -> Result<bool, AllocError>
    requires of { H.of hub.now seat.old }
    requires free { H.free seat.old }
    ensures of { H.of hub.now seat.new }
    ensures keeps { H.keeps seat.old seat.new }
    ensures done { IfOk result (λ done. done ≡ true → H.ended hub.now seat.new) }
{
    let Some(left) = take_task(rt, alloc, hub, seat, bench, gate, number, turn)? else {
        return Ok(true);
    };
    let _taken = seek_design(rt, alloc, hub, seat, bench, &left.told)?;
    Ok(false)
}

/// Does tasks on a bench until none is left.
fn do_tasks<N: Search, H: Office<N>, T: Wait, G: Gate>(
    rt: &T,
    alloc: Global,
    hub: &H,
    seat: &mut H::Seat,
    bench: &mut Bench<N>,
    gate: &G,
) -> Result<(), AllocError>
    requires of { H.of hub.now seat.old }
    ensures of { H.of hub.now seat.new }
    ensures keeps { H.keeps seat.old seat.new }
    ensures done { OnOk result (H.ended hub.now seat.new) }
{
    let (number, _workers) = hub.place(seat);
    let mut turn: u64 = 0;
    for _ in rt.forever() {
        let Ok(()) = hub.may_call(seat) else {
            return Ok(());
        };
        if do_next(rt, alloc, hub, seat, bench, gate, number, turn)? {
            return Ok(());
        }
        turn = turn.saturating_add(1);
    }
    unreachable!()
}

/// Does tasks until none is left: until the budget of the search is spent or no leaf is open.
///
/// - Takes: a hub, a seat of it, and a gate, which is passed between the taking of a task and its work.
/// - Errors: want of memory alone. Then the seat is as the calls made so far left it.
pub fn work<N: Search, H: Office<N>, T: Wait, G: Gate>(
    rt: &T,
    alloc: Global,
    hub: &H,
    seat: &mut H::Seat,
    gate: &G,
) -> Result<(), AllocError>
    requires of { H.of hub.now seat.old }
    ensures of { H.of hub.now seat.new }
    ensures keeps { H.keeps seat.old seat.new }
    ensures done { OnOk result (H.ended hub.now seat.new) }
{
    let (number, workers) = hub.place(seat);
    let mut bench = Bench::new(alloc, number, workers);
    do_tasks(rt, alloc, hub, seat, &mut bench, gate)
}

/// Prices a block. Where its version is over, the blocks that are left on the worker's own deck are of the same version, and
/// are dropped.
fn do_block<N: Search, H: Office<N>, T: Wait>(
    rt: &T,
    hub: &H,
    seat: &mut H::Seat,
    deck: &mut Deck,
    bench: &mut Bench<N>,
    block: Block,
) -> Result<(), AllocError>
    requires of { H.of hub.now seat.old }
    ensures of { H.of hub.now seat.new }
    ensures keeps { H.keeps seat.old seat.new }
    ensures deck { IsSameDeck deck.old deck.new }
{
    if price_block(rt, hub, seat, bench, block)? {
        drop_blocks(deck);
    }
    Ok(())
}

/// Does what a task leaves: puts the demands of a version on the deck, and searches for a design. A design that is taken may
/// close the node, so whatever is then left on the deck is dropped: tasks give the demands that are still to be priced.
fn do_rest<N: Search, H: Office<N>, T: Wait>(
    rt: &T,
    alloc: Global,
    hub: &H,
    seat: &mut H::Seat,
    deck: &mut Deck,
    bench: &mut Bench<N>,
    left: &Left<N>,
) -> Result<(), AllocError>
    requires of { H.of hub.now seat.old }
    ensures of { H.of hub.now seat.new }
    ensures keeps { H.keeps seat.old seat.new }
    ensures deck { IsSameDeck deck.old deck.new }
{
    if let Some(shown) = left.shown {
        put_blocks(deck, hub.instance().demands(), shown);
    }
    if seek_design(rt, alloc, hub, seat, bench, &left.told)? {
        drop_blocks(deck);
    }
    Ok(())
}

/// One turn of a worker that has a deck: it takes a block, or else a task.
///
/// - Gives: whether nothing is left to do.
fn take_turn<N: Search, H: Office<N>, T: Wait, G: Gate>(
    rt: &T,
    alloc: Global,
    hub: &H,
    seat: &mut H::Seat,
    deck: &mut Deck,
    bench: &mut Bench<N>,
    gate: &G,
    number: u32,
    turn: u64,
) -> Result<bool, AllocError>
    requires of { H.of hub.now seat.old }
    requires free { H.free seat.old }
    ensures of { H.of hub.now seat.new }
    ensures keeps { H.keeps seat.old seat.new }
    ensures done { IfOk result (λ done. done ≡ true → H.ended hub.now seat.new) }
    ensures deck { IsSameDeck deck.old deck.new }
{
    if let Some(block) = next_block(rt, deck) {
        gate.pass(number, turn);
        do_block(rt, hub, seat, deck, bench, block)?;
        return Ok(false);
    }
    let Some(left) = take_task(rt, alloc, hub, seat, bench, gate, number, turn)? else {
        return Ok(true);
    };
    do_rest(rt, alloc, hub, seat, deck, bench, &left)?;
    Ok(false)
}

/// Does blocks and tasks on a bench until no task is left.
fn do_blocks<N: Search, H: Office<N>, T: Wait, G: Gate>(
    rt: &T,
    alloc: Global,
    hub: &H,
    seat: &mut H::Seat,
    deck: &mut Deck,
    bench: &mut Bench<N>,
    gate: &G,
) -> Result<(), AllocError>
    requires of { H.of hub.now seat.old }
    ensures of { H.of hub.now seat.new }
    ensures keeps { H.keeps seat.old seat.new }
    ensures done { OnOk result (H.ended hub.now seat.new) }
    ensures deck { IsSameDeck deck.old deck.new }
{
    let (number, _workers) = hub.place(seat);
    let mut turn: u64 = 0;
    for _ in rt.forever() {
        let Ok(()) = hub.may_call(seat) else {
            return Ok(());
        };
        if take_turn(rt, alloc, hub, seat, deck, bench, gate, number, turn)? {
            return Ok(());
        }
        turn = turn.saturating_add(1);
    }
    unreachable!()
}

/// Does what `work` does, and lets other workers steal the demands of a version that this one opened or published: they go
/// onto its deck in blocks. Each turn takes a block of its own, else one of another deck, in the order of their numbers,
/// else a task. Blocks of a version that is over are dropped, and so is one for which memory is wanting on a deck: tasks give
/// its demands.
///
/// - Takes: besides, a deck of one making with those of the other workers. The gate is passed once for each block or task.
/// - Errors: want of memory alone. Then seat and deck are as the calls made so far left them.
pub fn work_blocks<N: Search, H: Office<N>, T: Wait, G: Gate>(
    rt: &T,
    alloc: Global,
    hub: &H,
    seat: &mut H::Seat,
    deck: &mut Deck,
    gate: &G,
) -> Result<(), AllocError>
    requires of { H.of hub.now seat.old }
    ensures of { H.of hub.now seat.new }
    ensures keeps { H.keeps seat.old seat.new }
    ensures done { OnOk result (H.ended hub.now seat.new) }
    ensures deck { IsSameDeck deck.old deck.new }
{
    let (number, workers) = hub.place(seat);
    let mut bench = Bench::new(alloc, number, workers);
    do_blocks(rt, alloc, hub, seat, deck, &mut bench, gate)
}
