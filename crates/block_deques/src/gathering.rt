//! What is left on the decks, once all of them have come back.

ghost use Rattle.std.specs.Prelude.{ℕ, ◌≡◌, ◌+◌, ◌++◌, length, map, IfOk, OnOk};
ghost use Rattle.crossbeam_deque.specs.Handles.{worker_view};
ghost use Rattle.block_deques.specs.declared.block.Block.{Block as AnyBlock};
ghost use Rattle.block_deques.specs.Hands.{weigh};
ghost use Rattle.block_deques.specs.Wholes.{AreOneMaking, AreAllDecks, all_put, all_taken, HaveSame, IsEachOnce};
ghost use Rattle.block_deques.specs.Gathers.{known, known_to, known_in_row, known_in_all, put_on, worker_of, reaches_of, AreRuling, IsRowOn, AreRowsOn, HaveGained, HasAllParts, AreWhole};

use crate::block::Block;
use crate::deck::Deck;
use crate::plays::{Drain, Together};
use crate::reach::{Owner, Reach};
use std::alloc::{AllocError, Global};

/// The deques of the decks, and what each deck knows of all deques.
fn take_apart(alloc: Global, decks: Vec<Deck>) -> Result<(Vec<Owner>, Vec<Vec<Reach>>), AllocError>
    ensures { IfOk result (λ parts. (parts.0.items ≡ map worker_of decks.items) × (parts.1.items ≡ map reaches_of decks.items)) }
{
    let mut owners = Vec::new(alloc);
    let mut rows = Vec::new(alloc);
    for deck in decks {
        let Deck {
            number: _,
            puts: _,
            worker,
            reaches,
        } = deck;
        let Ok(()) = owners.push(worker) else {
            return Err(AllocError);
        };
        let Ok(()) = rows.push(reaches) else {
            return Err(AllocError);
        };
    }
    Ok((owners, rows))
}

/// The passes of a row come back to the deques.
fn absorb_row(owners: &mut Vec<Owner>, mut row: Vec<Reach>)
    requires row { IsRowOn owners.old.items row.items }
    requires ruling { AreRuling owners.old.items }
    ensures count { length owners.new.items ≡ length owners.old.items }
    ensures gained { HaveGained 1 owners.old.items owners.new.items }
    ensures known { (h : AnyBlock → ℕ) → known_to h owners.new.items ≡ known_to h owners.old.items + known_in_row h row.items }
{
    while let Some(reach) = row.pop() {
        let place = row.len();
        let Reach { stealer: _, pass } = reach;
        owners[place].absorb::<Together>(pass);
    }
}

/// The passes of all rows come back to the deques.
fn absorb_rows(mut owners: Vec<Owner>, mut rows: Vec<Vec<Reach>>) -> Vec<Owner>
    requires rows { AreRowsOn owners.items rows.items }
    requires ruling { AreRuling owners.items }
    ensures count { length result.items ≡ length owners.items }
    ensures gained { HaveGained (length rows.items) owners.items result.items }
    ensures known { (h : AnyBlock → ℕ) → known_to h result.items ≡ known_to h owners.items + known_in_all h rows.items }
{
    while let Some(row) = rows.pop() {
        absorb_row(&mut owners, row);
    }
    owners
}

/// Adds the blocks that are left on a deque.
fn drain(mut owner: Owner, left: &mut Vec<Block>) -> Result<(), AllocError>
    requires { HasAllParts owner }
    ensures { OnOk result ((h : AnyBlock → ℕ) → weigh h left.new.items + known h (worker_view owner) ≡ weigh h left.old.items + weigh h (worker_view owner).put) }
{
    while let Some(block) = owner.pop_as::<Drain>() {
        left.push(block)?;
    }
    Ok(())
}

/// The blocks that are left on the deques.
fn drain_all(alloc: Global, mut owners: Vec<Owner>) -> Result<Vec<Block>, AllocError>
    requires { AreWhole owners.items }
    ensures { IfOk result (λ left. (h : AnyBlock → ℕ) → weigh h left.items + known_to h owners.items ≡ put_on h owners.items) }
{
    let mut left = Vec::new(alloc);
    while let Some(owner) = owners.pop() {
        drain(owner, &mut left)?;
    }
    Ok(left)
}

/// The blocks that are left on all decks of one making, which stand in the order of their numbers.
fn gather_in_order(alloc: Global, decks: Vec<Deck>) -> Result<Vec<Block>, AllocError>
    requires { AreOneMaking decks.items }
    ensures whole { IfOk result (λ left. HaveSame (all_put decks.items) (all_taken decks.items ++ left.items)) }
    ensures once { IsEachOnce (all_put decks.items) }
{
    let (owners, rows) = take_apart(alloc, decks)?;
    let owners = absorb_rows(owners, rows);
    drain_all(alloc, owners)
}

/// The blocks that are left on all decks of one making: they and those that the decks have taken are those that they
/// have put.
///
/// - Takes: all decks of one making, in any order.
/// - Errors: want of memory alone. The blocks are then gone.
/// - Rule: docs/METHOD.md, "Decks".
pub fn gather_decks(alloc: Global, mut decks: Vec<Deck>) -> Result<Vec<Block>, AllocError>
    requires { AreAllDecks decks.items }
    ensures whole { IfOk result (λ left. HaveSame (all_put decks.items) (all_taken decks.items ++ left.items)) }
    ensures once { IsEachOnce (all_put decks.items) }
{
    decks.sort_unstable_by_key(|deck| deck.number);
    gather_in_order(alloc, decks)
}
