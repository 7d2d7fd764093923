//! How decks are made.

ghost use Rattle.std.specs.Prelude.{◌≡◌, ◌≤◌, ◌<◌, ◌-◌, length, IfOk};
ghost use Rattle.crossbeam_deque.specs.Handles.{view, worker_deque, stealer_deque};
ghost use Rattle.block_deques.specs.Hands.{thief, all_parts};
ghost use Rattle.block_deques.specs.Making.{AreFresh, IsRich, AreRich, HasGiven, HaveGiven, IsRow, AreRows, AreDecksOf};
ghost use Rattle.block_deques.specs.Wholes.{AreNewDecks};

use crate::deck::Deck;
use crate::limits::MAX_DECKS;
use crate::plays::NewThief;
use crate::reach::{Owner, Reach};
use std::alloc::{AllocError, Global};

/// How many blocks a deque has room for at first.
const FIRST_ROOM: usize = 32;

/// The deques, each with all parts.
fn new_owners(alloc: Global, count: u32) -> Result<Vec<Owner>, AllocError>
    ensures { IfOk result (λ owners. (length owners.items ≡ count) × AreFresh all_parts owners.items) }
{
    let mut owners = Vec::new(alloc);
    for _ in 0..count {
        let Ok(()) = owners.push(Owner::fifo_as(alloc, FIRST_ROOM)?) else {
            return Err(AllocError);
        };
    }
    Ok(owners)
}

/// A pass on this deque, for a deck.
fn new_reach(owner: &mut Owner) -> Result<Reach, AllocError>
    requires { IsRich owner.old }
    ensures given { IfOk result (λ _. HasGiven owner.old owner.new) }
    ensures reach { IfOk result (λ reach. (stealer_deque reach.stealer ≡ worker_deque owner.old) × (view reach.pass ≡ thief)) }
{
    let stealer = owner.stealer()?;
    let pass = owner.another::<NewThief>();
    Ok(Reach { stealer, pass })
}

/// A pass on each deque.
fn new_row(alloc: Global, owners: &mut Vec<Owner>) -> Result<Vec<Reach>, AllocError>
    requires { AreRich owners.old.items }
    ensures count { length owners.new.items ≡ length owners.old.items }
    ensures given { IfOk result (λ _. HaveGiven owners.old.items owners.new.items) }
    ensures row { IfOk result (λ row. IsRow owners.new.items row.items) }
{
    let mut row = Vec::new(alloc);
    for place in 0..owners.len() {
        let reach = new_reach(&mut owners[place])?;
        let Ok(()) = row.push(reach) else {
            return Err(AllocError);
        };
    }
    Ok(row)
}

/// For each deck a pass on each deque.
fn new_rows(alloc: Global, owners: &mut Vec<Owner>) -> Result<Vec<Vec<Reach>>, AllocError>
    requires fresh { AreFresh all_parts owners.old.items }
    requires few { length owners.old.items ≤ MAX_DECKS }
    ensures same { length owners.new.items ≡ length owners.old.items }
    ensures count { IfOk result (λ rows. length rows.items ≡ length owners.new.items) }
    ensures parts { IfOk result (λ _. AreFresh (all_parts - length owners.new.items) owners.new.items) }
    ensures rows { IfOk result (λ rows. AreRows owners.new.items rows.items) }
{
    let mut rows = Vec::new(alloc);
    for _ in 0..owners.len() {
        let row = new_row(alloc, owners)?;
        let Ok(()) = rows.push(row) else {
            return Err(AllocError);
        };
    }
    Ok(rows)
}

/// The decks that have these deques and passes.
fn put_together(
    alloc: Global,
    owners: Vec<Owner>,
    mut rows: Vec<Vec<Reach>>,
) -> Result<Vec<Deck>, AllocError>
    requires few { length owners.items ≤ MAX_DECKS }
    requires count { length rows.items ≡ length owners.items }
    requires parts { AreFresh (all_parts - length owners.items) owners.items }
    requires rows { AreRows owners.items rows.items }
    ensures { IfOk result (λ decks. (length decks.items ≡ length owners.items) × AreDecksOf owners.items decks.items) }
{
    let mut decks = Vec::new(alloc);
    for worker in owners {
        let Some(reaches) = rows.pop() else {
            unreachable!()
        };
        let number = decks.len() as u32;
        let deck = Deck {
            number,
            puts: 0,
            worker,
            reaches,
        };
        let Ok(()) = decks.push(deck) else {
            return Err(AllocError);
        };
    }
    Ok(decks)
}

/// New decks, numbered from 0, each of which may steal from all others.
///
/// - Takes: how many, from 1 to `MAX_DECKS`.
/// - Errors: want of memory alone.
/// - Rule: docs/METHOD.md, "Decks".
pub fn decks(alloc: Global, count: u32) -> Result<Vec<Deck>, AllocError>
    requires some { 0 < count }
    requires few { count ≤ MAX_DECKS }
    ensures { IfOk result (λ decks. AreNewDecks count decks.items) }
{
    let mut owners = new_owners(alloc, count)?;
    let rows = new_rows(alloc, &mut owners)?;
    put_together(alloc, owners, rows)
}
