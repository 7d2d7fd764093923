//! Calls of a deck that are always allowed.

ghost use Rattle.block_deques.specs.Decks.{IsSameDeck};

use block_deques::{Block, Deck};
use plan_base::BranchId;
use std::alloc::AllocError;
use std::sync::Wait;

/// Steals from another deck, where there is one of that number.
pub(crate) fn steal_from<R: Wait>(rt: &R, deck: &mut Deck, victim: u32) -> Option<Block>
    ensures { IsSameDeck deck.old deck.new }
{
    if victim < deck.count() && victim != deck.number() {
        deck.steal(rt, victim)
    } else {
        None
    }
}

/// Puts a block with these demands of one version.
pub(crate) fn put_demands(deck: &mut Deck, first: u32, count: u32) -> Result<u64, AllocError>
    ensures { IsSameDeck deck.old deck.new }
{
    if deck.puts() < 1 << 61 {
        deck.put(5, BranchId(3), 7, first, count)
    } else {
        Err(AllocError)
    }
}
