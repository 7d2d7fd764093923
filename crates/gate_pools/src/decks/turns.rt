//! Two decks, of which one puts and pops and the other steals.

ghost use Rattle.std.specs.Prelude.{[], ◌∷◌, IfOk, IfSome};
ghost use Rattle.block_deques.specs.Decks.{IsSameDeck};
ghost use Rattle.block_deques.specs.Wholes.{AreOneMaking};

use super::calls::{put_demands, steal_from};
use block_deques::{Block, Deck, decks, gather_decks};
use std::alloc::{AllocError, Global};
use std::sync::Wait;

/// The two decks of one making.
pub(crate) fn two_decks(alloc: Global) -> Result<Option<(Deck, Deck)>, AllocError>
    ensures { IfOk result (λ found. IfSome found (λ two. AreOneMaking (two.0 ∷ two.1 ∷ []))) }
{
    let mut all = decks(alloc, 2)?;
    let Some(one) = all.pop() else {
        return Ok(None);
    };
    let Some(zero) = all.pop() else {
        return Ok(None);
    };
    Ok(Some((zero, one)))
}

/// The blocks that are left on the two decks of one making.
pub(crate) fn gather_two(alloc: Global, zero: Deck, one: Deck) -> Result<Vec<Block>, AllocError>
    requires { AreOneMaking (zero ∷ one ∷ []) }
{
    let all = vec![in alloc; one, zero]?;
    gather_decks(alloc, all)
}

/// Puts a block, and adds its index.
fn tell_put(deck: &mut Deck, first: u32, count: u32, text: &mut String) -> Option<()>
    ensures { IsSameDeck deck.old deck.new }
{
    let index = put_demands(deck, first, count).ok()?;
    write!(text, "put {first} {count}: {index}\n").ok()
}

/// Pops a block, and adds it.
fn tell_pop(deck: &mut Deck, text: &mut String) -> Option<()>
    ensures { IsSameDeck deck.old deck.new }
{
    let block = deck.pop();
    write!(text, "pop: {block:?}\n").ok()
}

/// Steals a block from deck 0, and adds it.
pub(crate) fn tell_steal<R: Wait>(rt: &R, deck: &mut Deck, text: &mut String) -> Option<()>
    ensures { IsSameDeck deck.old deck.new }
{
    let block = steal_from(rt, deck, 0);
    write!(text, "steal: {block:?}\n").ok()
}

/// Adds what calls of two decks answer: one puts and pops, the other steals from it.
fn tell_calls<R: Wait>(rt: &R, zero: &mut Deck, one: &mut Deck, text: &mut String) -> Option<()>
    ensures zero { IsSameDeck zero.old zero.new }
    ensures one { IsSameDeck one.old one.new }
{
    tell_put(zero, 0, 32, text)?;
    tell_put(zero, 32, 32, text)?;
    tell_put(zero, 64, 6, text)?;
    tell_steal(rt, one, text)?;
    tell_pop(zero, text)?;
    tell_steal(rt, one, text)?;
    tell_pop(zero, text)?;
    tell_steal(rt, one, text)?;
    tell_put(zero, 70, 2, text)
}

/// Adds which deck it is, and how many blocks it has put.
fn tell_deck(deck: &Deck, text: &mut String) -> Option<()> {
    let (number, count, puts) = (deck.number(), deck.count(), deck.puts());
    write!(text, "deck {number} of {count}: {puts} put\n").ok()
}

/// Adds the blocks that are left.
pub(crate) fn tell_left(left: &[Block], text: &mut String) -> Option<()> {
    for block in left {
        write!(text, "left: {block:?}\n").ok()?;
    }
    Some(())
}

/// Adds what the calls of two decks answer, and what is left on them.
pub(crate) fn tell_turns<R: Wait>(rt: &R, alloc: Global, text: &mut String) -> Option<()> {
    let Ok(Some((mut zero, mut one))) = two_decks(alloc) else {
        return None;
    };
    tell_calls(rt, &mut zero, &mut one, text)?;
    tell_deck(&zero, text)?;
    tell_deck(&one, text)?;
    let left = gather_two(alloc, zero, one).ok()?;
    tell_left(left.as_slice(), text)
}
