//! Blocks of the demands of one version, on decks from which other workers may steal.

ghost use Rattle.block_deques.specs.Decks.{IsSameDeck};

use crate::bench::Bench;
use crate::office::Office;
use crate::search::Search;
use crate::tasks::{Shown, price, turn_to};
use block_deques::{Block, Deck};
use plan_base::DemandId;
use search_machine::Offered;
use std::alloc::AllocError;
use std::sync::Wait;

/// How many demands a block has; the last one of a version has what is left.
const BLOCK: u32 = 32;

/// How many blocks a deck may put.
const MAX_PUTS: u64 = 1 << 61;

/// Puts the demands of a version on the deck, block by block. Where it finds no place for a block, this one and those
/// behind it are dropped: tasks give their demands.
pub(crate) fn put_blocks(deck: &mut Deck, demands: u32, shown: Shown)
    ensures { IsSameDeck deck.old deck.new }
{
    let Shown {
        slot,
        node,
        version,
    } = shown;
    let mut first = 0;
    while first < demands {
        let count = BLOCK.min(demands - first);
        if deck.puts() >= MAX_PUTS {
            return;
        }
        let Ok(_index) = deck.put(slot, node, version, first, count) else {
            return;
        };
        first += count;
    }
}

/// Takes all blocks from the worker's own deck. They are dropped.
pub(crate) fn drop_blocks(deck: &mut Deck)
    ensures { IsSameDeck deck.old deck.new }
{
    for _ in 0..deck.puts() {
        let Some(_block) = deck.pop() else {
            return;
        };
    }
}

/// Steals a block from another deck, where there is one of that number.
fn steal_from<T: Wait>(rt: &T, deck: &mut Deck, victim: u32) -> Option<Block>
    ensures { IsSameDeck deck.old deck.new }
{
    if victim < deck.count() && victim != deck.number() {
        deck.steal(rt, victim)
    } else {
        None
    }
}

/// The first block of the worker's own deck, or else of the first other one that has any, in the order of their numbers.
pub fn next_block<T: Wait>(rt: &T, deck: &mut Deck) -> Option<Block>
    ensures { IsSameDeck deck.old deck.new }
{
    let own = deck.pop();
    if own.is_some() {
        return own;
    }
    for victim in 0..deck.count() {
        let stolen = steal_from(rt, deck, victim);
        if stolen.is_some() {
            return stolen;
        }
    }
    None
}

/// What an answer tells of the demands of the version that come behind.
enum Outlook {
    /// They may be accepted.
    Open,
    /// Other workers price the demands of this block, one by one.
    Shared,
    /// None of the version is accepted any more.
    Over,
}

fn outlook_of(answer: Option<Offered>) -> Outlook {
    match answer {
        Some(Offered::Accepted { left }) => {
            if left == 0 {
                Outlook::Over
            } else {
                Outlook::Open
            }
        }
        Some(Offered::Unfit(_unfit)) => Outlook::Open,
        Some(Offered::Already) => Outlook::Shared,
        _ => Outlook::Over,
    }
}

/// Prices the demands of a block, one behind the other, as long as they may be accepted.
///
/// - Gives: whether the version is over.
pub(crate) fn price_block<N: Search, H: Office<N>, T: Wait>(
    rt: &T,
    hub: &H,
    seat: &mut H::Seat,
    bench: &mut Bench<N>,
    block: Block,
) -> Result<bool, AllocError>
    requires of { H.of hub.now seat.old }
    ensures of { H.of hub.now seat.new }
    ensures keeps { H.keeps seat.old seat.new }
{
    let Block {
        deck: _deck,
        index: _index,
        slot,
        node,
        version,
        first,
        count,
    } = block;
    turn_to(rt, hub, seat, bench, node, slot, version)?;
    for place in 0..count {
        let demand = DemandId(first.saturating_add(place));
        match outlook_of(price(rt, hub, seat, bench, node, version, demand)?) {
            Outlook::Open => {}
            Outlook::Shared => return Ok(false),
            Outlook::Over => return Ok(true),
        }
    }
    Ok(false)
}
