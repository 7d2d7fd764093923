//! Four threads, each with a deck of its own, that put and steal at the same time.

ghost use Rattle.std.specs.Prelude.{◌≡◌, map, IfOk, Vec};
ghost use Rattle.std.specs.declared.alloc.Global.{Global as AnyGlobal};
ghost use Rattle.block_deques.specs.Decks.{deck_id, IsSameDeck};
ghost use Rattle.block_deques.specs.declared.block.Block.{Block as AnyBlock};
ghost use Rattle.block_deques.specs.declared.deck.Deck.{Deck as AnyDeck};

use super::calls::{put_demands, steal_from};
use block_deques::{Block, Deck, decks, gather_decks};
use search_worker::next_block;
use std::alloc::{AllocError, Global};
use std::sync::Wait;
use std::thread;
use std::thread::Threads;

/// How many threads and decks there are.
const DECKS: u32 = 4;

/// How many blocks each deck puts.
const PUTS: u32 = 2_500;

/// How many blocks all decks put.
const BLOCKS: u32 = DECKS * PUTS;

/// Puts all blocks, and after every second one steals from the deck before.
fn put_and_steal<R: Wait>(rt: &R, deck: &mut Deck, taken: &mut Vec<Block>) -> Result<(), AllocError>
    ensures { IsSameDeck deck.old deck.new }
{
    let victim = if deck.number() == 0 {
        DECKS - 1
    } else {
        deck.number() - 1
    };
    for number in 0..PUTS {
        put_demands(deck, number, 1)?;
        if number % 2 == 1 {
            if let Some(block) = steal_from(rt, deck, victim) {
                taken.push(block)?;
            }
        }
    }
    Ok(())
}

/// Takes blocks until it finds none.
fn take_rest<R: Wait>(rt: &R, deck: &mut Deck, taken: &mut Vec<Block>) -> Result<(), AllocError>
    ensures { IsSameDeck deck.old deck.new }
{
    for _ in 0..BLOCKS {
        let Some(block) = next_block(rt, deck) else {
            break;
        };
        taken.push(block)?;
    }
    Ok(())
}

/// What one thread does with its deck: the deck, and the blocks that it took.
fn work<R: Wait>(rt: &R, alloc: Global, mut deck: Deck) -> (Deck, Vec<Block>)
    ensures { deck_id result.0 ≡ deck_id deck }
{
    let mut taken = Vec::new(alloc);
    if put_and_steal(rt, &mut deck, &mut taken).is_ok() {
        let _ = take_rest(rt, &mut deck, &mut taken);
    }
    (deck, taken)
}

/// What a thread for each deck does with it.
fn work_all<R: Threads + Wait + Sync>(
    rt: &R,
    alloc: Global,
    all: Vec<Deck>,
) -> Result<Vec<(Deck, Vec<Block>)>, AllocError>
    ensures { IfOk result (λ worked. map deck_id (map (λ (w : AnyDeck × Vec AnyBlock AnyGlobal). w.0) worked.items) ≡ map deck_id all.items) }
{
    thread::map_vec(
        rt,
        all,
        &|deck: Deck| -> (Deck, Vec<Block>)
            ensures { deck_id result.0 ≡ deck_id deck }
        { work(rt, alloc, deck) },
    )
}

/// Counts the blocks, each at its deck and index.
fn count_blocks(found: &mut Vec<u8>, blocks: &[Block]) {
    for block in blocks {
        let place = u64::from(block.deck) * u64::from(PUTS);
        if let Some(times) = found.get_mut(place.saturating_add(block.index) as usize) {
            *times = times.saturating_add(1);
        }
    }
}

/// The decks, once the blocks that were taken are counted.
fn take_back(
    alloc: Global,
    worked: Vec<(Deck, Vec<Block>)>,
    found: &mut Vec<u8>,
) -> Result<Vec<Deck>, AllocError>
    ensures { IfOk result (λ all. all.items ≡ map (λ (w : AnyDeck × Vec AnyBlock AnyGlobal). w.0) worked.items) }
{
    let mut all = Vec::new(alloc);
    for (deck, taken) in worked {
        count_blocks(found, &taken);
        all.push(deck)?;
    }
    Ok(all)
}

/// The blocks that the threads put, each at its deck and index: how often it is found.
fn found_blocks<R: Threads + Wait + Sync>(rt: &R, alloc: Global) -> Result<Vec<u8>, AllocError> {
    let all = decks(alloc, DECKS)?;
    let worked = work_all(rt, alloc, all)?;
    let mut found = vec![in alloc; 0u8; BLOCKS as usize]?;
    let all = take_back(alloc, worked, &mut found)?;
    let left = gather_decks(alloc, all)?;
    count_blocks(&mut found, &left);
    Ok(found)
}

/// Lets the threads work, and adds how many blocks they put, and whether each is found once.
pub(crate) fn tell_threads<R: Threads + Wait + Sync>(
    rt: &R,
    alloc: Global,
    text: &mut String,
) -> Option<()> {
    let found = found_blocks(rt, alloc).ok()?;
    let how_often = if found.iter().all(|times| *times == 1) {
        "each found once"
    } else {
        "some lost, or found twice"
    };
    write!(text, "{BLOCKS} blocks of {DECKS} threads, {how_often}\n").ok()
}
