//! A deck: a deque of its own, and passes on all deques of its making.

ghost use Rattle.std.specs.Prelude.{◌≡◌, ◌≢◌, ◌<◌, ◌≤◌, ◌^◌, ◌+◌, ◌++◌, [], ◌∷◌, ℕ, length, IfOk, IfSome, OnErr, IfNone};
ghost use Rattle.block_deques.specs.declared.limits.TheConstants.{MAX_DECKS};
ghost use Rattle.block_deques.specs.Passes.{IsOwner, AreDeckBlocks};
ghost use Rattle.crossbeam_deque.specs.Handles.{worker_view};

use crate::block::Block;
use crate::limits::MAX_DECKS;
use crate::plays::{Put, Take};
use crate::reach::{Owner, Reach};
use plan_base::BranchId;
use std::alloc::AllocError;
use std::sync::Wait;

/// A deck of one thread. Contracts see the blocks that it has put, popped and stolen.
#[derive(Drop)]
pub struct Deck {
    pub(crate) number: u32,
    pub(crate) puts: u64,
    pub(crate) worker: Owner,
    pub(crate) reaches: Vec<Reach>,
    ghost owned: { IsOwner (length reaches.items) worker },
    ghost counted: { (number < length reaches.items) × (length reaches.items ≤ MAX_DECKS) },
    ghost listed: { length (worker_view worker).put ≡ puts },
    ghost numbered: { AreDeckBlocks number (worker_view worker).put },
}

impl Deck {
    ghost use Rattle.block_deques.specs.Decks.{block_of, IsSameDeck, number_of, deck_count, put_by, popped_by, stolen_by, HasNotStolen, FoundOwnEmpty, FoundEmpty};
    ghost use Rattle.block_deques.specs.Hands.{IsRising};

    /// The number of this deck among those of its making, from 0. Takes no memory.
    pub fn number(&self) -> u32
        ensures { result ≡ number_of self.now }
    {
        self.number
    }

    /// How many decks there are of its making. Takes no memory.
    pub fn count(&self) -> u32
        ensures value { result ≡ deck_count self.now }
        ensures within { (number_of self.now < result) × (result ≤ MAX_DECKS) }
    {
        self.reaches.len() as u32
    }

    /// How many blocks this deck has put. Takes no memory.
    pub fn puts(&self) -> u64
        ensures value { result ≡ length (put_by self.now) }
        ensures numbered { AreDeckBlocks (number_of self.now) (put_by self.now) }
    {
        self.puts
    }

    /// Puts a block last on its own deque, with this deck's number and the next index.
    ///
    /// - Takes: a slot, a node and a version, as the board shows them; the first demand and how many there are.
    /// - Gives: the index, which is the number of blocks put before.
    /// - Errors: want of memory alone, also where the deque gives no place. The deck is then as it was.
    /// - Rule: docs/METHOD.md, "Decks".
    pub fn put(
        &mut self,
        slot: u32,
        node: BranchId,
        version: u64,
        first: u32,
        count: u32,
    ) -> Result<u64, AllocError>
        requires { length (put_by self.old) < 2 ^ 61 }
        ensures same { IsSameDeck self.old self.new }
        ensures index { IfOk result (λ index. index ≡ length (put_by self.old)) }
        ensures put { IfOk result (λ index. put_by self.new ≡ put_by self.old ++ block_of (number_of self.old) index slot node version first count ∷ []) }
        ensures refused { OnErr result (put_by self.new ≡ put_by self.old) }
        ensures popped { popped_by self.new ≡ popped_by self.old }
        ensures stolen { HasNotStolen self.old self.new }
    {
        let index = self.puts;
        let block = Block {
            deck: self.number,
            index,
            slot,
            node,
            version,
            first,
            count,
        };
        if self.worker.push_as::<Put>(block).is_err() {
            return Err(AllocError);
        }
        self.puts += 1;
        Ok(index)
    }

    /// Takes the first block of its own deque.
    ///
    /// - Gives: None where it found the deque empty. Its clause (`empty`) says only that what this deck has put and popped
    ///   fits an empty deque; that blocks which lie there are found is tested.
    /// - Rule: docs/METHOD.md, "Decks".
    pub fn pop(&mut self) -> Option<Block>
        ensures same { IsSameDeck self.old self.new }
        ensures put { put_by self.new ≡ put_by self.old }
        ensures popped { IfSome result (λ block. popped_by self.new ≡ popped_by self.old ++ block ∷ []) }
        ensures none { IfNone result (popped_by self.new ≡ popped_by self.old) }
        ensures empty { IfNone result (FoundOwnEmpty self.old) }
        ensures rising { IfSome result (λ _. IsRising (popped_by self.new)) }
        ensures stolen { HasNotStolen self.old self.new }
    {
        self.worker.pop_as::<Take>()
    }

    /// Takes the first block of another deck's deque. Tries again while the deque says so, and may wait.
    ///
    /// - Takes: the number of the other deck, of the same making.
    /// - Gives: None where it found that deque empty. Its clause (`empty`) says only that what this deck stole there fits an
    ///   empty deque; that blocks which lie there are found is tested.
    /// - Rule: docs/METHOD.md, "Decks".
    pub fn steal<R: Wait>(&mut self, rt: &R, victim: u32) -> Option<Block>
        requires victim { victim < deck_count self.old }
        requires other { victim ≢ number_of self.old }
        ensures same { IsSameDeck self.old self.new }
        ensures put { put_by self.new ≡ put_by self.old }
        ensures popped { popped_by self.new ≡ popped_by self.old }
        ensures stolen { IfSome result (λ block. stolen_by self.new victim ≡ stolen_by self.old victim ++ block ∷ []) }
        ensures none { IfNone result (stolen_by self.new victim ≡ stolen_by self.old victim) }
        ensures empty { IfNone result (FoundEmpty self.old victim) }
        ensures rising { IfSome result (λ _. IsRising (stolen_by self.new victim)) }
        ensures others { (deck : ℕ) → deck ≢ victim → stolen_by self.new deck ≡ stolen_by self.old deck }
    {
        self.reaches[victim as usize].steal(rt)
    }
}
