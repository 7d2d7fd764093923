//! A pass on one deque, which may be another deck's.

ghost use Rattle.std.specs.Prelude.{◌≡◌, [], ◌∷◌, MatchOption};
ghost use Rattle.block_deques.specs.Hands.{WasEmpty, Took};
ghost use Rattle.block_deques.specs.Passes.{IsThief};

use crate::block::{Block, Hand};
use crate::plays::{Law, Take};
use crossbeam_deque::{Pass, Steal, Stealer, Worker};
use std::alloc::Global;
use std::sync::Wait;

/// The end of a deque that its deck keeps.
pub(crate) type Owner = Worker<Block, Global, Hand, Law>;

/// The end of a deque that other decks share.
pub(crate) type Thief = Stealer<Block, Global, Hand, Law>;

/// A deque that may be stolen from, and the pass for it.
#[derive(Drop)]
pub(crate) struct Reach {
    pub(crate) stealer: Thief,
    pub(crate) pass: Pass<Block, Hand>,
    ghost thief: { IsThief stealer pass },
}

impl Reach {
    ghost use Rattle.block_deques.specs.Reaches.{IsSameReach, reach_view};

    /// The first block of the deque.
    pub(crate) fn steal<R: Wait>(&mut self, rt: &R) -> Option<Block>
        ensures same { IsSameReach self.old self.new }
        ensures taken { MatchOption result ((reach_view self.new ≡ reach_view self.old) × WasEmpty (reach_view self.old)) (λ x. Took (reach_view self.old) (x ∷ []) (reach_view self.new)) }
    {
        for _ in rt.forever() {
            match self.stealer.steal_as::<Take>(&mut self.pass) {
                Steal::Success(block) => return Some(block),
                Steal::Empty => return None,
                Steal::Retry => {}
            }
        }
        unreachable!()
    }
}
