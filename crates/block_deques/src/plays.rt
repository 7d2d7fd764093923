//! The rule of a deck's deque, and what each call tells a pass.

use crate::block::{Block, Hand};
use crossbeam_deque::protocol::{Join, Outcome, Protocol, Split};

/// The rule of one deque.
pub(crate) struct Law;

impl Protocol<Block, Hand> for Law {
    ghost use Rattle.std.specs.Prelude.{true, []};
    ghost use Rattle.block_deques.specs.Hands.{Kept, hand, all_parts, spent_hand};

    ghost holds = { Kept };

    ghost first = { hand all_parts true [] [] [] };

    ghost guest = { spent_hand };
}

/// A block is put last.
pub(crate) struct Put;

impl Outcome<Block, Hand> for Put {
    ghost use Rattle.block_deques.specs.Hands.{Puts};

    ghost then = { Puts };
}

/// The first block is taken.
pub(crate) struct Take;

impl Outcome<Block, Hand> for Take {
    ghost use Rattle.block_deques.specs.Hands.{Took, WasEmpty};

    ghost then = { Took };

    ghost empty = { WasEmpty };
}

/// The owner gives a part away.
pub(crate) struct NewThief;

impl Split<Hand> for NewThief {
    ghost use Rattle.block_deques.specs.Hands.{owner_after, thief};

    ghost left = { owner_after };

    ghost right = { λ v. thief };
}

/// A pass takes another one in.
pub(crate) struct Together;

impl Join<Hand> for Together {
    ghost use Rattle.block_deques.specs.Hands.{both, spent_hand};

    ghost both = { both };

    ghost spent = { spent_hand };
}

/// The first block is taken by the pass that has all parts.
pub(crate) struct Drain;

impl Outcome<Block, Hand> for Drain {
    ghost use Rattle.std.specs.Prelude.{[]};
    ghost use Rattle.block_deques.specs.Hands.{Drained, Sums};

    ghost then = { Drained };

    ghost empty = { λ v. Sums v [] };
}
