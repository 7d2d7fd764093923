//! Blocks of demands on decks, from which other threads may steal.
//!
//! Promises that, when the decks are gathered, the blocks that were put are those that were taken and those that are
//! left, each once, for any number of decks and threads, and that a taker takes the blocks of one deck in the order of
//! their indexes. That a deck is told to be empty only where it is no clause says. Begin at `decks` and `gather_decks`, whose words are in `specs/Decks.antt` and `specs/Wholes.antt`; the
//! rule that all threads keep is in `specs/Hands.antt`. Stands on `plan_base` and on `crossbeam_deque`. Who takes what is
//! left to the threads, and what a block is for to the crates above.
#![tactic(auto)]

mod block;
mod deck;
mod gathering;
mod limits;
mod making;
mod plays;
mod reach;

pub use block::Block;
pub use deck::Deck;
pub use gathering::gather_decks;
pub use limits::MAX_DECKS;
pub use making::decks;
