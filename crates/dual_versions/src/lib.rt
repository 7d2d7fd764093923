//! Versions of prices and rates on a board, which readers read without a lock.
//!
//! Promises that the tables that a writer shows form a list to which each show adds one; that what a reader has seen is a
//! list of tables that never gets shorter; and that an entry is read whole, from the last table that the reader has seen.
//! That the reader's list begins the writer's no public clause says: the ends of `left_right` keep that rule
//! (`specs/Views.antt`), but do not tell which board they are of. Begin at `board`; the tables are in `specs/Tables.antt`,
//! what is seen of a board in `specs/Boards.antt`. Stands on `plan_base` and on `left_right`. Which numbers they are the
//! round of a node says.
#![tactic(auto)]

mod making;
mod published;
mod reader;
mod row;
mod rule;
mod shared;
mod table;
mod writer;

pub use making::board;
pub use published::Published;
pub use reader::BoardReader;
pub use writer::BoardWriter;
