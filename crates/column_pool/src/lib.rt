//! The columns of the demands: paths that were least at some prices, among which a restricted master chooses.
//!
//! Promises that a `ColumnPool` keeps for each demand the last different paths that were added, in order, and tells them
//! as lists. Begin at `ColumnPool::add`, whose words are in `specs/Columns.antt`; `Brief` is what a master step is told.
//! Stands on `plan_base`, `link_steps`, `arc_restrict`, `proof_tree` and `cut_values`. Which prices the columns lead to is left
//! to the crates above.
#![tactic(auto)]

mod brief;
pub mod laws;
pub mod limits;
mod pool;
mod row;
mod shared;

pub use brief::Brief;
pub use pool::ColumnPool;
pub use row::Added;
