//! Plans that go on and plans that are merged: which open leaves a search begins at, and trees put together.
//!
//! Promises exactly the starts of a part of the open leaves, the grown tree and the merged tree, and by its laws that these
//! are valid trees whose open leaves have no lower bounds than those that they come from. Begin at `parts`, `starts_of`,
//! `put_in` and `merge`. Stands on `proof_tree` and `branch_tree`. How open leaves are searched is left to the crates above.
#![tactic(auto)]

mod bounded_record;
mod choosing;
mod closing;
mod growing;
pub mod laws;
mod merging;
mod start;
mod starting;

pub use bounded_record::BoundedRecord;
pub use choosing::{Part, parts};
pub use closing::close;
pub use growing::put_in;
pub use merging::merge;
pub use start::Start;
pub use starting::starts_of;
