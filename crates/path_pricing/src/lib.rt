//! Least prices of paths: what a demand pays on the way that is cheapest to it.
//!
//! Promises a permitted path of least price with potentials that show it, or, exactly where there is no
//! permitted path, a closed set of nodes that shows that; and a check that refuses whatever does not show
//! what it says. Begin at `price` and `check_priced`, whose words are in `specs/Priced.antt` and
//! `specs/Faults.antt`; `SourceTree` finds the paths of all demands of a source at once. Stands on
//! `base_items`, `plan_base`, `arc_restrict` and the search of `least_path`. Which prices to take is left
//! to the crates above.
#![tactic(auto)]

mod checking;
pub mod laws;
mod priced;
mod pricing;
mod query;
mod shared;
mod source_tree;
mod walks;

pub use checking::check_priced;
pub use priced::{Priced, Unfit};
pub use pricing::{arc_weights, price, price_slow};
pub use query::Query;
pub use source_tree::SourceTree;
