//! What one task of the search computes, without the pool: what a demand finds under prices, a design for the paths of a
//! round, paths within limits for it, and what follows the version of a brief: further prices, and a split of its node.
//!
//! Promises that what is found fits, as an offer has to, and that a design is good; of a split it promises nothing. Begin
//! at `find`, `Guide::find`, `paths_within`, `new_design` and `next_step`; by which loads a node is divided is a rule of
//! `split_rules`. Stands on `plan_base`, `link_steps`,
//! `arc_restrict`, `path_pricing`, `hop_pricing`, `column_pool`, `proof_tree`, `cut_values`, `branch_tree`, `master_step`,
//! `completions` and `incumbent`. What is done with it is left to `pool_core`: nothing here is believed there without a
//! test.
#![tactic(auto)]

mod advancing;
mod dividing;
mod entries;
mod guide;
mod known;
mod limits;
mod pricing;
mod routing;
mod shared;
pub mod split_rules;
mod trees;

pub use advancing::{Next, next_step};
pub use dividing::load_split;
pub use guide::Guide;
pub use known::{Known, KnownAbove};
pub use limits::{keep_limits, paths_within};
pub use pricing::{copy_of, find};
pub use routing::new_design;
pub use trees::Trees;
