//! The search tree: nodes that are open, closed by evidence, or split in two.
//!
//! Promises that each split of arcs is one by the divergence rule, with all unforbidden arcs of its
//! node shared out, that it parts two paths, that each split of loads leaves both children loads of
//! its place, and that what comes out is a valid tree where each leaf has its evidence. Begin at
//! `Branch`, whose words are in `specs/Branches.antt`. Stands on `plan_base`, `link_steps`,
//! `arc_restrict` and `proof_tree`. Which node to split, and when to close one, is left to the
//! crates above.
#![tactic(auto)]

mod branch;
mod dealing;
mod node;
mod records;
mod shared;
mod split_fault;

pub use branch::Branch;
pub use dealing::{Sides, deal};
pub use node::{ArcSplit, BranchNode, Divider, Division, Fate, Limit, LoadSplit};
pub use split_fault::{LoadFault, SplitFault};
