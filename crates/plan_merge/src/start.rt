//! An open leaf of a tree, as the start of a search.

use branch_tree::Limit;
use plan_base::{Items, Prices};

/// An open leaf: what the splits above it allow less, and its numbers.
#[derive(Debug, Drop)]
pub struct Start {
    /// The limits, the last one first.
    pub limits: Items<Limit>,
    /// The prices of places and rates of cuts of its record: in thousandths of a cost grain per load grain.
    pub prices: Prices,
}
