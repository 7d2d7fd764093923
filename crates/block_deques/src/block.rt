//! What lies on a deck, and what a pass on it knows.

use plan_base::BranchId;
use std::collections::LinkedList;

/// Some demands of one version, to be priced together.
#[derive(Clone, Copy, Debug, PartialEq, Eq)]
pub struct Block {
    /// The number of the deck that it was put on.
    pub deck: u32,
    /// How many blocks were put on that deck before.
    pub index: u64,
    /// The slot of the version.
    pub slot: u32,
    /// The node of the version.
    pub node: BranchId,
    pub version: u64,
    /// The first of the demands.
    pub first: u32,
    /// How many demands there are.
    pub count: u32,
}

/// What a pass has put and taken, what those took that it has joined, and its parts of the right to know the whole. No
/// value of it is made.
pub(crate) struct Hand {
    parts: u64,
    owner: bool,
    put: LinkedList<Block>,
    taken: LinkedList<Block>,
    joined: LinkedList<Block>,
}
