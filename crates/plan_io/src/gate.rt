//! A place to hold workers up.

/// How many workers a run may have.
pub const MAX_WORKERS: u32 = 64;

/// How far a search is.
#[derive(Clone, Copy, Debug, PartialEq, Eq)]
pub struct Standing {
    /// How many nodes are examined.
    pub examined: u32,
    /// How many nodes may be examined.
    pub budget: u32,
    /// The cost of the best design so far, in cost grains.
    pub cost: Option<u128>,
    /// The least bound of the open leaves, in cost grains, and at most the cost; None where it was not asked for, is not
    /// known, or is negative.
    pub bound: Option<u128>,
}

/// What a worker passes between taking a task and handing its result in. It answers only whether it is told a bound, so
/// no promise depends on it: tests hold workers here to force an order, a terminal is told how a run goes.
///
/// - Rule: docs/DEFINITIONS.md, "Shelves, sinks and gates".
pub trait Gate: Sync {
    /// - Takes: the worker's number, and how many tasks it took before this one, both from 0.
    fn pass(&self, worker: u32, turn: u64);

    /// Whether the gate is told the bound too, for which each node of the search is looked at.
    fn asks(&self) -> bool {
        false
    }

    /// What a worker tells behind each task that it passes with.
    ///
    /// - Takes: how far the search was when the task was taken.
    fn stand(&self, _standing: Standing) {}
}

/// A gate that holds nobody.
#[derive(Clone, Copy, Debug)]
pub struct NoGate;

impl Gate for NoGate {
    fn pass(&self, _worker: u32, _turn: u64) {}
}
