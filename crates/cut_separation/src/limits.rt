//! How far the search for cuts goes.

/// The most connected sets of nodes that are grown: 13 nodes have no more of at most half of them.
pub const MAX_SETS: usize = 4096;

/// How many steps of a link give periods.
pub const FIRST_STEPS: u32 = 4;

/// The most periods of a set beside the one past its rest.
pub const MAX_PERIODS: usize = 8;

/// The most cuts found at once that cross one place.
pub const MAX_CROSSING: u32 = 3;

/// How many thousandths of what a cut counts at least have to be missing.
pub const LEAST_MISSING: u128 = 10;
