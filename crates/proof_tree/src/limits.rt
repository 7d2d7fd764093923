//! The greatest sizes of what a plan text can hold.

/// The greatest budget: how many nodes may be examined.
pub const MAX_BUDGET: u32 = 4096;

/// The most records of a tree: those of a budget of splits, and one leaf more.
pub const MAX_RECORDS: usize = 8193;

/// The most arcs of a path in a text.
pub const MAX_PATH_ARCS: usize = 512;

/// The most arcs of one side of a split in a text.
pub const MAX_SIDE_ARCS: usize = 1024;

/// The most cuts of a list.
pub const MAX_CUTS: usize = 256;

/// The greatest period of a cut, in load grains: twice the largest total load.
pub const MAX_PERIOD: u64 = 2_000_000_000_000_000_000;
