//! Which samples are made.

/// The greatest number of a sample.
pub const MAX_NUMBER: u32 = 2_147_483_647;

/// The fewest nodes of a sample.
pub const MIN_NODES: u32 = 4;

/// The most nodes of a sample.
pub const MAX_NODES: u32 = 64;

/// The most demands of a sample.
pub const MAX_DEMANDS: u32 = 4096;
