//! The greatest sizes.

/// The most callers of one value.
pub const MAX_CALLERS: u32 = 64;

/// The most calls of one caller, 2^56.
pub const MAX_CALLS: u64 = 72_057_594_037_927_936;
