//! How large weights may be.

/// The greatest weight of an arc: the weights of 512 arcs add up to less than `2^128`.
pub const MAX_WEIGHT: u128 = 100_000_000_000_000_000_000_000_000_000_000_000;
