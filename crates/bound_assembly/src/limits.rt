//! The greatest length that a round is made for.

/// The most links that a simple path goes along: one less than the most nodes.
pub const MAX_PATH_LINKS: u128 = 511;
