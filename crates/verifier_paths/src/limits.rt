//! The greatest length that least prices are added for.

/// The most arcs of a way of least price: one less than the most nodes.
pub const MAX_WAY_ARCS: u128 = 511;
