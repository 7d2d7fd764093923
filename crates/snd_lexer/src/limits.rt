//! The greatest length of a text.

/// The most bytes of a network or model text.
pub const MAX_TEXT_BYTES: usize = 8_388_608;
