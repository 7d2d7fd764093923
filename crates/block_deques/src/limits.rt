//! The greatest sizes.

/// The most decks of one making.
pub const MAX_DECKS: u32 = 64;
