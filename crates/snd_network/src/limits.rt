//! The greatest length of a name.

/// The most bytes of a name. A longer word in a name's place is told as `LongId`.
pub const MAX_NAME_BYTES: usize = 64;
