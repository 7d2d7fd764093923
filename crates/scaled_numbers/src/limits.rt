//! Limits of what is read.

/// The longest text that is read, in bytes.
pub const MAX_TEXT_BYTES: usize = 8_388_608;
