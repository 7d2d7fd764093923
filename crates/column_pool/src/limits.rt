//! How many columns are kept.

/// The most columns of one demand.
pub const MAX_COLUMNS: usize = 64;
