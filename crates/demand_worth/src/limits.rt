//! The greatest sizes of lists of surcharges and of rows of worths.

/// The most surcharges of a list.
pub const MAX_SURCHARGES: usize = 65_536;

/// The most measures that the total load comes to.
pub const MAX_MEASURES: usize = 65_536;
