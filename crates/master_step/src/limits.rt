//! How many trials a master step makes, and how many turns an averaged ascent.

/// The trials of a master step: each after the first moves prices half as far as the one before.
pub const MAX_TRIALS: u32 = 24;

/// The turns of an averaged ascent without cuts.
pub const MAX_TURNS: u32 = 100;

/// Those with cuts.
pub const MAX_CUT_TURNS: u32 = 180;
