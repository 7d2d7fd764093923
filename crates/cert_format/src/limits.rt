//! The greatest sizes of a plan text.

/// The most bytes of a plan text.
pub const MAX_PLAN_BYTES: usize = 536_870_912;

/// The most price lists of a plan text: one for each leaf of a tree.
pub const MAX_LISTS: usize = 4097;
