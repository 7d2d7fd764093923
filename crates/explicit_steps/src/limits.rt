//! The greatest sizes.

/// Pre-installed capacities and those of choices are below this, in load grains.
pub const CAPACITY_BOUND: u64 = 1_000_000_000_000_000_000;

/// The most choices of one link.
pub const MAX_CHOICES: usize = 32;
