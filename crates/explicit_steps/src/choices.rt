//! Choices of a link, and steps that have one.

/// One of the capacities of which a link may have one at most, beside what is pre-installed.
#[derive(Clone, Copy, Debug, PartialEq, Eq)]
pub struct Choice {
    /// In load grains.
    pub capacity: u64,
    /// In cost grains.
    pub cost: u128,
}

/// Loads that cost the same to carry, up to a greatest one.
#[derive(Clone, Copy, Debug, PartialEq, Eq)]
pub struct ChoiceStep {
    /// The greatest of the loads, in load grains.
    pub reach: u64,
    /// In cost grains.
    pub cost: u128,
    /// The number of the choice that carries them, None where that is no choice at all.
    pub choice: Option<u32>,
}
