//! One step of a link's least module cost.

/// The loads past the step before, up to its reach, have its cost as their least module cost.
#[derive(Clone, Copy, Debug)]
pub struct Step {
    /// The greatest load, in load grains.
    pub reach: u64,
    /// In cost grains.
    pub cost: u128,
    /// The place of the earlier step that it has one module more than. Means nothing in the first step, and where a link
    /// may have one module at most.
    pub before: u32,
    /// The number of that module; in a first step past the pre-installed capacity, that of a module without cost.
    pub added: u32,
}
