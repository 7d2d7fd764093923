//! The pieces of a state that code and contracts see alike.

use plan_base::{DemandId, Design, Items, Path};

/// A demand's path in a round, and its price there, in thousandths of a cost grain per load grain.
#[derive(Debug, Drop)]
pub struct Found {
    /// The path.
    pub path: Path,
    /// Its price, which is the least of a permitted path.
    pub price: u128,
}

/// A set that no permitted arc leaves, which parts the demand's source from its target.
#[derive(Debug, Drop)]
pub struct HeldCut {
    /// The demand that has no permitted path.
    pub demand: DemandId,
    /// For each node of the network whether it is in the set.
    pub reached: Items<bool>,
}

/// A design and its cost, in cost grains.
#[derive(Debug, Drop)]
pub struct Incumbent {
    /// What the design costs.
    pub cost: u128,
    /// A feasible design in shape.
    pub design: Design,
}
