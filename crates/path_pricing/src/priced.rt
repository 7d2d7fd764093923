//! What is found for a demand, and what may be wrong with it.

use plan_base::{ArcId, Items, Path};

/// A permitted path of least price, or a set of nodes that shows that there is no permitted path.
///
/// Nothing is asked of it: `check_priced` tells whether it shows what it says.
#[derive(Debug, Drop)]
pub enum Priced {
    /// The path, its price, and one potential for each node: 0 at the demand's source, the length at its
    /// target, and along each permitted arc it rises by at most the price of the arc's place. All are in
    /// thousandths of a cost grain per load grain.
    Path {
        path: Path,
        length: u128,
        potentials: Items<u128>,
    },
    /// For each node whether it is in the set, which has the demand's source and not its target, and
    /// which no permitted arc leaves.
    NoPath {
        reached: Items<bool>,
    },
}

/// What is wrong with what is found for a demand.
#[derive(Clone, Copy, Debug, PartialEq, Eq)]
pub enum Unfit {
    /// At this place the path stops being a permitted simple path of the demand.
    NotPermitted { place: u32 },
    /// The potential of this permitted arc's head is above that of its tail by more than its price.
    Dearer { arc: ArcId },
    /// There is not one potential for each node; or the source's is not 0, the target's is not the
    /// length, or the path's price is not the length.
    WrongLength,
    /// There is not one entry for each node, or the source is outside, or the target inside.
    BadSet,
    /// This permitted arc leaves the set.
    NotClosed { arc: ArcId },
}
