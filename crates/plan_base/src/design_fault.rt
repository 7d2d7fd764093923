//! Why a design is not accepted.

use crate::ids::{DemandId, LinkId};

/// The first fault of a design.
#[derive(Clone, Copy, Debug, PartialEq, Eq)]
pub enum DesignFault {
    /// There is not one path for each demand and one list of counts for each link.
    WrongCount,
    /// The arc at this place does not go on, or the path ends there and not at the target.
    NotAPath {
        demand: DemandId,
        place: u32,
    },
    /// The arc at this place leads to a node that was met before.
    Repeats {
        demand: DemandId,
        place: u32,
    },
    /// There is not one count for each module, a count or its cost is too large, or the counts are not lawful.
    CountShape {
        link: LinkId,
    },
    /// The link's load is above its capacity, both in load grains.
    Short {
        link: LinkId,
        load: u128,
        capacity: u128,
    },
    /// The path has more arcs than its demand's limit.
    TooLong {
        demand: DemandId,
        arcs: u32,
        limit: u64,
    },
}
