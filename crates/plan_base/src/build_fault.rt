//! Why parts are no instance.

ghost use Rattle.std.specs.Prelude.{◌≡◌};
ghost use Rattle.plan_base.specs.declared.build_fault.BuildFault.TheVariants.{OutOfMemory};

use crate::ids::{DemandId, LinkId};
use std::alloc::{AllocError, AllocFailed};

/// What has an end that is no node.
#[derive(Clone, Copy, Debug, PartialEq, Eq)]
pub enum End {
    Link(LinkId),
    Demand(DemandId),
}

/// The first fault of the parts, or want of memory.
#[derive(Clone, Copy, Debug, PartialEq, Eq)]
pub enum BuildFault {
    /// The link's ends are equal.
    LoopLink { link: LinkId },
    /// The demand's ends are equal.
    LoopDemand { demand: DemandId },
    /// An end of the link or of the demand is no node.
    EndOutOfRange { what: End },
    /// A size or a number is past the limit of this number.
    ///
    /// The limits are 3 nodes, 4 links, 5 demands, 6 modules of a link, 7 total load, 8 routing cost
    /// of a link with the total load on it, 10 a capacity or a cost of a link. `at` is the number that
    /// was counted for 3, 4 and 5, the link for 6, 8 and 10, and 0 for 7.
    OverLimit { limit: u8, at: u32 },
    /// There is no memory left. It may come in place of any other answer.
    OutOfMemory,
}

impl From<AllocError> for BuildFault {
    ghost from_gives = { λ _ e. e ≡ OutOfMemory };

    fn from(_e: AllocError) -> BuildFault {
        BuildFault::OutOfMemory
    }
}

impl<T: Drop> From<AllocFailed<T>> for BuildFault {
    ghost from_gives = { λ _ e. e ≡ OutOfMemory };

    fn from(_e: AllocFailed<T>) -> BuildFault {
        BuildFault::OutOfMemory
    }
}
