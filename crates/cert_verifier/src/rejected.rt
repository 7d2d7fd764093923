//! Why a plan is not accepted.

ghost use Rattle.std.specs.Prelude.{◌≡◌};
ghost use Rattle.cert_verifier.specs.declared.rejected.Rejected.TheVariants.{OutOfMemory};

use plan_base::DesignFault;
use std::alloc::{AllocError, AllocFailed};

/// The first rule that a plan breaks. Records are counted from 0 in preorder, and the rules of a record from 1.
///
/// - Rule: docs/FORMATS.md, "Rules of a plan".
#[derive(Clone, Copy, Debug, PartialEq, Eq)]
pub enum Rejected {
    /// The design is none of the instance.
    Design(DesignFault),
    /// The design has another cost than is stated, both in cost grains.
    Cost {
        stated: u128,
        found: u128,
    },
    /// The cut of this number, counted from 0, is none of the instance, or is the same as an earlier one.
    Cuts {
        index: u32,
    },
    /// The split of this record breaks this rule of its kind.
    Split {
        index: u32,
        rule: u8,
    },
    /// The leaf of this record breaks this rule of its kind.
    Leaf {
        index: u32,
        rule: u8,
    },
    /// The count of examined nodes is not that of splits and closed leaves.
    Counts {
        stated: u32,
        found: u32,
    },
    /// The bound of an undecided plan is another than is stated, both in cost grains.
    Bound {
        stated: Option<i128>,
        found: Option<i128>,
    },
    /// A plan of this status has no leaf of this kind; or, with the count of records, an undecided plan has no open leaf.
    Kind {
        index: u32,
    },
    /// Memory was wanting.
    OutOfMemory,
    /// The plan states other counts of nodes, links or demands than the instance has.
    Size,
    /// More nodes were examined than the budget, or fewer in an undecided plan.
    Budget {
        examined: u32,
        budget: u32,
    },
}

impl From<AllocError> for Rejected {
    ghost from_gives = { λ _ e. e ≡ OutOfMemory };

    fn from(_e: AllocError) -> Rejected {
        Rejected::OutOfMemory
    }
}

impl<T: Drop> From<AllocFailed<T>> for Rejected {
    ghost from_gives = { λ _ e. e ≡ OutOfMemory };

    fn from(_e: AllocFailed<T>) -> Rejected {
        Rejected::OutOfMemory
    }
}
