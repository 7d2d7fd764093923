//! Why a table is not made.

ghost use Rattle.std.specs.Prelude.{◌≡◌};
ghost use Rattle.link_steps.specs.declared.step_fault.StepFault.TheVariants.{OutOfMemory};

use plan_base::LinkId;
use std::alloc::{AllocError, AllocFailed};

/// Why a table is not made.
#[derive(Clone, Copy, Debug, PartialEq, Eq)]
pub enum StepFault {
    /// The least module cost of this link, the first such one, takes too many values.
    TooManySteps { link: LinkId },
    /// Memory was wanting.
    OutOfMemory,
}

impl From<AllocError> for StepFault {
    ghost from_gives = { λ _ e. e ≡ OutOfMemory };

    fn from(_e: AllocError) -> StepFault {
        StepFault::OutOfMemory
    }
}

impl<T: Drop> From<AllocFailed<T>> for StepFault {
    ghost from_gives = { λ _ e. e ≡ OutOfMemory };

    fn from(_e: AllocFailed<T>) -> StepFault {
        StepFault::OutOfMemory
    }
}
