//! Why two files stand for no instance that can be planned.

ghost use Rattle.std.specs.Prelude.{◌≡◌};
ghost use Rattle.model_check.specs.declared.fault.CheckFault.TheVariants.{OutOfMemory};
ghost use Rattle.model_check.specs.Telling.{as_check_fault};

use plan_base::BuildFault;
use snd_model::Key;
use std::alloc::{AllocError, AllocFailed};
use thiserror::Error;

/// The first refusal of two files, or want of memory.
#[derive(Clone, Copy, Debug, PartialEq, Eq, Error)]
pub enum CheckFault {
    /// A value of the model is outside the profile, or undirected demands are asked for on links that
    /// are not. `value` is the number of the value in the key's row, from 0 on.
    #[error("a value of the model is outside the profile")]
    Unsupported { key: Key, value: u8 },
    /// The first fault of the parts that the files stand for, other than want of memory.
    #[error("the network is no instance")]
    Build(BuildFault),
    /// There is no memory left. It may come in place of any other answer.
    #[error("out of memory")]
    OutOfMemory,
}

impl From<BuildFault> for CheckFault {
    ghost from_gives = { λ fault e. e ≡ as_check_fault fault };

    fn from(fault: BuildFault) -> CheckFault {
        match fault {
            BuildFault::OutOfMemory => CheckFault::OutOfMemory,
            other => CheckFault::Build(other),
        }
    }
}

impl From<AllocError> for CheckFault {
    ghost from_gives = { λ _ e. e ≡ OutOfMemory };

    fn from(_e: AllocError) -> CheckFault {
        CheckFault::OutOfMemory
    }
}
