//! Why reading stops.

use std::alloc::{AllocError, AllocFailed};

/// Why reading stops.
#[derive(Clone, Copy, Debug)]
pub enum Stop {
    /// Want of memory.
    Memory,
    /// A line cannot stand there, or the text ends: so many bytes are left from there on.
    At(usize),
}

impl From<AllocError> for Stop {
    ghost use Rattle.std.specs.Prelude.{◌≡◌};
    ghost use Rattle.plan_tokens.specs.declared.stop.Stop.TheVariants.{Memory};

    ghost from_gives = { λ _ e. e ≡ Memory };

    fn from(_e: AllocError) -> Stop {
        Stop::Memory
    }
}

impl<T: Drop> From<AllocFailed<T>> for Stop {
    ghost use Rattle.std.specs.Prelude.{◌≡◌};
    ghost use Rattle.plan_tokens.specs.declared.stop.Stop.TheVariants.{Memory};

    ghost from_gives = { λ _ e. e ≡ Memory };

    fn from(_e: AllocFailed<T>) -> Stop {
        Stop::Memory
    }
}
