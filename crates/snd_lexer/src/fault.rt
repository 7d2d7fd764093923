//! Why a text cannot be cut.

ghost use Rattle.std.specs.Prelude.{◌≡◌};
ghost use Rattle.snd_lexer.specs.declared.fault.LexFault.TheVariants.{OutOfMemory};

use std::alloc::AllocFailed;

/// Why a text cannot be cut.
#[derive(Clone, Copy, Debug, PartialEq, Eq)]
pub enum LexFault {
    /// The byte at this place may stand in comments only, and stands in none.
    Control { at: u32 },
    /// The tokens found no memory.
    OutOfMemory,
}

impl<T: Drop> From<AllocFailed<T>> for LexFault {
    ghost from_gives = { λ _ e. e ≡ OutOfMemory };

    fn from(_e: AllocFailed<T>) -> LexFault {
        LexFault::OutOfMemory
    }
}
