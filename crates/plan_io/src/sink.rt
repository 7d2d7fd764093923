//! Where texts go.

ghost use Rattle.std.specs.Prelude.{◌<◌, ℕ, List, length, IfOk};
ghost use Rattle.std.specs.declared.option.Option.{Option};
ghost use Rattle.std.specs.Io.{WritesAtMost};
ghost use Rattle.std.specs.Io.KnownBytes.{WriteAppends};
ghost use Rattle.plan_io.specs.Causes.{HasCause};

use crate::failed::Failed;

/// What bytes are written to.
///
/// - Rule: docs/DEFINITIONS.md, "Shelves, sinks and gates".
pub trait Sink {
    /// All that was written, where the sink tells it.
    ghost contents: { Self → Option (List ℕ) };

    /// How many calls have failed. It stands still at 2^64 - 1.
    ghost faults: { Self → ℕ };

    /// Writes a front of the piece.
    ///
    /// - Gives: how many bytes were taken, at least 1 of a piece that is not empty.
    /// - Errors: `Failed`, only where the count of faults rose in this call. Nothing was taken.
    fn write(&mut self, piece: &[u8]) -> Result<usize, Failed>
        ensures bound { WritesAtMost result piece.now }
        ensures bytes { WriteAppends (contents self.old) (contents self.new) result piece.now }
        ensures some { IfOk result (λ n. 0 < length piece.now → 0 < n) }
        ensures cause { HasCause (faults self.old) (faults self.new) result };
}
