//! Where texts come from.

ghost use Rattle.std.specs.Prelude.{◌≡◌, ◌+◌, ◌^◌, ℕ, List, min, OnOk, MatchResult};
ghost use Rattle.std.specs.declared.option.Option.{Option};
ghost use Rattle.std.specs.Io.{ReadsAtMost};
ghost use Rattle.std.specs.Io.KnownBytes.{ReadConsumes};
ghost use Rattle.plan_io.specs.Causes.{HasCause, CountsUp};

use crate::failed::Failed;

/// Texts by name, one of which is read at a time, from its front.
///
/// - Rule: docs/DEFINITIONS.md, "Shelves, sinks and gates".
pub trait Shelf {
    /// The text of each name, in bytes, where the shelf tells it.
    ghost text: { Self → List ℕ → Option (List ℕ) };

    /// What is left of the text begun, where the shelf tells it.
    ghost left: { Self → Option (List ℕ) };

    /// How many calls have failed. It stands still at 2^64 - 1.
    ghost faults: { Self → ℕ };

    /// How often a text was begun. It stands still at 2^63.
    ghost begins: { Self → ℕ };

    /// How many bytes were read since the last `begin`, cut at 2^63.
    ghost taken: { Self → ℕ };

    /// Begins the text of this name at its front.
    ///
    /// - Errors: `Failed`, only where the count of faults rose in this call. What is left is then not
    ///   said.
    fn begin(&mut self, name: &str) -> Result<(), Failed>
        ensures texts { text self.new ≡ text self.old }
        ensures begun { OnOk result (left self.new ≡ text self.old name.now) }
        ensures begins { CountsUp (begins self.old) (begins self.new) }
        ensures taken { taken self.new ≡ 0 }
        ensures cause { HasCause (faults self.old) (faults self.new) result };

    /// Reads on in the text begun.
    ///
    /// - Gives: how many bytes it put at the front of the buffer; 0 in a buffer that has room is the
    ///   end of the text.
    /// - Errors: `Failed`, only where the count of faults rose in this call. Nothing was read.
    fn read(&mut self, buf: &mut [u8]) -> Result<usize, Failed>
        ensures texts { text self.new ≡ text self.old }
        ensures bound { ReadsAtMost result buf.new }
        ensures bytes { ReadConsumes (left self.old) (left self.new) result buf.new }
        ensures begins { begins self.new ≡ begins self.old }
        ensures taken { MatchResult result
            (λ n. taken self.new ≡ min (taken self.old + n) (2 ^ 63))
            (λ _. taken self.new ≡ taken self.old) }
        ensures cause { HasCause (faults self.old) (faults self.new) result };
}
