//! What a whole turn tells.

ghost use Rattle.ticket_turns.specs.Passes.{IsAdding};

use crate::meaning::Meaning;

/// A caller that enters and then leaves has added one call to a history that begins with all that it had seen.
pub fn calls_are_added<D, C, M: Meaning<D, C>>()
    ensures { IsAdding M.leads }
{}
