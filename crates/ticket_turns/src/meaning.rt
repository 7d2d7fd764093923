//! What the user of a value says of its calls.

/// Where histories lead.
pub trait Meaning<D, C> {
    ghost use Rattle.std.specs.Prelude.{List};
    ghost use Rattle.ticket_turns.specs.declared.view.Entry.{Entry};

    /// The history can lead to the value.
    ghost leads: { List (Entry C) → D → Type 0 };
}

/// The call that is added to the history, for the proof alone. Each turn picks its own.
pub trait Said<C> {
    /// What was asked, and what was answered.
    ghost call: { C };
}
