//! Entries by number, of which some are missing.

ghost use Rattle.std.specs.Prelude.{ℕ, ◌≡◌, ◌≢◌, ◌<◌, length, None, Some, OnOk};
ghost use Rattle.leaf_tasks.specs.Entries.{entry_at};

use std::alloc::AllocError;

/// Adds missing entries, until there is one of this number.
#[tactic(auto, using(crate::proofs::EntryLaws::entry_at_push))]
fn reach<T: Drop>(entries: &mut Vec<Option<T>>, number: usize) -> Result<(), AllocError>
    ensures reached { OnOk result (number < length entries.new.items) }
    ensures kept { (k : ℕ) → entry_at entries.new.items k ≡ entry_at entries.old.items k }
{
    while entries.len() <= number {
        entries.push(None)?;
    }
    Ok(())
}

/// Puts an entry at its number.
///
/// - Errors: want of memory alone; then each entry is as before.
pub(crate) fn put<T: Drop>(
    entries: &mut Vec<Option<T>>,
    number: usize,
    entry: T,
) -> Result<(), AllocError>
    ensures put { OnOk result (entry_at entries.new.items number ≡ Some entry) }
    ensures others { (k : ℕ) → k ≢ number → entry_at entries.new.items k ≡ entry_at entries.old.items k }
{
    reach(entries, number)?;
    entries[number] = Some(entry);
    Ok(())
}

/// Takes the entry of a number out: it is missing from now on.
pub(crate) fn take_out<T: Drop>(entries: &mut Vec<Option<T>>, number: usize) -> Option<T>
    ensures taken { result ≡ entry_at entries.old.items number }
    ensures missing { entry_at entries.new.items number ≡ None }
    ensures others { (k : ℕ) → k ≢ number → entry_at entries.new.items k ≡ entry_at entries.old.items k }
{
    if number >= entries.len() {
        return None;
    }
    entries[number].take()
}
