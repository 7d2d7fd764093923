//! A row of a table.

ghost use Rattle.std.specs.Prelude.{◌≡◌, ◌↔◌, Some, IfOk, IsTrue};
ghost use Rattle.dual_versions.specs.Rows.{filled, row_entry};

use crate::published::Published;
use std::alloc::AllocError;

/// A row, with room for one entry.
#[derive(Drop)]
pub struct Row {
    /// Whether an entry was put here.
    pub shown: bool,
    /// The entry. Before there is one, what holds the room for its prices and rates.
    pub what: Published,
}

impl Row {
    /// Copies an entry into the row. Where it has not as many of them as the row has room for, nothing changes. Takes no
    /// memory.
    pub fn fill(&mut self, what: &Published)
        ensures { self.new ≡ filled self.old what.now }
    {
        if what.prices.as_slice().len() == self.what.prices.as_slice().len() {
            self.shown = true;
            self.what.node = what.node;
            self.what.version = what.version;
            self.what.prices.set_to(&what.prices);
        }
    }

    /// A copy of the entry, where there is one.
    ///
    /// - Errors: want of memory alone.
    pub fn copy(&self) -> Result<Option<Published>, AllocError>
        ensures { IfOk result (λ entry. entry ≡ row_entry self.now) }
    {
        if !self.shown {
            return Ok(None);
        }
        Ok(Some(self.what.copy()?))
    }

    /// Whether this is its entry.
    pub fn has(&self, what: &Published) -> bool
        ensures { IsTrue result ↔ (row_entry self.now ≡ Some what.now) }
    {
        self.shown
            && self.what.node == what.node
            && self.what.version == what.version
            && self.what.prices.as_slice() == what.prices.as_slice()
    }
}
