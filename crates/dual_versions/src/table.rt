//! The table that readers see, as it takes entries in.

ghost use Rattle.std.specs.Prelude.{◌≡◌, ◌↔◌, IfOk, IsTrue, None, Some, slice_index_or};
ghost use Rattle.dual_versions.specs.Rows.{taken, shown_entries};

use crate::published::Published;
use crate::row::Row;
use left_right::Absorb;
use std::alloc::AllocError;

/// An entry that is pending.
#[derive(Drop)]
pub struct Put {
    /// The number of the table that it will be in.
    pub number: u64,
    /// Its slot.
    pub slot: usize,
    /// The entry.
    pub what: Published,
}

/// The rows, and the number of this table in the list of tables shown.
#[derive(Drop)]
pub struct Table {
    /// From 0, or `2^64 - 1` where it is larger.
    pub number: u64,
    /// The rows, by slot.
    pub rows: Vec<Row>,
}

impl Table {
    /// A copy of the entry of this slot, where there is one.
    ///
    /// - Errors: want of memory alone.
    #[tactic(auto, using(crate::proofs::RowLists::entry_here, crate::proofs::RowLists::entry_past))]
    pub fn entry(&self, slot: usize) -> Result<Option<Published>, AllocError>
        ensures { IfOk result (λ entry. entry ≡ slice_index_or (shown_entries self.now.rows.items) slot None) }
    {
        if slot < self.rows.len() {
            self.rows[slot].copy()
        } else {
            Ok(None)
        }
    }

    /// Whether this slot has this entry.
    #[tactic(auto, using(crate::proofs::RowLists::entry_here, crate::proofs::RowLists::entry_past))]
    pub fn has(&self, slot: usize, what: &Published) -> bool
        ensures { IsTrue result ↔ (slice_index_or (shown_entries self.now.rows.items) slot None ≡ Some what.now) }
    {
        slot < self.rows.len() && self.rows[slot].has(what)
    }
}

impl Absorb<Put> for Table {
    // A clause reads an array as a list, of any length.
    type State = (u64, [Row; 0]);

    ghost state = { λ t. (t.number, t.rows.items) };

    ghost applied = { taken };

    ghost never_fails = { Unit {0} };

    fn absorb_first(&mut self, put: &Put, _other: &Table) -> Result<(), AllocError> {
        self.number = put.number;
        if put.slot < self.rows.len() {
            self.rows[put.slot].fill(&put.what);
        }
        Ok(())
    }
}
