//! A reader of a board.

ghost use Rattle.std.specs.Prelude.{◌≡◌, ◌⊎◌, ◌-◌, ◌↔◌, Some, length, IfOk, IsTrue};
ghost use Rattle.dual_versions.specs.Tables.{entry_at};
ghost use Rattle.dual_versions.specs.Boards.{Sees, saturated};

use crate::published::Published;
use crate::rule::{Enters, TableReader};
use core::mem::replace_with;
use std::alloc::AllocError;
use std::marker::Model;
use std::sync::Wait;
use std::thread;

/// One that reads a board, without a lock and without a wait. Contracts see it as the list of tables shown, as far as it
/// has seen it.
#[derive(Drop)]
pub struct BoardReader {
    pub(crate) reader: TableReader,
    pub(crate) number: u64,
}

impl Model for BoardReader {
    ghost use Rattle.std.specs.Prelude.{◌≡◌, ◌-◌, List, false, length};
    ghost use Rattle.dual_versions.specs.Tables.{Entries};
    ghost use Rattle.dual_versions.specs.Boards.{saturated};
    ghost use Rattle.dual_versions.specs.Views.{known_by};

    ghost Value = { List Entries };

    ghost view = { λ s. (known_by s.reader.place).seen };

    ghost invariant = { λ s. ((known_by s.reader.place).writes ≡ false) × (s.number ≡ saturated (length (known_by s.reader.place).seen - 1)) };
}

impl BoardReader {
    /// A copy of the slot's entry in a shown table that is at least as late as this reader has seen; None exactly
    /// where that table has none there.
    ///
    /// - Errors: want of memory; or the reader is not let in, which happens only where the writer has ended. The reader
    ///   may have seen a later table then.
    /// - Time: linear in the prices and rates. No lock, no wait.
    pub fn read(&mut self, slot: u32) -> Result<Option<Published>, AllocError>
        ensures later { (self.new ≡ self.old) ⊎ Sees self.old self.new }
        ensures entry { IfOk result (λ entry. Sees self.old self.new × (entry ≡ entry_at slot self.new)) }
    {
        replace_with(self, slot, |reader, slot| reader.look(slot as usize))
    }

    /// Whether the slot has this entry in a shown table that is at least as late as this reader has seen. Takes no memory.
    ///
    /// - Errors: the reader is not let in.
    fn shows(&mut self, slot: u32, what: &Published) -> Result<bool, AllocError>
        ensures later { (self.new ≡ self.old) ⊎ Sees self.old self.new }
        ensures entry { IfOk result (λ shows. Sees self.old self.new × (IsTrue shows ↔ (entry_at slot self.new ≡ Some what.now))) }
    {
        replace_with(self, (slot, what), |reader, (slot, what)| {
            reader.compare(slot as usize, what)
        })
    }

    /// Waits until the slot has this entry in a shown table. Takes no memory.
    pub fn reach<R: Wait>(&mut self, rt: &R, slot: u32, what: &Published)
        ensures { Sees self.old self.new × (entry_at slot self.new ≡ Some what.now) }
    {
        for _ in rt.forever() {
            if let Ok(true) = self.shows(slot, what) {
                return;
            }
            thread::yield_now();
        }
        unreachable!()
    }

    /// As `read`.
    #[tactic(auto, using(crate::proofs::Moves::enters))]
    fn look(self, slot: usize) -> (BoardReader, Result<Option<Published>, AllocError>)
        ensures later { (result.0 ≡ self) ⊎ Sees self result.0 }
        ensures entry { IfOk result.1 (λ entry. Sees self result.0 × (entry ≡ entry_at slot result.0)) }
    {
        let BoardReader { reader, number } = self;
        match reader.enter_as::<Enters>() {
            Ok(reading) => {
                let table = reading.get();
                let number = table.number;
                let entry = table.entry(slot);
                let reader = reading.leave();
                (BoardReader { reader, number }, entry)
            }
            Err(reader) => (BoardReader { reader, number }, Err(AllocError)),
        }
    }

    /// As `shows`.
    #[tactic(auto, using(crate::proofs::Moves::enters))]
    fn compare(self, slot: usize, what: &Published) -> (BoardReader, Result<bool, AllocError>)
        ensures later { (result.0 ≡ self) ⊎ Sees self result.0 }
        ensures entry { IfOk result.1 (λ shows. Sees self result.0 × (IsTrue shows ↔ (entry_at slot result.0 ≡ Some what.now))) }
    {
        let BoardReader { reader, number } = self;
        match reader.enter_as::<Enters>() {
            Ok(reading) => {
                let table = reading.get();
                let number = table.number;
                let has = table.has(slot, what);
                let reader = reading.leave();
                (BoardReader { reader, number }, Ok(has))
            }
            Err(reader) => (BoardReader { reader, number }, Err(AllocError)),
        }
    }

    /// The number of the table that this reader has seen last in the list of tables shown, from 0, or `2^64 - 1` where the
    /// number is larger. Takes no memory.
    pub fn seen(&self) -> u64
        ensures { result ≡ saturated (length self.now - 1) }
    {
        self.number
    }
}
