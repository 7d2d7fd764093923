//! A worker's own.

ghost use Rattle.std.specs.Prelude.{◌≡◌, ◌⊎◌, ◌<◌, IfOk};
ghost use Rattle.dual_versions.specs.Tables.{entry_at};
ghost use Rattle.dual_versions.specs.Boards.{Sees};

use crate::naming::Naming;
use dual_versions::{BoardReader, Published};
use std::alloc::AllocError;
use std::sync::ledger::Share;

/// A worker's number, how many workers there are, its share of the paths that the pool accepted, and its reader of the
/// board.
#[derive(Drop)]
pub struct Seat<N: Naming> {
    pub(crate) number: u32,
    pub(crate) workers: u32,
    pub(crate) share: Share<N>,
    pub(crate) reader: BoardReader,
    ghost part: { share.parts ≡ 1 },
    ghost within: { number < workers },
}

impl<N: Naming> Seat<N> {
    /// The worker's number, which is how many seats of the hub come before this one, and how many workers there are.
    pub fn place(&self) -> (u32, u32)
        ensures value { result ≡ (self.now.number, self.now.workers) }
        ensures within { result.0 < result.1 }
    {
        (self.number, self.workers)
    }

    /// A copy of what the board shows of the slot, without a lock and without a wait: the slot's entry in a shown table
    /// that is at least as late as this seat has seen; None exactly where that table has none there.
    ///
    /// - Errors: as of `BoardReader::read`.
    pub fn read(&mut self, slot: u32) -> Result<Option<Published>, AllocError>
        ensures later { (self.new.reader ≡ self.old.reader) ⊎ Sees self.old.reader self.new.reader }
        ensures entry { IfOk result (λ entry. Sees self.old.reader self.new.reader × (entry ≡ entry_at slot self.new.reader)) }
        ensures same { (self.new.number ≡ self.old.number) × (self.new.share ≡ self.old.share) }
    {
        self.reader.read(slot)
    }
}
