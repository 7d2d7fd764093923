//! The hub and its seats.

ghost use Rattle.std.specs.Prelude.{◌≡◌, ◌⊎◌, ◌<◌, ◌≤◌, IfOk};
ghost use Rattle.std.specs.Arc.{arc_value};
ghost use Rattle.dual_versions.specs.Tables.{entry_at};
ghost use Rattle.dual_versions.specs.Boards.{Sees};
ghost use Rattle.ticket_turns.specs.declared.limits.TheConstants.{MAX_CALLS};
ghost use Rattle.ticket_turns.specs.Passes.{IsAtRest};

use crate::naming::{Naming, Of, Spoken};
use cut_values::CutTable;
use dual_versions::{BoardReader, Published};
use plan_base::Instance;
use pool_desk::Desk;
use std::alloc::AllocError;
use std::sync::{Arc, Wait};
use ticket_turns::{Pass, Turns};

/// A pool and the writer of a board, which workers use in turn, and beside them the instance and the table of the pool's
/// steps and cuts.
#[derive(Drop)]
pub struct LinearHub<N: Naming, R: Wait + Drop> {
    pub(crate) turns: Turns<Desk<N, R>, Spoken, Of<N>>,
    pub(crate) problem: Arc<Instance>,
    pub(crate) table: Arc<CutTable>,
    ghost problem_is: { arc_value problem ≡ N.problem },
    ghost table_is: { (arc_value table).problem ≡ N.problem },
    ghost cuts_are: { (arc_value table).cuts ≡ N.cuts },
}

/// A worker's own: its pass, its number, how many workers there are, how many calls it made, and its reader of the board.
#[derive(Drop)]
pub struct LinearSeat<N: Naming, R: Wait + Drop> {
    pub(crate) pass: Pass<Desk<N, R>, Spoken>,
    pub(crate) number: u32,
    pub(crate) workers: u32,
    pub(crate) calls: u64,
    pub(crate) reader: BoardReader,
    ghost resting: { IsAtRest number calls pass },
    ghost within: { number < workers },
}

impl<N: Naming, R: Wait + Drop> LinearHub<N, R> {
    /// The instance of the pool that was handed in.
    pub fn instance(&self) -> &Arc<Instance>
        ensures { arc_value result.now ≡ N.problem }
    {
        &self.problem
    }

    /// The table of its steps and cuts.
    pub fn table(&self) -> &Arc<CutTable>
        ensures problem { (arc_value result.now).problem ≡ N.problem }
        ensures cuts { (arc_value result.now).cuts ≡ N.cuts }
    {
        &self.table
    }
}

impl<N: Naming, R: Wait + Drop> LinearSeat<N, R> {
    /// The seat's number, from 0, and how many workers there are.
    pub fn place(&self) -> (u32, u32)
        ensures value { result ≡ (self.now.number, self.now.workers) }
        ensures within { result.0 < result.1 }
    {
        (self.number, self.workers)
    }

    /// How many calls it made, at most `ticket_turns::MAX_CALLS`.
    pub fn calls(&self) -> u64
        ensures value { result ≡ self.now.calls }
        ensures within { result ≤ MAX_CALLS }
    {
        self.calls
    }

    /// A copy of what the board shows of the slot, without a ticket and without a wait: the slot's entry in a shown table
    /// that is at least as late as this seat has seen; None exactly where that table has none there.
    ///
    /// - Errors: as of `BoardReader::read`.
    pub fn read(&mut self, slot: u32) -> Result<Option<Published>, AllocError>
        ensures later { (self.new.reader ≡ self.old.reader) ⊎ Sees self.old.reader self.new.reader }
        ensures entry { IfOk result (λ entry. Sees self.old.reader self.new.reader × (entry ≡ entry_at slot self.new.reader)) }
        ensures same { (self.new.number ≡ self.old.number) × (self.new.calls ≡ self.old.calls) × (self.new.pass ≡ self.old.pass) }
    {
        self.reader.read(slot)
    }
}
