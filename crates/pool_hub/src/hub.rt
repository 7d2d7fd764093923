//! The hub.

ghost use Rattle.std.specs.Prelude.{◌≡◌, ◌<◌, ◌≤◌, length, IfOk, sum_by};
ghost use Rattle.std.specs.Arc.{arc_value};
ghost use Rattle.pool_core.specs.Views.{IsPublishedAt};
ghost use Rattle.pool_hub.specs.States.{HasState};
ghost use Rattle.pool_desk.specs.Events.{IsLawfulTask, IsSearchState};
ghost use Rattle.plan_io.specs.declared.gate.TheConstants.{MAX_WORKERS};

use crate::kept::Kept;
use crate::naming::Naming;
use crate::seat::Seat;
use cut_values::CutTable;
use dual_versions::{BoardReader, Published};
use plan_base::Instance;
use pool_core::{Pool, Task};
use pool_desk::Desk;
use std::alloc::{AllocError, Global};
use std::sync::ledger::{Blank, Share};
use std::sync::{Arc, Mutex, Wait};

/// The pool and the writer of a board behind one lock, and beside it the instance and the table of its steps and cuts, for
/// those who work on it.
///
/// Each call takes the lock, makes the pool's call once and lets go of the lock. Its answer is one that the pool gives in
/// some sound state of this search. The prices of each version are on the board, which seats read without the lock.
#[derive(Drop)]
pub struct Hub<N: Naming, R: Wait + Drop> {
    pub(crate) kept: Mutex<Kept<N, R>>,
    pub(crate) problem: Arc<Instance>,
    pub(crate) table: Arc<CutTable>,
    ghost problem_is: { arc_value problem ≡ N.problem },
    ghost table_is: { (arc_value table).problem ≡ N.problem },
    ghost cuts_are: { (arc_value table).cuts ≡ N.cuts },
}

/// So many seats, each with a part of the ledger and nothing booked, and with a reader.
fn seats_of<N: Naming>(
    alloc: Global,
    mut all: Share<N>,
    workers: u32,
    mut readers: Vec<BoardReader>,
) -> Result<Vec<Seat<N>>, AllocError>
    requires few { workers ≤ MAX_WORKERS }
    requires readers { length readers.items ≡ workers }
    requires all { (all.parts ≡ workers) × (all.amount ≡ 0) }
    ensures count { IfOk result (λ seats. length seats.items ≡ workers) }
    ensures booked { IfOk result (λ seats. sum_by (λ s. s.share.amount) seats.items ≡ 0) }
{
    let mut seats = Vec::new(alloc);
    for number in 0..workers {
        let Some(reader) = readers.pop() else {
            unreachable!()
        };
        let share = all.split_off(1, 0);
        seats.push(Seat {
            number,
            workers,
            share,
            reader,
        })?;
    }
    Ok(seats)
}

/// The shares of all seats as one.
fn merged<N: Naming>(mut seats: Vec<Seat<N>>) -> Share<N>
    requires { 0 < length seats.items }
    ensures parts { result.parts ≡ length seats.items }
    ensures amount { result.amount ≡ sum_by (λ s. s.share.amount) seats.items }
{
    let Some(first) = seats.pop() else {
        unreachable!()
    };
    let mut all = first.share;
    while let Some(seat) = seats.pop() {
        all.merge(seat.share);
    }
    all
}

impl<N: Naming, R: Wait + Drop> Hub<N, R> {
    /// A hub for a pool, and a seat for each worker.
    ///
    /// - Takes: the blank of a ledger with as many parts as there are workers; a pool that has accepted nothing yet;
    ///   1 to 64 workers.
    /// - Errors: want of memory alone.
    pub fn new(
        rt: R,
        alloc: Global,
        blank: Blank,
        pool: Pool,
        workers: u32,
    ) -> Result<(Hub<N, R>, Vec<Seat<N>>), AllocError>
        requires workers { (1 ≤ workers) × (workers ≤ MAX_WORKERS) }
        requires name { blank.name ≡ N.name }
        requires parts { (blank.parts ≡ N.parts) × (N.parts ≡ workers) }
        requires search { (pool.problem ≡ N.problem) × (pool.cuts ≡ N.cuts) × (pool.budget ≡ N.budget) }
        requires fresh { pool.accepted ≡ 0 }
        ensures count { IfOk result (λ made. length made.1.items ≡ workers) }
        ensures booked { IfOk result (λ made. sum_by (λ s. s.share.amount) made.1.items ≡ 0) }
    {
        let problem = pool.instance().clone()?;
        let table = pool.table().clone()?;
        let (desk, readers) = Desk::begin(rt, alloc, pool, workers)?;
        let (offers, all) = blank.open::<N>();
        let seats = seats_of(alloc, all, workers, readers)?;
        let kept = Kept { desk, offers };
        Ok((Hub::of(kept, problem, table), seats))
    }

    /// What is kept, behind a lock, and what is shared beside it.
    fn of(kept: Kept<N, R>, problem: Arc<Instance>, table: Arc<CutTable>) -> Hub<N, R>
        requires problem { arc_value problem ≡ N.problem }
        requires table { (arc_value table).problem ≡ N.problem }
        requires cuts { (arc_value table).cuts ≡ N.cuts }
    {
        Hub {
            kept: Mutex::new(kept),
            problem,
            table,
        }
    }

    /// What may be done next.
    pub fn task<W: Wait>(&self, rt: &W, seat: &mut Seat<N>) -> Task
        ensures answer { HasState N.problem N.cuts N.budget (λ s. IsLawfulTask s result) }
        ensures seat { seat.new ≡ seat.old }
    {
        self.kept.lock(rt).desk.task(seat.number)
    }

    /// A copy of what is published of the slot.
    ///
    /// - Errors: want of memory alone.
    pub fn prices<W: Wait>(&self, rt: &W, slot: u32) -> Result<Option<Published>, AllocError>
        ensures answer { IfOk result (λ found. HasState N.problem N.cuts N.budget (λ s. IsPublishedAt s slot found)) }
    {
        self.kept.lock(rt).desk.prices(slot)
    }

    /// The pool: a sound state of this search, which has accepted what all seats have booked. The board has ended. Takes no
    /// memory.
    ///
    /// - Takes: all seats of this hub.
    pub fn end(self, seats: Vec<Seat<N>>) -> Pool
        requires all { length seats.items ≡ N.parts }
        requires some { 0 < length seats.items }
        ensures accepted { result.accepted ≡ sum_by (λ s. s.share.amount) seats.items }
        ensures search { IsSearchState N.problem N.cuts N.budget result }
    {
        let all = merged(seats);
        self.kept.into_inner().end(all)
    }
}
