//! How a hub begins and ends, and how seats meet.

ghost use Rattle.std.specs.Prelude.{◌≡◌, ◌≤◌, ◌<◌, ◌+◌, length, All, IfOk};
ghost use Rattle.std.specs.Arc.{arc_value};
ghost use Rattle.search_machine.specs.Tasks.{IsSearchState};
ghost use Rattle.ticket_turns.specs.declared.limits.TheConstants.{MAX_CALLERS};
ghost use Rattle.ticket_turns.specs.Passes.{view_of, IsIdle, IsMaker};
ghost use Rattle.linear_hub.specs.Seats.{AreNew, HasMet, HasEnded, HasGathered};

use crate::hub::{LinearHub, LinearSeat};
use crate::naming::{Naming, Of, Spoken};
use cut_values::CutTable;
use dual_versions::BoardReader;
use plan_base::Instance;
use pool_core::Pool;
use pool_desk::Desk;
use std::alloc::{AllocError, Global};
use std::sync::{Arc, Wait};
use ticket_turns::{Pass, Turns};

/// So many seats, each with a reader.
fn seats_of<N: Naming, R: Wait + Drop>(
    alloc: Global,
    turns: &Turns<Desk<N, R>, Spoken, Of<N>>,
    mut maker: Pass<Desk<N, R>, Spoken>,
    seats: u32,
    mut readers: Vec<BoardReader>,
) -> Result<Vec<LinearSeat<N, R>>, AllocError>
    requires maker { (maker.table_id ≡ turns.now.table.shared.table_id) × IsMaker turns.now.callers 0 maker }
    requires seats { turns.now.callers ≡ seats }
    requires readers { length readers.items ≡ seats }
    ensures count { IfOk result (λ made. length made.items ≡ seats) }
    ensures of { IfOk result (λ made. All (λ s. s.pass.table_id ≡ turns.now.table.shared.table_id) made.items) }
    ensures new { IfOk result (λ made. AreNew (λ s. s.number) (λ s. s.calls) (λ s. view_of s.pass) made.items) }
{
    let mut list = Vec::new(alloc);
    for number in 0..seats {
        let Some(reader) = readers.pop() else {
            unreachable!()
        };
        let pass = turns.caller(&mut maker, number);
        list.push(LinearSeat {
            pass,
            number,
            workers: seats,
            calls: 0,
            reader,
        })?;
    }
    Ok(list)
}

/// The turns at a desk, and so many seats, each with a reader.
fn turns_of<N: Naming, R: Wait + Drop>(
    alloc: Global,
    desk: Desk<N, R>,
    seats: u32,
    readers: Vec<BoardReader>,
) -> Result<(Turns<Desk<N, R>, Spoken, Of<N>>, Vec<LinearSeat<N, R>>), AllocError>
    requires seats { (0 < seats) × (seats ≤ MAX_CALLERS) }
    requires opening { desk.pool ≡ N.opening }
    requires readers { length readers.items ≡ seats }
    ensures count { IfOk result (λ r. (r.0.callers ≡ seats) × (length r.1.items ≡ seats)) }
    ensures of { IfOk result (λ r. All (λ s. s.pass.table_id ≡ r.0.table.shared.table_id) r.1.items) }
    ensures new { IfOk result (λ r. AreNew (λ s. s.number) (λ s. s.calls) (λ s. view_of s.pass) r.1.items) }
{
    let (turns, maker) = Turns::new(alloc, desk, seats)?;
    match seats_of(alloc, &turns, maker, seats, readers) {
        Ok(list) => Ok((turns, list)),
        Err(AllocError) => Err(AllocError),
    }
}

/// The instance of a pool, and the table of its steps and cuts.
fn shared_with(pool: &Pool) -> Result<(Arc<Instance>, Arc<CutTable>), AllocError>
    ensures problem { IfOk result (λ r. arc_value r.0 ≡ pool.now.problem) }
    ensures table { IfOk result (λ r. ((arc_value r.1).problem ≡ pool.now.problem) × ((arc_value r.1).cuts ≡ pool.now.cuts)) }
{
    let problem = pool.instance().clone()?;
    let table = pool.table().clone()?;
    Ok((problem, table))
}

impl<N: Naming, R: Wait + Drop> LinearHub<N, R> {
    /// A hub for a pool, and its seats, each with its place as its number.
    ///
    /// - Takes: the pool whose state the type names; 1 to 64 seats.
    /// - Errors: want of memory alone.
    pub fn new(
        rt: R,
        alloc: Global,
        pool: Pool,
        seats: u32,
    ) -> Result<(LinearHub<N, R>, Vec<LinearSeat<N, R>>), AllocError>
        requires seats { (0 < seats) × (seats ≤ MAX_CALLERS) }
        requires opening { pool ≡ N.opening }
        requires search { (pool.problem ≡ N.problem) × (pool.cuts ≡ N.cuts) × (pool.budget ≡ N.budget) }
        ensures count { IfOk result (λ r. (r.0.turns.callers ≡ seats) × (length r.1.items ≡ seats)) }
        ensures of { IfOk result (λ r. All (λ s. s.pass.table_id ≡ r.0.turns.table.shared.table_id) r.1.items) }
        ensures new { IfOk result (λ r. AreNew (λ s. s.number) (λ s. s.calls) (λ s. view_of s.pass) r.1.items) }
    {
        let (problem, table) = shared_with(&pool)?;
        let (desk, readers) = Desk::begin(rt, alloc, pool, seats)?;
        match turns_of(alloc, desk, seats, readers) {
            Ok((turns, list)) => Ok((
                LinearHub {
                    turns,
                    problem,
                    table,
                },
                list,
            )),
            Err(AllocError) => Err(AllocError),
        }
    }

    /// What the first seat has seen, the second has seen too: both views begin one legal history. Takes no memory.
    pub fn meet(&self, from: &mut LinearSeat<N, R>, to: &mut LinearSeat<N, R>)
        requires from { from.old.pass.table_id ≡ self.now.turns.table.shared.table_id }
        requires to { to.old.pass.table_id ≡ self.now.turns.table.shared.table_id }
        ensures from { (from.new.pass.table_id ≡ from.old.pass.table_id) × (view_of from.new.pass ≡ view_of from.old.pass) }
        ensures hub { to.new.pass.table_id ≡ to.old.pass.table_id }
        ensures same { (to.new.number ≡ to.old.number) × (to.new.calls ≡ to.old.calls) × (to.new.reader ≡ to.old.reader) }
        ensures met { HasMet N.opening (view_of from.old.pass) (view_of to.old.pass) (view_of to.new.pass) }
    {
        self.turns.meet(&mut from.pass, &mut to.pass)
    }

    /// The pool: one legal history leads to its state, which begins with all that each seat had seen. The board has ended.
    /// Takes no memory.
    ///
    /// - Takes: all seats of this hub.
    pub fn end(self, mut seats: Vec<LinearSeat<N, R>>) -> Pool
        requires all { length seats.items ≡ self.turns.callers }
        requires some { 0 < self.turns.callers }
        requires of { All (λ s. s.pass.table_id ≡ self.turns.table.shared.table_id) seats.items }
        ensures ended { HasEnded (λ s. (view_of s.pass).seen) N.opening seats.items result }
        ensures search { IsSearchState N.problem N.cuts N.budget result }
    {
        let Some(first) = seats.pop() else {
            unreachable!()
        };
        self.end_with(first.pass, seats)
    }

    /// The same: the first seat takes in the others.
    fn end_with(self, mut root: Pass<Desk<N, R>, Spoken>, mut seats: Vec<LinearSeat<N, R>>) -> Pool
        requires root { (root.table_id ≡ self.turns.table.shared.table_id) × IsIdle root }
        requires all { root.me.0.parts + length seats.items ≡ self.turns.callers }
        requires of { All (λ s. s.pass.table_id ≡ self.turns.table.shared.table_id) seats.items }
        ensures gathered { HasGathered (λ s. (view_of s.pass).seen) N.opening root.me.0.seen seats.items result }
        ensures search { IsSearchState N.problem N.cuts N.budget result }
    {
        let turns = self.turns;
        while let Some(one) = seats.pop() {
            turns.take_in(&mut root, one.pass);
        }
        turns.close(root).end()
    }
}
