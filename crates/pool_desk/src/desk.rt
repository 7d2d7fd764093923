//! The pool and the writer of a board, in one hand.

ghost use Rattle.std.specs.Prelude.{◌≡◌, ◌+◌, ◌<◌, ◌≤◌, ◌↔◌, ◌∷◌, true, [], length, IfOk, OnOk, OnErr, IfSome, IsSome, slice_get};
ghost use Rattle.std.specs.Arc.{arc_value};
ghost use Rattle.plan_base.specs.Places.{places};
ghost use Rattle.arc_restrict.specs.Rows.{forbids};
ghost use Rattle.plan_io.specs.declared.gate.TheConstants.{MAX_WORKERS};
ghost use Rattle.dual_versions.specs.Boards.{Begins};
ghost use Rattle.search_machine.specs.declared.limits.TheConstants.{MAX_ROUNDS};
ghost use Rattle.search_machine.specs.declared.task.Task.{Task};
ghost use Rattle.search_machine.specs.State.{state_of, restriction_of};
ghost use Rattle.search_machine.specs.Changes.{is_open_state};
ghost use Rattle.pool_core.specs.Views.{IsPublishedAt, design_of};
ghost use Rattle.pool_core.specs.Foretold.{IfPublished, IfRefused};
ghost use Rattle.pool_desk.specs.Events.{OpenStep, OfferStep, GatherStep, PublishStep, SettleStep, CloseStep, ExamineStep, BetterStep, is_done, IsLawfulTask, IsSearchState};
ghost use Rattle.pool_desk.specs.Standings.{at_most, told_bound, bound_of, standing_of};
ghost use Rattle.pool_desk.specs.Shown.{entry_for, with_entry, ShowsFirst, HasFirst, HasEntry};

use arc_restrict::Restriction;
use branch_tree::LoadSplit;
use dual_versions::{BoardReader, BoardWriter, Published, board};
use plan_base::{BranchId, Design, DesignFault, Prices};
use plan_io::Standing;
use pool_core::{
    Better, Closing, ExamineFault, Examined, Gather, Offer, Offered, Opened, Pool, Publish,
    RoundFault, Settle, Task,
};
use search_machine::limits::MAX_ROUNDS;
use search_worker::Search;
use std::alloc::{AllocError, Global};
use std::marker::PhantomData;
use std::sync::{Arc, Wait};

/// A pool of the search that the type names, and the writer of a board whose entries fit it and on which nothing is
/// pending.
///
/// Each call is one event of the pool, or none where it only tells something. The board is written by `open` and
/// `publish` alone.
#[derive(Drop)]
pub struct Desk<N: Search, R: Wait + Drop> {
    pub(crate) pool: Pool,
    pub(crate) board: BoardWriter<R>,
    of: PhantomData<N>,
    ghost problem_is: { pool.problem ≡ N.problem },
    ghost cuts_are: { pool.cuts ≡ N.cuts },
    ghost budget_is: { pool.budget ≡ N.budget },
    ghost slots: { board.slots ≡ MAX_ROUNDS },
    ghost prices: { board.prices ≡ places N.problem + length N.cuts },
    ghost none_pending: { board.pending ≡ [] },
}

/// Makes the entry of a version of a node pending on a board on which nothing else is, and gives a copy of it.
fn put_entry<R: Wait + Drop>(
    board: &mut BoardWriter<R>,
    slot: u32,
    node: BranchId,
    version: u64,
    prices: &Prices,
) -> Result<Published, AllocError>
    requires slot { slot < board.old.slots }
    requires prices { length prices.now ≡ board.old.prices }
    requires none_pending { board.old.pending ≡ [] }
    ensures entry { IfOk result (λ shown. shown ≡ entry_for node version prices.now) }
    ensures pending { OnOk result (board.new ≡ record board.old { pending = (slot, entry_for node version prices.now) ∷ [] }) }
    ensures kept { OnErr result (board.new ≡ board.old) }
{
    let shown = Published {
        node,
        version,
        prices: prices.copy()?,
    };
    board.put(slot, shown.copy()?)?;
    Ok(shown)
}

/// A bound, or the cost where that is less.
fn at_most(cost: Option<u128>, bound: u128) -> u128
    ensures { result ≡ at_most cost bound }
{
    match cost {
        Some(cost) => bound.min(cost),
        None => bound,
    }
}

/// What is told of a bound beside the cost: nothing where it is negative.
fn told_bound(cost: Option<u128>, bound: i128) -> Option<u128>
    ensures { result ≡ told_bound cost bound }
{
    if bound < 0 {
        return None;
    }
    Some(at_most(cost, bound.unsigned_abs()))
}

impl<N: Search, R: Wait + Drop> Desk<N, R> {
    /// A desk for a pool, with a board of which nothing was shown yet, and so many readers of it.
    ///
    /// - Takes: 1 to 64 readers.
    /// - Errors: want of memory alone.
    pub fn begin(
        rt: R,
        alloc: Global,
        pool: Pool,
        readers: u32,
    ) -> Result<(Desk<N, R>, Vec<BoardReader>), AllocError>
        requires readers { (1 ≤ readers) × (readers ≤ MAX_WORKERS) }
        requires search { (pool.problem ≡ N.problem) × (pool.cuts ≡ N.cuts) × (pool.budget ≡ N.budget) }
        ensures pool { IfOk result (λ made. made.0.pool ≡ pool) }
        ensures readers { IfOk result (λ made. length made.1.items ≡ readers) }
    {
        let numbers = pool.instance().places() + pool.table().count();
        let (board, readers) = board(rt, alloc, MAX_ROUNDS, readers, numbers)?;
        Ok((Desk::new(pool, board), readers))
    }

    /// A pool and the writer of a board that fits it, on which nothing is pending.
    fn new(pool: Pool, board: BoardWriter<R>) -> Desk<N, R>
        requires search { (pool.problem ≡ N.problem) × (pool.cuts ≡ N.cuts) × (pool.budget ≡ N.budget) }
        requires slots { board.slots ≡ MAX_ROUNDS }
        requires prices { board.prices ≡ places pool.problem + length pool.cuts }
        requires none_pending { board.pending ≡ [] }
        ensures pool { result.pool ≡ pool }
        ensures board { result.board ≡ board }
    {
        Desk {
            pool,
            board,
            of: PhantomData,
        }
    }

    /// Whoever looks knows that the pool's state is one of the search.
    fn look(&self)
        ensures { IsSearchState N.problem N.cuts N.budget self.now.pool }
    {
        let _inst = self.pool.instance();
    }

    /// What may be done next.
    pub fn task(&mut self, worker: u32) -> Task
        ensures search { IsSearchState N.problem N.cuts N.budget self.old.pool }
        ensures unchanged { (self.new.pool ≡ self.old.pool) × (self.new.board ≡ self.old.board) }
        ensures lawful { IsLawfulTask self.old.pool result }
        ensures done { (result ≡ Task.Done) ↔ (is_done self.old.pool ≡ true) }
    {
        self.look();
        self.pool.next_task(worker)
    }

    /// The bound of the search, where it is known and not negative.
    fn bound(&self) -> Option<u128>
        ensures { result ≡ bound_of self.now.pool }
    {
        told_bound(self.pool.incumbent(), self.pool.open_bound()?)
    }

    /// How far the search is, with its bound where it is asked for.
    pub fn standing(&self, asks: bool) -> Standing
        ensures { result ≡ standing_of asks self.now.pool }
    {
        Standing {
            examined: self.pool.examined(),
            budget: self.pool.budget(),
            cost: self.pool.incumbent(),
            bound: if asks { self.bound() } else { None },
        }
    }

    /// A copy of what is published of the slot.
    pub fn prices(&self, slot: u32) -> Result<Option<Published>, AllocError>
        ensures search { IsSearchState N.problem N.cuts N.budget self.now.pool }
        ensures published { IfOk result (IsPublishedAt self.now.pool slot) }
    {
        self.look();
        self.pool.prices(slot)
    }

    /// A copy of the best design so far; None exactly where there is none.
    pub fn best_design(&self) -> Result<Option<Design>, AllocError>
        ensures search { IsSearchState N.problem N.cuts N.budget self.now.pool }
        ensures design { IfOk result (λ found. found ≡ design_of self.now.pool) }
    {
        self.look();
        self.pool.best_design()
    }

    /// What is forbidden at an open leaf, shared; None exactly where the node is none.
    pub fn ground(&self, node: BranchId) -> Result<Option<Arc<Restriction>>, AllocError>
        ensures search { IsSearchState N.problem N.cuts N.budget self.now.pool }
        ensures leaf { IfOk result (λ found. IsSome found ↔ (is_open_state (state_of self.now.pool node) ≡ true)) }
        ensures value { IfOk result (λ found. IfSome found (λ rows. IfSome (slice_get self.now.pool.nodes node.0)
            (λ x. forbids (arc_value rows) ≡ restriction_of x))) }
    {
        self.look();
        match self.pool.restriction(node) {
            Some(rows) => Ok(Some(rows.clone()?)),
            None => Ok(None),
        }
    }

    /// An opening, which shows the node's first prices on the board. The reader then sees them there.
    ///
    /// - Errors: want of memory alone. Then nothing changed.
    pub fn open<W: Wait>(
        &mut self,
        rt: &W,
        node: BranchId,
        reader: &mut BoardReader,
    ) -> Result<Result<Opened, RoundFault>, AllocError>
        ensures search { IsSearchState N.problem N.cuts N.budget self.old.pool }
        ensures event { IfOk result (λ answer. OpenStep self.old.pool node answer self.new.pool) }
        ensures shows { IfOk result (λ answer. IfOk answer (λ opened. ShowsFirst self.old.pool node self.old.board opened self.new.board)) }
        ensures refused { IfOk result (λ answer. OnErr answer ((self.new.board ≡ self.old.board) × (reader.new ≡ reader.old))) }
        ensures unchanged { OnErr result ((self.new.pool ≡ self.old.pool) × (self.new.board ≡ self.old.board) × (reader.new ≡ reader.old)) }
        ensures later { Begins reader.old reader.new }
        ensures seen { IfOk result (λ answer. IfOk answer (HasFirst self.old.pool node reader.new)) }
    {
        self.look();
        let opened = match self.pool.open_answer(node) {
            Ok(opened) => opened,
            Err(fault) => return Ok(Err(fault)),
        };
        let Some(prices) = self.pool.first_prices(node) else {
            unreachable!()
        };
        let shown = put_entry(&mut self.board, opened.slot, node, opened.version, prices)?;
        let answer = self.pool.open_round(node);
        self.board.show();
        reader.reach(rt, opened.slot, &shown);
        Ok(answer)
    }

    /// An offer.
    pub fn offer(&mut self, offer: Offer) -> Offered
        ensures search { IsSearchState N.problem N.cuts N.budget self.old.pool }
        ensures event { OfferStep self.old.pool offer result self.new.pool }
        ensures board { self.new.board ≡ self.old.board }
    {
        self.look();
        self.pool.offer(offer)
    }

    /// A gathering.
    pub fn gather(&mut self, node: BranchId, version: u64) -> Result<Gather, AllocError>
        ensures search { IsSearchState N.problem N.cuts N.budget self.old.pool }
        ensures event { GatherStep self.old.pool node version result self.new.pool }
        ensures board { self.new.board ≡ self.old.board }
    {
        self.look();
        self.pool.gather(node, version)
    }

    /// A publishing, which shows the prices on the board. The reader then sees them there.
    ///
    /// - Errors: want of memory alone. Then nothing changed.
    pub fn publish<W: Wait>(
        &mut self,
        rt: &W,
        node: BranchId,
        seen: u64,
        prices: &Prices,
        split: Option<LoadSplit>,
        reader: &mut BoardReader,
    ) -> Result<Publish, AllocError>
        ensures search { IsSearchState N.problem N.cuts N.budget self.old.pool }
        ensures event { IfOk result (λ answer. PublishStep self.old.pool node seen prices.now answer self.new.pool) }
        ensures shows { IfOk result (λ answer. IfPublished answer (λ slot version. self.new.board ≡ with_entry self.old.board slot (entry_for node version prices.now))) }
        ensures refused { IfOk result (λ answer. IfRefused answer ((self.new.board ≡ self.old.board) × (reader.new ≡ reader.old))) }
        ensures unchanged { OnErr result ((self.new.pool ≡ self.old.pool) × (self.new.board ≡ self.old.board) × (reader.new ≡ reader.old)) }
        ensures later { Begins reader.old reader.new }
        ensures seen { IfOk result (λ answer. IfPublished answer (HasEntry reader.new node prices.now)) }
    {
        self.look();
        let next = match self.pool.following(node, seen, prices) {
            Ok(next) => next,
            Err(refusal) => return Ok(refusal),
        };
        let shown = put_entry(&mut self.board, next.slot, node, next.version, prices)?;
        self.pool.publish_following(node, seen, prices, next);
        self.pool.advise(node, split);
        self.board.show();
        reader.reach(rt, next.slot, &shown);
        Ok(Publish::Published {
            slot: next.slot,
            version: next.version,
        })
    }

    /// A settling.
    pub fn settle(&mut self, node: BranchId, version: u64, split: Option<LoadSplit>) -> Settle
        ensures search { IsSearchState N.problem N.cuts N.budget self.old.pool }
        ensures event { SettleStep self.old.pool node version result self.new.pool }
        ensures board { self.new.board ≡ self.old.board }
    {
        self.look();
        self.pool.advise(node, split);
        self.pool.settle(node, version)
    }

    /// A closing.
    pub fn close(&mut self, node: BranchId) -> Closing
        ensures search { IsSearchState N.problem N.cuts N.budget self.old.pool }
        ensures event { CloseStep self.old.pool node result self.new.pool }
        ensures board { self.new.board ≡ self.old.board }
    {
        self.look();
        self.pool.close_by_bound(node)
    }

    /// An examination.
    pub fn examine(&mut self, node: BranchId) -> Result<Examined, ExamineFault>
        ensures search { IsSearchState N.problem N.cuts N.budget self.old.pool }
        ensures event { ExamineStep self.old.pool node result self.new.pool }
        ensures board { self.new.board ≡ self.old.board }
    {
        self.look();
        self.pool.examine(node)
    }

    /// A design that may be better.
    pub fn better(&mut self, design: Design) -> Result<Better, DesignFault>
        ensures search { IsSearchState N.problem N.cuts N.budget self.old.pool }
        ensures event { BetterStep self.old.pool design result self.new.pool }
        ensures board { self.new.board ≡ self.old.board }
    {
        self.look();
        self.pool.better(design)
    }

    /// The pool. The board has ended. Takes no memory.
    pub fn end(self) -> Pool
        ensures pool { result ≡ self.pool }
        ensures search { IsSearchState N.problem N.cuts N.budget result }
    {
        self.look();
        self.board.end();
        self.pool
    }
}
