//! The calls of the hub, as workers make them.

ghost use Rattle.std.specs.Prelude.{◌≡◌, ◌+◌, ◌↔◌, ⊤, true, slice_get, IfOk, OnErr, IfSome, IsSome};
ghost use Rattle.std.specs.Arc.{arc_value};
ghost use Rattle.std.proofs.Common.{rules};
ghost use Rattle.arc_restrict.specs.Rows.{forbids};
ghost use Rattle.dual_versions.specs.Boards.{Begins};
ghost use Rattle.search_machine.specs.State.{state_of, restriction_of};
ghost use Rattle.search_machine.specs.Changes.{is_open_state};
ghost use Rattle.pool_core.specs.Views.{design_of};
ghost use Rattle.pool_core.specs.Foretold.{IfPublished, IfRefused};
ghost use Rattle.pool_desk.specs.Events.{OpenStep, OfferStep, GatherStep, PublishStep, SettleStep, CloseStep, ExamineStep, BetterStep, accepted_by, is_done, IsLawfulTask};
ghost use Rattle.pool_desk.specs.Standings.{standing_of};
ghost use Rattle.pool_desk.specs.Shown.{HasFirst, HasEntry};
ghost use Rattle.pool_hub.specs.States.{HasState, HasStep};

use crate::hub::Hub;
use crate::naming::Naming;
use crate::seat::Seat;
use arc_restrict::Restriction;
use branch_tree::LoadSplit;
use cut_values::CutTable;
use dual_versions::Published;
use plan_base::{BranchId, Design, DesignFault, Instance, Prices};
use plan_io::Standing;
use pool_core::{
    Better, Closing, ExamineFault, Examined, Gather, Offer, Offered, Opened, Publish, RoundFault,
    Settle, Task,
};
use search_worker::Office;
use std::alloc::AllocError;
use std::sync::{Arc, Wait};

impl<N: Naming, R: Wait + Drop> Office<N> for Hub<N, R> {
    type Seat = Seat<N>;

    ghost of = { λ hub seat. ⊤ };

    ghost free = { λ seat. ⊤ };

    ghost ended = { λ hub seat. HasState N.problem N.cuts N.budget (λ s. is_done s ≡ true) };

    ghost keeps = { λ a b. b.number ≡ a.number };

    fn instance(&self) -> &Arc<Instance> {
        &self.problem
    }

    fn table(&self) -> &Arc<CutTable> {
        &self.table
    }

    fn place(&self, seat: &Seat<N>) -> (u32, u32) {
        seat.place()
    }

    fn may_call(&self, _seat: &Seat<N>) -> Result<(), ()> {
        Ok(())
    }

    /// What may be done next, and how far the search is then, with its bound where it is asked for.
    #[tactic(auto, using(crate::proofs::Done::nothing_left))]
    fn standing_task<T: Wait>(&self, rt: &T, seat: &mut Seat<N>, asks: bool) -> (Task, Standing)
        ensures answer { HasState N.problem N.cuts N.budget (λ s. IsLawfulTask s result.0 × (result.1 ≡ standing_of asks s)) }
        ensures seat { seat.new ≡ seat.old }
    {
        let mut kept = self.kept.lock(rt);
        let standing = kept.desk.standing(asks);
        (kept.desk.task(seat.number), standing)
    }

    /// As the board shows them, where its entry is of this version of the node, else as they come out of the lock.
    fn published<T: Wait>(
        &self,
        rt: &T,
        seat: &mut Seat<N>,
        node: BranchId,
        slot: u32,
        version: u64,
    ) -> Result<Option<Published>, AllocError> {
        if let Some(shown) = seat.read(slot)? {
            if shown.node == node && shown.version == version {
                return Ok(Some(shown));
            }
        }
        self.prices(rt, slot)
    }

    /// A copy of the best design so far.
    ///
    /// - Errors: want of memory alone.
    fn best_design<T: Wait>(
        &self,
        rt: &T,
        _seat: &mut Seat<N>,
    ) -> Result<Option<Design>, AllocError>
        ensures answer { IfOk result (λ found. HasState N.problem N.cuts N.budget (λ s. found ≡ design_of s)) }
        ensures seat { _seat.new ≡ _seat.old }
    {
        self.kept.lock(rt).desk.best_design()
    }

    /// What is forbidden at an open leaf, shared.
    ///
    /// - Errors: want of memory alone.
    fn ground<T: Wait>(
        &self,
        rt: &T,
        _seat: &mut Seat<N>,
        node: BranchId,
    ) -> Result<Option<Arc<Restriction>>, AllocError>
        ensures answer { IfOk result (λ found. HasState N.problem N.cuts N.budget (λ s. (IsSome found ↔ (is_open_state (state_of s node) ≡ true))
            × IfSome found (λ rows. IfSome (slice_get s.nodes node.0) (λ x. forbids (arc_value rows) ≡ restriction_of x)))) }
        ensures seat { _seat.new ≡ _seat.old }
    {
        self.kept.lock(rt).desk.ground(node)
    }

    /// Gives a node a round, as `Pool::open_round` says, with its prices on the board. The seat sees them there from then
    /// on, or later ones.
    ///
    /// - Errors: want of memory alone. Then nothing changed.
    #[tactic(auto, using(crate::proofs::Counts::open_counts))]
    fn open<T: Wait>(
        &self,
        rt: &T,
        seat: &mut Seat<N>,
        node: BranchId,
    ) -> Result<Result<Opened, RoundFault>, AllocError>
        ensures answer { IfOk result (λ answer. HasStep N.problem N.cuts N.budget (λ old new. OpenStep old node answer new
            × IfOk answer (HasFirst old node seat.new.reader))) }
        ensures later { Begins seat.old.reader seat.new.reader }
        ensures refused { IfOk result (λ answer. OnErr answer (seat.new.reader ≡ seat.old.reader)) }
        ensures unchanged { OnErr result (seat.new.reader ≡ seat.old.reader) }
        ensures seat { (seat.new.number ≡ seat.old.number) × (seat.new.share ≡ seat.old.share) }
    {
        self.kept.lock(rt).desk.open(rt, node, &mut seat.reader)
    }

    /// Takes what a demand has found, as `Pool::offer` says, and books it in the seat's share where it is accepted.
    /// Takes no memory.
    fn offer<T: Wait>(&self, rt: &T, seat: &mut Seat<N>, offer: Offer) -> Offered
        ensures answer { HasStep N.problem N.cuts N.budget (λ old new. OfferStep old offer result new) }
        ensures booked { seat.new.share.amount ≡ seat.old.share.amount + accepted_by result }
        ensures number { seat.new.number ≡ seat.old.number }
        ensures reader { seat.new.reader ≡ seat.old.reader }
    {
        self.kept.lock(rt).offer(offer, &mut seat.share)
    }

    /// Makes the paths of a complete round columns, as `Pool::gather` says.
    ///
    /// - Errors: want of memory alone; then some of the paths may have become columns.
    fn gather<T: Wait>(
        &self,
        rt: &T,
        _seat: &mut Seat<N>,
        node: BranchId,
        version: u64,
    ) -> Result<Gather, AllocError>
        ensures answer { HasStep N.problem N.cuts N.budget (λ old new. GatherStep old node version result new) }
        ensures seat { _seat.new ≡ _seat.old }
    {
        self.kept.lock(rt).desk.gather(node, version)
    }

    /// Gives the round of a node further prices and rates, as `Pool::publish` says, and shows them on the board. The seat sees
    /// them there from then on, or later ones.
    ///
    /// - Errors: want of memory alone. Then nothing changed.
    #[tactic(auto, using(crate::proofs::Counts::publish_counts))]
    fn publish<T: Wait>(
        &self,
        rt: &T,
        seat: &mut Seat<N>,
        node: BranchId,
        seen: u64,
        prices: &Prices,
        split: Option<LoadSplit>,
    ) -> Result<Publish, AllocError>
        ensures answer { IfOk result (λ answer. HasStep N.problem N.cuts N.budget (λ old new. PublishStep old node seen prices.now answer new)) }
        ensures seen { IfOk result (λ answer. IfPublished answer (HasEntry seat.new.reader node prices.now)) }
        ensures later { Begins seat.old.reader seat.new.reader }
        ensures refused { IfOk result (λ answer. IfRefused answer (seat.new.reader ≡ seat.old.reader)) }
        ensures unchanged { OnErr result (seat.new.reader ≡ seat.old.reader) }
        ensures seat { (seat.new.number ≡ seat.old.number) × (seat.new.share ≡ seat.old.share) }
    {
        self.kept
            .lock(rt)
            .desk
            .publish(rt, node, seen, prices, split, &mut seat.reader)
    }

    /// Marks a node of which no further version is published, as `Pool::settle` says. Takes no memory.
    fn settle<T: Wait>(
        &self,
        rt: &T,
        _seat: &mut Seat<N>,
        node: BranchId,
        version: u64,
        split: Option<LoadSplit>,
    ) -> Settle
        ensures answer { HasStep N.problem N.cuts N.budget (λ old new. SettleStep old node version result new) }
        ensures seat { _seat.new ≡ _seat.old }
    {
        self.kept.lock(rt).desk.settle(node, version, split)
    }

    /// Closes a leaf, as `Pool::close_by_bound` says. Takes no memory.
    fn close<T: Wait>(&self, rt: &T, _seat: &mut Seat<N>, node: BranchId) -> Closing
        ensures answer { HasStep N.problem N.cuts N.budget (λ old new. CloseStep old node result new) }
        ensures seat { _seat.new ≡ _seat.old }
    {
        self.kept.lock(rt).desk.close(node)
    }

    /// Closes or divides a leaf, as `Pool::examine` says.
    fn examine<T: Wait>(
        &self,
        rt: &T,
        _seat: &mut Seat<N>,
        node: BranchId,
    ) -> Result<Examined, ExamineFault>
        ensures answer { HasStep N.problem N.cuts N.budget (λ old new. ExamineStep old node result new) }
        ensures seat { _seat.new ≡ _seat.old }
    {
        self.kept.lock(rt).desk.examine(node)
    }

    /// Takes a cheaper design, as `Pool::better` says. Takes no memory.
    fn better<T: Wait>(
        &self,
        rt: &T,
        _seat: &mut Seat<N>,
        design: Design,
    ) -> Result<Better, DesignFault>
        ensures answer { HasStep N.problem N.cuts N.budget (λ old new. BetterStep old design result new) }
        ensures seat { _seat.new ≡ _seat.old }
    {
        self.kept.lock(rt).desk.better(design)
    }

    ghost same = { Prim.search rules };

    ghost further = { Prim.search rules };
}
