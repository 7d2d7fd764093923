//! The calls of the hub: each is the next entry of its one history.

ghost use Rattle.std.specs.Prelude.{◌≡◌, ◌<◌, ◌+◌, IfOk, OnErr, IfSome};
ghost use Rattle.std.specs.Arc.{arc_value};
ghost use Rattle.dual_versions.specs.Boards.{Begins};
ghost use Rattle.ticket_turns.specs.declared.limits.TheConstants.{MAX_CALLS};
ghost use Rattle.ticket_turns.specs.Passes.{view_of};
ghost use Rattle.pool_core.specs.Foretold.{IfPublished, IfRefused};
ghost use Rattle.pool_desk.specs.Standings.{standing_of};
ghost use Rattle.pool_desk.specs.Shown.{HasFirst, HasEntry};
ghost use Rattle.linear_hub.specs.Calls.{Tasking, Opening, Offering, Gathering, Publishing, Settling, Closing_of, Examining, Bettering, Grounding, Pricing, Learning, shared_rows};
ghost use Rattle.linear_hub.specs.Seats.{HasCalled, HasFound};
ghost use Rattle.linear_hub.specs.Works.{HasWorkedOn, HasEndedWell};
ghost use Rattle.linear_hub.specs.Laws.{seat_same, seat_more};

use crate::hub::{LinearHub, LinearSeat};
use crate::naming::{Designs, Naming, Offers, Versions};
use arc_restrict::Restriction;
use branch_tree::LoadSplit;
use cut_values::CutTable;
use dual_versions::Published;
use plan_base::{BranchId, Design, DesignFault, Instance, Prices};
use plan_io::Standing;
use pool_core::{
    Better, Closing, ExamineFault, Examined, Gather, Offer, Offered, Opened, Publish, RoundFault,
    Settle, Task,
};
use search_worker::Office;
use std::alloc::AllocError;
use std::marker::Brand;
use std::sync::{Arc, Wait};
use ticket_turns::MAX_CALLS;

/// What the board shows of a version of a node; None where the seat sees another entry in the slot, or none.
fn shown_of<N: Naming, R: Wait + Drop>(
    seat: &mut LinearSeat<N, R>,
    node: BranchId,
    slot: u32,
    version: u64,
) -> Result<Option<Published>, AllocError>
    ensures shown { IfOk result (λ found. IfSome found (λ shown. (shown.node ≡ node) × (shown.version ≡ version))) }
    ensures same { (seat.new.number ≡ seat.old.number) × (seat.new.calls ≡ seat.old.calls) × (seat.new.pass ≡ seat.old.pass) }
{
    let Some(shown) = seat.read(slot)? else {
        return Ok(None);
    };
    if shown.node == node && shown.version == version {
        Ok(Some(shown))
    } else {
        Ok(None)
    }
}

impl<N: Naming, R: Wait + Drop> Office<N> for LinearHub<N, R> {
    type Seat = LinearSeat<N, R>;

    ghost of = { λ hub seat. seat.pass.table_id ≡ hub.turns.table.shared.table_id };

    ghost free = { λ seat. seat.calls < MAX_CALLS };

    ghost ended = { λ hub seat. HasEndedWell seat.calls (view_of seat.pass) };

    ghost keeps = { λ a b. HasWorkedOn a.pass b.pass };

    fn instance(&self) -> &Arc<Instance> {
        self.instance()
    }

    fn table(&self) -> &Arc<CutTable> {
        self.table()
    }

    fn place(&self, seat: &LinearSeat<N, R>) -> (u32, u32) {
        seat.place()
    }

    fn may_call(&self, seat: &LinearSeat<N, R>) -> Result<(), ()> {
        if seat.calls() < MAX_CALLS {
            Ok(())
        } else {
            Err(())
        }
    }

    /// What may be done next, and how far the search is then, with its bound where it is asked for. The standing is told
    /// beside the answer, and stands in no entry.
    #[tactic(auto, using(ticket_turns::proofs::Calling::ready, crate::proofs::WorkedCalls::called_worked, crate::proofs::WorkedCalls::task_ended))]
    fn standing_task<T: Wait>(
        &self,
        rt: &T,
        seat: &mut LinearSeat<N, R>,
        asks: bool,
    ) -> (Task, Standing)
        requires hub { seat.old.pass.table_id ≡ self.now.turns.table.shared.table_id }
        requires calls { seat.old.calls < MAX_CALLS }
        ensures hub { seat.new.pass.table_id ≡ seat.old.pass.table_id }
        ensures called { HasCalled N.opening (view_of seat.old.pass) (view_of seat.new.pass) (Tasking result.0) }
        ensures standing { HasFound N.opening (view_of seat.new.pass).seen (λ s. result.1 ≡ standing_of asks s) }
        ensures same { (seat.new.number ≡ seat.old.number) × (seat.new.calls ≡ seat.old.calls + 1) × (seat.new.reader ≡ seat.old.reader) }
    {
        let mut desk = self.turns.enter(rt, &mut seat.pass);
        let standing = desk.standing(asks);
        let answer = desk.task(seat.number);
        self.turns
            .leave::<Brand, _, _>(&mut seat.pass, desk, &(), &answer);
        seat.calls += 1;
        (answer, standing)
    }

    /// As the board shows them, where its entry is of this version of the node. No call is made for them.
    #[tactic(auto, using(crate::proofs::WorkedCalls::worked_read))]
    fn published<T: Wait>(
        &self,
        _rt: &T,
        seat: &mut LinearSeat<N, R>,
        node: BranchId,
        slot: u32,
        version: u64,
    ) -> Result<Option<Published>, AllocError> {
        shown_of(seat, node, slot, version)
    }

    /// Gives a node a round, as `Pool::open_round` says, with its prices on the board. The seat sees them there from then
    /// on, or later ones.
    ///
    /// - Errors: want of memory alone. Then nothing changed but the history.
    #[tactic(auto, using(ticket_turns::proofs::Calling::ready, crate::proofs::WorkedCalls::called_worked))]
    fn open<T: Wait>(
        &self,
        rt: &T,
        seat: &mut LinearSeat<N, R>,
        node: BranchId,
    ) -> Result<Result<Opened, RoundFault>, AllocError>
        requires hub { seat.old.pass.table_id ≡ self.now.turns.table.shared.table_id }
        requires calls { seat.old.calls < MAX_CALLS }
        ensures hub { seat.new.pass.table_id ≡ seat.old.pass.table_id }
        ensures called { HasCalled N.opening (view_of seat.old.pass) (view_of seat.new.pass) (Opening node result) }
        ensures same { (seat.new.number ≡ seat.old.number) × (seat.new.calls ≡ seat.old.calls + 1) }
        ensures seen { IfOk result (λ answer. IfOk answer (λ opened. HasFound N.opening (view_of seat.new.pass).seen (λ s. HasFirst s node seat.new.reader opened))) }
        ensures later { Begins seat.old.reader seat.new.reader }
        ensures refused { IfOk result (λ answer. OnErr answer (seat.new.reader ≡ seat.old.reader)) }
        ensures unchanged { OnErr result (seat.new.reader ≡ seat.old.reader) }
    {
        let mut desk = self.turns.enter(rt, &mut seat.pass);
        let answer = desk.open(rt, node, &mut seat.reader);
        self.turns
            .leave::<Brand, _, _>(&mut seat.pass, desk, &node, &answer);
        seat.calls += 1;
        answer
    }

    /// Takes what a demand has found, as `Pool::offer` says. Takes no memory.
    #[tactic(auto, using(crate::proofs::WorkedCalls::called_worked))]
    fn offer<T: Wait>(&self, rt: &T, seat: &mut LinearSeat<N, R>, offer: Offer) -> Offered
        requires hub { seat.old.pass.table_id ≡ self.now.turns.table.shared.table_id }
        requires calls { seat.old.calls < MAX_CALLS }
        ensures hub { seat.new.pass.table_id ≡ seat.old.pass.table_id }
        ensures called { HasCalled N.opening (view_of seat.old.pass) (view_of seat.new.pass) (Offering offer result) }
        ensures same { (seat.new.number ≡ seat.old.number) × (seat.new.calls ≡ seat.old.calls + 1) × (seat.new.reader ≡ seat.old.reader) }
    {
        self.offer_as::<Brand, T>(rt, seat, offer)
    }

    /// Makes the paths of a complete round columns, as `Pool::gather` says.
    ///
    /// - Errors: want of memory alone; then some of the paths may have become columns.
    #[tactic(auto, using(ticket_turns::proofs::Calling::ready, crate::proofs::WorkedCalls::called_worked))]
    fn gather<T: Wait>(
        &self,
        rt: &T,
        seat: &mut LinearSeat<N, R>,
        node: BranchId,
        version: u64,
    ) -> Result<Gather, AllocError>
        requires hub { seat.old.pass.table_id ≡ self.now.turns.table.shared.table_id }
        requires calls { seat.old.calls < MAX_CALLS }
        ensures hub { seat.new.pass.table_id ≡ seat.old.pass.table_id }
        ensures called { HasCalled N.opening (view_of seat.old.pass) (view_of seat.new.pass) (Gathering node version result) }
        ensures same { (seat.new.number ≡ seat.old.number) × (seat.new.calls ≡ seat.old.calls + 1) × (seat.new.reader ≡ seat.old.reader) }
    {
        let mut desk = self.turns.enter(rt, &mut seat.pass);
        let answer = desk.gather(node, version);
        self.turns
            .leave::<Brand, _, _>(&mut seat.pass, desk, &(node, version), &answer);
        seat.calls += 1;
        answer
    }

    /// Gives the round of a node further prices and rates, as `Pool::publish` says, and shows them on the board. The seat sees
    /// them there from then on, or later ones.
    ///
    /// - Errors: want of memory alone. Then nothing changed but the history.
    #[tactic(auto, using(crate::proofs::WorkedCalls::called_worked))]
    fn publish<T: Wait>(
        &self,
        rt: &T,
        seat: &mut LinearSeat<N, R>,
        node: BranchId,
        seen: u64,
        prices: &Prices,
        split: Option<LoadSplit>,
    ) -> Result<Publish, AllocError>
        requires hub { seat.old.pass.table_id ≡ self.now.turns.table.shared.table_id }
        requires calls { seat.old.calls < MAX_CALLS }
        ensures hub { seat.new.pass.table_id ≡ seat.old.pass.table_id }
        ensures called { HasCalled N.opening (view_of seat.old.pass) (view_of seat.new.pass) (Publishing node seen prices.now result) }
        ensures same { (seat.new.number ≡ seat.old.number) × (seat.new.calls ≡ seat.old.calls + 1) }
        ensures seen { IfOk result (λ answer. IfPublished answer (HasEntry seat.new.reader node prices.now)) }
        ensures later { Begins seat.old.reader seat.new.reader }
        ensures refused { IfOk result (λ answer. IfRefused answer (seat.new.reader ≡ seat.old.reader)) }
        ensures unchanged { OnErr result (seat.new.reader ≡ seat.old.reader) }
    {
        self.publish_as::<Brand, T>(rt, seat, node, seen, prices, split)
    }

    /// Marks a node of which no further version is published, as `Pool::settle` says. Takes no memory.
    #[tactic(auto, using(ticket_turns::proofs::Calling::ready, crate::proofs::WorkedCalls::called_worked))]
    fn settle<T: Wait>(
        &self,
        rt: &T,
        seat: &mut LinearSeat<N, R>,
        node: BranchId,
        version: u64,
        split: Option<LoadSplit>,
    ) -> Settle
        requires hub { seat.old.pass.table_id ≡ self.now.turns.table.shared.table_id }
        requires calls { seat.old.calls < MAX_CALLS }
        ensures hub { seat.new.pass.table_id ≡ seat.old.pass.table_id }
        ensures called { HasCalled N.opening (view_of seat.old.pass) (view_of seat.new.pass) (Settling node version result) }
        ensures same { (seat.new.number ≡ seat.old.number) × (seat.new.calls ≡ seat.old.calls + 1) × (seat.new.reader ≡ seat.old.reader) }
    {
        let mut desk = self.turns.enter(rt, &mut seat.pass);
        let answer = desk.settle(node, version, split);
        self.turns
            .leave::<Brand, _, _>(&mut seat.pass, desk, &(node, version), &answer);
        seat.calls += 1;
        answer
    }

    /// Closes a leaf, as `Pool::close_by_bound` says. Takes no memory.
    #[tactic(auto, using(ticket_turns::proofs::Calling::ready, crate::proofs::WorkedCalls::called_worked))]
    fn close<T: Wait>(&self, rt: &T, seat: &mut LinearSeat<N, R>, node: BranchId) -> Closing
        requires hub { seat.old.pass.table_id ≡ self.now.turns.table.shared.table_id }
        requires calls { seat.old.calls < MAX_CALLS }
        ensures hub { seat.new.pass.table_id ≡ seat.old.pass.table_id }
        ensures called { HasCalled N.opening (view_of seat.old.pass) (view_of seat.new.pass) (Closing_of node result) }
        ensures same { (seat.new.number ≡ seat.old.number) × (seat.new.calls ≡ seat.old.calls + 1) × (seat.new.reader ≡ seat.old.reader) }
    {
        let mut desk = self.turns.enter(rt, &mut seat.pass);
        let answer = desk.close(node);
        self.turns
            .leave::<Brand, _, _>(&mut seat.pass, desk, &node, &answer);
        seat.calls += 1;
        answer
    }

    /// Closes or divides a leaf, as `Pool::examine` says.
    #[tactic(auto, using(ticket_turns::proofs::Calling::ready, crate::proofs::WorkedCalls::called_worked))]
    fn examine<T: Wait>(
        &self,
        rt: &T,
        seat: &mut LinearSeat<N, R>,
        node: BranchId,
    ) -> Result<Examined, ExamineFault>
        requires hub { seat.old.pass.table_id ≡ self.now.turns.table.shared.table_id }
        requires calls { seat.old.calls < MAX_CALLS }
        ensures hub { seat.new.pass.table_id ≡ seat.old.pass.table_id }
        ensures called { HasCalled N.opening (view_of seat.old.pass) (view_of seat.new.pass) (Examining node result) }
        ensures same { (seat.new.number ≡ seat.old.number) × (seat.new.calls ≡ seat.old.calls + 1) × (seat.new.reader ≡ seat.old.reader) }
    {
        let mut desk = self.turns.enter(rt, &mut seat.pass);
        let answer = desk.examine(node);
        self.turns
            .leave::<Brand, _, _>(&mut seat.pass, desk, &node, &answer);
        seat.calls += 1;
        answer
    }

    /// Takes a cheaper design, as `Pool::better` says. Takes no memory.
    #[tactic(auto, using(crate::proofs::WorkedCalls::called_worked))]
    fn better<T: Wait>(
        &self,
        rt: &T,
        seat: &mut LinearSeat<N, R>,
        design: Design,
    ) -> Result<Better, DesignFault>
        requires hub { seat.old.pass.table_id ≡ self.now.turns.table.shared.table_id }
        requires calls { seat.old.calls < MAX_CALLS }
        ensures hub { seat.new.pass.table_id ≡ seat.old.pass.table_id }
        ensures called { HasCalled N.opening (view_of seat.old.pass) (view_of seat.new.pass) (Bettering design result) }
        ensures same { (seat.new.number ≡ seat.old.number) × (seat.new.calls ≡ seat.old.calls + 1) × (seat.new.reader ≡ seat.old.reader) }
    {
        self.better_as::<Brand, T>(rt, seat, design)
    }

    /// What is forbidden at an open leaf, shared.
    ///
    /// - Errors: want of memory alone.
    #[tactic(auto, using(ticket_turns::proofs::Calling::ready, crate::proofs::WorkedCalls::called_worked))]
    fn ground<T: Wait>(
        &self,
        rt: &T,
        seat: &mut LinearSeat<N, R>,
        node: BranchId,
    ) -> Result<Option<Arc<Restriction>>, AllocError>
        requires hub { seat.old.pass.table_id ≡ self.now.turns.table.shared.table_id }
        requires calls { seat.old.calls < MAX_CALLS }
        ensures hub { seat.new.pass.table_id ≡ seat.old.pass.table_id }
        ensures called { HasCalled N.opening (view_of seat.old.pass) (view_of seat.new.pass) (Grounding node (shared_rows arc_value result)) }
        ensures same { (seat.new.number ≡ seat.old.number) × (seat.new.calls ≡ seat.old.calls + 1) × (seat.new.reader ≡ seat.old.reader) }
    {
        let desk = self.turns.enter(rt, &mut seat.pass);
        let answer = desk.ground(node);
        self.turns
            .leave::<Brand, _, _>(&mut seat.pass, desk, &node, &answer);
        seat.calls += 1;
        answer
    }

    /// A copy of the best design so far.
    ///
    /// - Errors: want of memory alone.
    #[tactic(auto, using(ticket_turns::proofs::Calling::ready, crate::proofs::WorkedCalls::called_worked))]
    fn best_design<T: Wait>(
        &self,
        rt: &T,
        seat: &mut LinearSeat<N, R>,
    ) -> Result<Option<Design>, AllocError>
        requires hub { seat.old.pass.table_id ≡ self.now.turns.table.shared.table_id }
        requires calls { seat.old.calls < MAX_CALLS }
        ensures hub { seat.new.pass.table_id ≡ seat.old.pass.table_id }
        ensures called { HasCalled N.opening (view_of seat.old.pass) (view_of seat.new.pass) (Learning result) }
        ensures same { (seat.new.number ≡ seat.old.number) × (seat.new.calls ≡ seat.old.calls + 1) × (seat.new.reader ≡ seat.old.reader) }
    {
        let desk = self.turns.enter(rt, &mut seat.pass);
        let answer = desk.best_design();
        self.turns
            .leave::<Brand, _, _>(&mut seat.pass, desk, &(), &answer);
        seat.calls += 1;
        answer
    }

    ghost same = { λ a. seat_same a.pass };

    ghost further = { λ a b c. seat_more a.pass b.pass c.pass };
}

impl<N: Naming, R: Wait + Drop> LinearHub<N, R> {
    /// What may be done next.
    pub fn task<T: Wait>(&self, rt: &T, seat: &mut LinearSeat<N, R>) -> Task
        requires hub { seat.old.pass.table_id ≡ self.now.turns.table.shared.table_id }
        requires calls { seat.old.calls < MAX_CALLS }
        ensures hub { seat.new.pass.table_id ≡ seat.old.pass.table_id }
        ensures called { HasCalled N.opening (view_of seat.old.pass) (view_of seat.new.pass) (Tasking result) }
        ensures same { (seat.new.number ≡ seat.old.number) × (seat.new.calls ≡ seat.old.calls + 1) × (seat.new.reader ≡ seat.old.reader) }
    {
        let (task, _standing) = self.standing_task(rt, seat, false);
        task
    }

    /// A copy of what is published of the slot.
    ///
    /// - Errors: want of memory alone.
    #[tactic(auto, using(ticket_turns::proofs::Calling::ready))]
    pub fn prices<T: Wait>(
        &self,
        rt: &T,
        seat: &mut LinearSeat<N, R>,
        slot: u32,
    ) -> Result<Option<Published>, AllocError>
        requires hub { seat.old.pass.table_id ≡ self.now.turns.table.shared.table_id }
        requires calls { seat.old.calls < MAX_CALLS }
        ensures hub { seat.new.pass.table_id ≡ seat.old.pass.table_id }
        ensures called { HasCalled N.opening (view_of seat.old.pass) (view_of seat.new.pass) (Pricing slot result) }
        ensures same { (seat.new.number ≡ seat.old.number) × (seat.new.calls ≡ seat.old.calls + 1) × (seat.new.reader ≡ seat.old.reader) }
    {
        let desk = self.turns.enter(rt, &mut seat.pass);
        let answer = desk.prices(slot);
        self.turns
            .leave::<Brand, _, _>(&mut seat.pass, desk, &slot, &answer);
        seat.calls += 1;
        answer
    }

    /// The same, of an offer that the type names.
    #[tactic(auto, using(ticket_turns::proofs::Calling::ready))]
    fn offer_as<W: Offers, T: Wait>(
        &self,
        rt: &T,
        seat: &mut LinearSeat<N, R>,
        offer: Offer,
    ) -> Offered
        requires named { W.offer ≡ offer }
        requires hub { seat.old.pass.table_id ≡ self.now.turns.table.shared.table_id }
        requires calls { seat.old.calls < MAX_CALLS }
        ensures hub { seat.new.pass.table_id ≡ seat.old.pass.table_id }
        ensures called { HasCalled N.opening (view_of seat.old.pass) (view_of seat.new.pass) (Offering W.offer result) }
        ensures same { (seat.new.number ≡ seat.old.number) × (seat.new.calls ≡ seat.old.calls + 1) × (seat.new.reader ≡ seat.old.reader) }
    {
        let mut desk = self.turns.enter(rt, &mut seat.pass);
        let answer = desk.offer(offer);
        self.turns
            .leave::<Brand, _, _>(&mut seat.pass, desk, &(), &answer);
        seat.calls += 1;
        answer
    }

    /// The same, of a node and a version that the type names.
    #[tactic(auto, using(ticket_turns::proofs::Calling::ready))]
    fn publish_as<W: Versions, T: Wait>(
        &self,
        rt: &T,
        seat: &mut LinearSeat<N, R>,
        node: BranchId,
        seen: u64,
        prices: &Prices,
        split: Option<LoadSplit>,
    ) -> Result<Publish, AllocError>
        requires named { (W.node ≡ node) × (W.seen ≡ seen) }
        requires hub { seat.old.pass.table_id ≡ self.now.turns.table.shared.table_id }
        requires calls { seat.old.calls < MAX_CALLS }
        ensures hub { seat.new.pass.table_id ≡ seat.old.pass.table_id }
        ensures called { HasCalled N.opening (view_of seat.old.pass) (view_of seat.new.pass) (Publishing W.node W.seen prices.now result) }
        ensures same { (seat.new.number ≡ seat.old.number) × (seat.new.calls ≡ seat.old.calls + 1) }
        ensures seen { IfOk result (λ answer. IfPublished answer (HasEntry seat.new.reader node prices.now)) }
        ensures later { Begins seat.old.reader seat.new.reader }
        ensures refused { IfOk result (λ answer. IfRefused answer (seat.new.reader ≡ seat.old.reader)) }
        ensures unchanged { OnErr result (seat.new.reader ≡ seat.old.reader) }
    {
        let mut desk = self.turns.enter(rt, &mut seat.pass);
        let answer = desk.publish(rt, node, seen, prices, split, &mut seat.reader);
        self.turns
            .leave::<Brand, _, _>(&mut seat.pass, desk, prices, &answer);
        seat.calls += 1;
        answer
    }

    /// The same, of a design that the type names.
    #[tactic(auto, using(ticket_turns::proofs::Calling::ready))]
    fn better_as<W: Designs, T: Wait>(
        &self,
        rt: &T,
        seat: &mut LinearSeat<N, R>,
        design: Design,
    ) -> Result<Better, DesignFault>
        requires named { W.design ≡ design }
        requires hub { seat.old.pass.table_id ≡ self.now.turns.table.shared.table_id }
        requires calls { seat.old.calls < MAX_CALLS }
        ensures hub { seat.new.pass.table_id ≡ seat.old.pass.table_id }
        ensures called { HasCalled N.opening (view_of seat.old.pass) (view_of seat.new.pass) (Bettering W.design result) }
        ensures same { (seat.new.number ≡ seat.old.number) × (seat.new.calls ≡ seat.old.calls + 1) × (seat.new.reader ≡ seat.old.reader) }
    {
        let mut desk = self.turns.enter(rt, &mut seat.pass);
        let answer = desk.better(design);
        self.turns
            .leave::<Brand, _, _>(&mut seat.pass, desk, &(), &answer);
        seat.calls += 1;
        answer
    }
}
