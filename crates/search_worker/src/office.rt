//! The calls that a worker makes, at whichever hub.

ghost use Rattle.std.specs.Prelude.{◌≡◌, ◌<◌, OnOk, OnErr};
ghost use Rattle.std.specs.Arc.{arc_value};
ghost use Rattle.search_machine.specs.declared.task.Task.{Task as AnyTask};

use crate::search::Search;
use arc_restrict::Restriction;
use branch_tree::LoadSplit;
use cut_values::CutTable;
use dual_versions::Published;
use plan_base::{BranchId, Design, DesignFault, Instance, Prices};
use plan_io::Standing;
use search_machine::{
    Better, Closing, ExamineFault, Examined, Gather, Offer, Offered, Opened, Publish, RoundFault,
    Settle, Task,
};
use std::alloc::AllocError;
use std::sync::{Arc, Wait};

/// A hub of the search that N names, as a worker sees it.
pub trait Office<N: Search> {
    /// A worker's own.
    type Seat;

    /// The seat is of this hub.
    ghost of: { Self → Self.Seat → Type 0 };
    /// The seat may make a call.
    ghost free: { Self.Seat → Type 0 };
    /// The seat may make no further call, or the last one told that nothing is left to do.
    ghost ended: { Self → Self.Seat → Type 0 };
    /// What calls make of a seat.
    ghost keeps: { Self.Seat → Self.Seat → Type 0 };

    /// The instance of the search.
    fn instance(&self) -> &Arc<Instance>
        ensures { arc_value result.now ≡ N.problem };

    /// The table of its steps and cuts.
    fn table(&self) -> &Arc<CutTable>
        ensures problem { (arc_value result.now).problem ≡ N.problem }
        ensures cuts { (arc_value result.now).cuts ≡ N.cuts };

    /// The worker's number, and how many workers there are.
    fn place(&self, seat: &Self::Seat) -> (u32, u32)
        ensures { result.0 < result.1 };

    /// Whether the seat may make a call.
    fn may_call(&self, seat: &Self::Seat) -> Result<(), ()>
        requires of { of self.now seat.now }
        ensures free { OnOk result (free seat.now) }
        ensures full { OnErr result (ended self.now seat.now) };

    /// What may be done next, and how far the search is then, with its bound where it is asked for.
    fn standing_task<T: Wait>(&self, rt: &T, seat: &mut Self::Seat, asks: bool) -> (Task, Standing)
        requires of { of self.now seat.old }
        requires free { free seat.old }
        ensures of { of self.now seat.new }
        ensures keeps { keeps seat.old seat.new }
        ensures done { result.0 ≡ AnyTask.Done → ended self.now seat.new };

    /// The prices of a version of a node, as far as the worker may know them.
    fn published<T: Wait>(
        &self,
        rt: &T,
        seat: &mut Self::Seat,
        node: BranchId,
        slot: u32,
        version: u64,
    ) -> Result<Option<Published>, AllocError>
        requires of { of self.now seat.old }
        ensures of { of self.now seat.new }
        ensures keeps { keeps seat.old seat.new };

    /// What is forbidden at an open leaf, shared.
    fn ground<T: Wait>(
        &self,
        rt: &T,
        seat: &mut Self::Seat,
        node: BranchId,
    ) -> Result<Option<Arc<Restriction>>, AllocError>
        requires of { of self.now seat.old }
        requires free { free seat.old }
        ensures of { of self.now seat.new }
        ensures keeps { keeps seat.old seat.new };

    /// A copy of the best design so far.
    fn best_design<T: Wait>(
        &self,
        rt: &T,
        seat: &mut Self::Seat,
    ) -> Result<Option<Design>, AllocError>
        requires of { of self.now seat.old }
        requires free { free seat.old }
        ensures of { of self.now seat.new }
        ensures keeps { keeps seat.old seat.new };

    /// Gives a node a round.
    fn open<T: Wait>(
        &self,
        rt: &T,
        seat: &mut Self::Seat,
        node: BranchId,
    ) -> Result<Result<Opened, RoundFault>, AllocError>
        requires of { of self.now seat.old }
        requires free { free seat.old }
        ensures of { of self.now seat.new }
        ensures keeps { keeps seat.old seat.new };

    /// Takes what a demand has found.
    fn offer<T: Wait>(&self, rt: &T, seat: &mut Self::Seat, offer: Offer) -> Offered
        requires of { of self.now seat.old }
        requires free { free seat.old }
        ensures of { of self.now seat.new }
        ensures keeps { keeps seat.old seat.new };

    /// Makes the paths of a complete round columns.
    fn gather<T: Wait>(
        &self,
        rt: &T,
        seat: &mut Self::Seat,
        node: BranchId,
        version: u64,
    ) -> Result<Gather, AllocError>
        requires of { of self.now seat.old }
        requires free { free seat.old }
        ensures of { of self.now seat.new }
        ensures keeps { keeps seat.old seat.new };

    /// Gives the round of a node further prices and rates.
    fn publish<T: Wait>(
        &self,
        rt: &T,
        seat: &mut Self::Seat,
        node: BranchId,
        seen: u64,
        prices: &Prices,
        split: Option<LoadSplit>,
    ) -> Result<Publish, AllocError>
        requires of { of self.now seat.old }
        requires free { free seat.old }
        ensures of { of self.now seat.new }
        ensures keeps { keeps seat.old seat.new };

    /// Marks a node of which no further version is published.
    fn settle<T: Wait>(
        &self,
        rt: &T,
        seat: &mut Self::Seat,
        node: BranchId,
        version: u64,
        split: Option<LoadSplit>,
    ) -> Settle
        requires of { of self.now seat.old }
        requires free { free seat.old }
        ensures of { of self.now seat.new }
        ensures keeps { keeps seat.old seat.new };

    /// Closes a leaf.
    fn close<T: Wait>(&self, rt: &T, seat: &mut Self::Seat, node: BranchId) -> Closing
        requires of { of self.now seat.old }
        requires free { free seat.old }
        ensures of { of self.now seat.new }
        ensures keeps { keeps seat.old seat.new };

    /// Closes or divides a leaf.
    fn examine<T: Wait>(
        &self,
        rt: &T,
        seat: &mut Self::Seat,
        node: BranchId,
    ) -> Result<Examined, ExamineFault>
        requires of { of self.now seat.old }
        requires free { free seat.old }
        ensures of { of self.now seat.new }
        ensures keeps { keeps seat.old seat.new };

    /// Takes a cheaper design.
    fn better<T: Wait>(
        &self,
        rt: &T,
        seat: &mut Self::Seat,
        design: Design,
    ) -> Result<Better, DesignFault>
        requires of { of self.now seat.old }
        requires free { free seat.old }
        ensures of { of self.now seat.new }
        ensures keeps { keeps seat.old seat.new };

    /// Where no call is made, a seat stays what it is.
    ghost same: { (a : Self.Seat) → keeps a a };
    /// What two rows of calls make of a seat, one behind the other makes too.
    ghost further: { (a b c : Self.Seat) → keeps a b → keeps b c → keeps a c };
}
