//! The search of one thread: one open leaf after another is worked off, until nothing is left to do.

ghost use Rattle.std.specs.Prelude.{◌≡◌, ◌<◌, ◌+◌, None, IsSomeAnd, IsTrue, IsFalse, OnOk, IfOk, true, false};
ghost use Rattle.search_machine.specs.State.{left_of, round_of};
ghost use Rattle.search_machine.specs.Readiness.{examine_refusal};
ghost use Rattle.search_machine.specs.Machine.{IsReachable};
ghost use Rattle.search_machine.specs.PlanOf.{is_done};
ghost use Rattle.pool_core.specs.Work.{is_next, LeadsTo, IsGap, IsCloser, KeepsNodes};

use super::Pool;
use leaf_tasks::{Guide, KnownAbove, copy_of};
use plan_base::{BranchId, DemandId};
use search_machine::{ExamineFault, Examined, Offer, Task};
use std::alloc::AllocError;

impl Pool {
    /// Prices a demand in the node's round.
    fn price(
        &mut self,
        node: BranchId,
        version: u64,
        demand: DemandId,
        guide: &mut Guide,
    ) -> Result<(), AllocError>
        requires reachable { IsReachable self.old }
        requires gap { IsGap self.old node version demand }
        ensures leads { LeadsTo self.old self.new }
        ensures closer { OnOk result (IsCloser self.old self.new node) }
    {
        let known = self.view().found(node, version, demand, guide)?;
        let found = copy_of(&*known)?;
        guide.keep(demand, known)?;
        let _answer = self.take(Offer {
            node,
            version,
            demand,
            found,
        });
        Ok(())
    }

    /// Hands in a design for the paths of the node's round or other ones.
    pub(super) fn seek_design(
        &mut self,
        node: BranchId,
        guide: &mut Guide,
    ) -> Result<(), AllocError>
        requires { IsSomeAnd (round_of self.old node) (λ round. left_of round ≡ 0) }
        ensures { KeepsNodes self.old self.new }
    {
        let Some(design) = self.view().new_design(node, guide)? else {
            return Ok(());
        };
        let _answer = self.better(design);
        Ok(())
    }

    /// Examines a node, and tells the guide of its children.
    fn divide_leaf(&mut self, node: BranchId, guide: &mut Guide) -> Result<(), AllocError>
        requires lawful { examine_refusal self.old node ≡ None }
        ensures leads { LeadsTo self.old self.new }
        ensures one { OnOk result (self.new.examined ≡ self.old.examined + 1) }
    {
        match self.examine(node) {
            Ok(Examined::Divided { left, right }) => guide.divide(left, right),
            Ok(_) => Ok(()),
            Err(fault) => match fault {
                ExamineFault::OutOfMemory => Err(AllocError),
                _ => unreachable!(),
            },
        }
    }

    /// Does what is next at an open leaf.
    ///
    /// - Gives: whether the leaf is closed or divided now.
    fn take_step(&mut self, node: BranchId, guide: &mut Guide) -> Result<bool, AllocError>
        requires reachable { IsReachable self.old }
        requires not_spent { self.old.examined < self.old.budget }
        requires next { is_next self.old node ≡ true }
        ensures leads { LeadsTo self.old self.new }
        ensures ended { IfOk result (λ ended. IsTrue ended → self.new.examined ≡ self.old.examined + 1) }
        ensures closer { IfOk result (λ ended. IsFalse ended → IsCloser self.old self.new node) }
    {
        let step = self.view().step_at(node);
        match step {
            Task::Open { node: _node } => {
                let _answer = self.open_round(node);
                Ok(false)
            }
            Task::Price {
                node: _node,
                slot: _slot,
                version,
                demand,
            } => {
                self.price(node, version, demand, guide)?;
                Ok(false)
            }
            Task::Master {
                node: _node,
                version,
            } => {
                self.advance(node, version, guide)?;
                Ok(false)
            }
            Task::Close { node: _node } => {
                let _answer = self.close_by_bound(node);
                Ok(true)
            }
            Task::Examine { node: _node } => {
                self.divide_leaf(node, guide)?;
                Ok(true)
            }
            Task::Done => unreachable!(),
        }
    }

    /// Works off one open leaf.
    fn work_off(&mut self, guide: &mut Guide) -> Result<(), AllocError>
        requires reachable { IsReachable self.old }
        requires not_done { is_done self.old ≡ false }
        ensures leads { LeadsTo self.old self.new }
        ensures one { OnOk result (self.new.examined ≡ self.old.examined + 1) }
    {
        let Some(node) = self.view().next_leaf() else {
            unreachable!();
        };
        guide.begin(node);
        let mut ended = false;
        'steps: while !ended {
            ended = self.take_step(node, guide)?;
        }
        Ok(())
    }

    /// Works off open leaves until none is left or the budget is spent.
    fn work_all(&mut self, guide: &mut Guide) -> Result<(), AllocError>
        requires reachable { IsReachable self.old }
        ensures done { OnOk result (is_done self.new ≡ true) }
        ensures leads { LeadsTo self.old self.new }
    {
        'leaves: while !self.is_done() {
            self.work_off(guide)?;
        }
        Ok(())
    }

    /// Keeps what is known above the nodes that wait, for the bounds of a plan.
    fn remember(&mut self, known: KnownAbove)
        ensures { self.new ≡ self.old }
    {
        self.known = known;
    }

    /// Works off open leaves until none is left or the budget is spent.
    ///
    /// - Errors: want of memory alone; what was done until then is kept.
    /// - Rule: docs/METHOD.md, "The search as a machine".
    pub fn finish(&mut self) -> Result<(), AllocError>
        ensures done { OnOk result (is_done self.new ≡ true) }
        ensures leads { LeadsTo self.old self.new }
        ensures problem { self.new.problem ≡ self.old.problem }
        ensures cuts { self.new.cuts ≡ self.old.cuts }
        ensures budget { self.new.budget ≡ self.old.budget }
    {
        let mut guide = Guide::new(self.state.alloc, 0, 1);
        let worked = self.work_all(&mut guide);
        self.remember(guide.into_above());
        worked
    }
}
