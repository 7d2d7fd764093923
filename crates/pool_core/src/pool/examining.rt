//! Examinations: an open leaf is closed or divided.

ghost use Rattle.std.specs.Prelude.{◌≡◌, Ok, IfOk, OnErr, IfSome, IfNone};
ghost use Rattle.search_machine.specs.Examining.{ClosesFar, ExamineStep};
ghost use Rattle.search_view.specs.Examining.{IsReadyAt, IsFarAt, HasOnlyPaths};
ghost use Rattle.pool_core.specs.Routes.{IsOverfullAt, AreCarriedAt};

use super::Pool;
use completions::{complete, outside_link, overfull_link};
use plan_base::{BranchId, DemandId, Design, Items, LinkId, Path};
use proof_tree::Evidence;
use search_machine::{ExamineFault, Examined};
use search_nodes::Reason;
use search_view::TwoPaths;
use second_path::Determined;
use std::alloc::AllocError;

impl Pool {
    /// Closes a node where no permitted path of a demand keeps its limit.
    fn close_far(&mut self, node: BranchId, demand: DemandId)
        requires { IsFarAt self.old node demand }
        ensures { ClosesFar self.old node demand self.new }
    {
        // Whoever looks into the pool knows what its type keeps, which the proof needs.
        let _ = &self.state.nodes;
        self.close(node, Reason::Shown(Evidence::Far { demand }));
    }

    /// A link of which the paths that a node leaves put a load outside its range on a place, or else one that cannot carry
    /// them. Takes no memory.
    ///
    /// - Takes: a design with these paths. Its counts are not read.
    fn overfull_at(&self, node: BranchId, routing: &Design) -> Option<LinkId>
        requires { HasOnlyPaths self.now node routing.now.paths }
        ensures some { IfSome result (IsOverfullAt self.now node) }
        ensures none { IfNone result (AreCarriedAt self.now node routing.now.paths) }
    {
        let ranges = self.state.grounds[node.0 as usize].ranges().unwrap();
        if let Some(link) = outside_link(&*self.state.problem, &**ranges, routing) {
            return Some(link);
        }
        overfull_link(self.state.table.steps(), routing)
    }

    /// Closes a node that leaves each demand one path: by a link that these paths overfill or of which they put a load
    /// outside its range on a place, or else with the cheapest design for them.
    fn close_routed(&mut self, node: BranchId, paths: Items<Path>) -> Result<Examined, AllocError>
        requires { HasOnlyPaths self.old node paths }
        ensures event { IfOk result (λ answer. ExamineStep self.old node (Ok answer) self.new) }
        ensures kept { OnErr result (self.new ≡ self.old) }
    {
        let routing = Design {
            paths,
            counts: Items::new(self.state.alloc),
        };
        if let Some(link) = self.overfull_at(node, &routing) {
            self.close(node, Reason::Shown(Evidence::Overfull { link }));
            return Ok(Examined::Overfull);
        }
        let done = complete(self.state.alloc, self.state.table.steps(), routing.paths)?;
        let Some((_cost, design)) = done else {
            unreachable!();
        };
        let _held = self.better(design);
        self.close(node, Reason::Shown(Evidence::Routed));
        Ok(Examined::Routed)
    }

    /// Closes or divides a node that may be examined.
    fn examine_ready(&mut self, node: BranchId) -> Result<Examined, AllocError>
        requires { IsReadyAt self.old node }
        ensures event { IfOk result (λ answer. ExamineStep self.old node (Ok answer) self.new) }
        ensures kept { OnErr result (self.new ≡ self.old) }
    {
        if let Some(demand) = self.view().far_at(node)? {
            self.close_far(node, demand);
            return Ok(Examined::Far { demand });
        }
        let determined = self.view().determine_at(node)?;
        match determined {
            Determined::Empty {
                demand: _demand,
                reached: _reached,
            } => unreachable!(),
            Determined::Two {
                demand,
                first,
                second,
            } => {
                let two = TwoPaths {
                    demand,
                    first: &first,
                    second: &second,
                };
                self.divide(node, two)
            }
            Determined::One(paths) => self.close_routed(node, paths),
        }
    }

    /// Closes or divides an open leaf.
    ///
    /// - Gives: `Cut` where the node has a cut; else `Far` with the first demand of which no permitted path keeps its
    ///   limit; else `Divided` where a demand has two permitted paths: by the loads that `advise` told, where that parts two
    ///   steps of a link, else where these paths part; `Overfull` where each demand has one and a link cannot carry them or
    ///   a place has a load outside its range; `Routed` where they can be carried, and they become the best design where
    ///   they cost less.
    /// - Errors: in this order, `Spent` where the budget is spent; `NotOpen` where the node is no open leaf;
    ///   and, where it has no cut, `Unpriced` where no version was ever complete; `Closable` where
    ///   `close_by_bound` closes it; `Unsettled` where it is not settled and has room for more versions. Want of
    ///   memory may come in place of any answer, and leaves the pool as it was.
    /// - Rule: docs/METHOD.md, "The search as a machine".
    pub fn examine(&mut self, node: BranchId) -> Result<Examined, ExamineFault>
        ensures event { ExamineStep self.old node result self.new }
    {
        // Whoever looks into the pool knows what its type keeps, which the proof needs.
        let _ = &self.state.nodes;
        if let Some(refusal) = self.view().examine_refusal(node) {
            return Err(refusal);
        }
        if self.view().has_cut(node) {
            self.close(node, Reason::HeldCut);
            return Ok(Examined::Cut);
        }
        match self.examine_ready(node) {
            Ok(answer) => Ok(answer),
            Err(_) => Err(ExamineFault::OutOfMemory),
        }
    }
}
