//! Plans: a claim, a design, and the tree that proves the claim.

ghost use Rattle.std.specs.Prelude.{◌↔◌, IsTrue};
ghost use Rattle.proof_tree.specs.Spellings.{IsSpellable};

use crate::cuts::Cut;
use crate::fitting;
use crate::tree::Tree;
use plan_base::{Design, Items};

/// What a plan claims.
#[derive(Clone, Copy, Debug, PartialEq, Eq)]
pub enum PlanStatus {
    /// The plan's design is feasible, and no feasible design costs less.
    Optimal,
    /// There is no feasible design.
    Infeasible,
    /// No feasible design costs less than the plan's bound.
    Undecided,
}

/// A claim on an instance, with the tree that proves it.
#[derive(Debug, Drop)]
pub struct Plan {
    /// The count of the instance's nodes.
    pub nodes: u32,
    /// The count of the instance's links.
    pub links: u32,
    /// The count of the instance's demands.
    pub demands: u32,
    /// Whether each direction of a link has a capacity and a price of its own.
    pub both: bool,
    /// What the plan claims.
    pub status: PlanStatus,
    /// How many nodes of the tree were allowed to be examined.
    pub budget: u32,
    /// How many nodes of the tree were examined: its splits, and its leaves that are not open.
    pub examined: u32,
    /// A feasible design with its cost, in cost grains.
    pub design: Option<(u128, Design)>,
    /// What no feasible design costs less than, in cost grains.
    pub bound: Option<i128>,
    /// The cuts whose rates stand behind the prices of leaves.
    pub cuts: Items<Cut>,
    /// The splits, and what closes the leaves.
    pub tree: Tree,
}

impl Plan {
    /// Whether the plan's lists, sets and numbers are of the sizes that a plan text can hold.
    ///
    /// - Gives: no word on whether the plan is valid.
    /// - Rule: docs/FORMATS.md, "Plan texts".
    /// - Time: linear in the plan.
    pub fn fits(&self) -> bool
        ensures { IsTrue result ↔ IsSpellable self.now }
    {
        fitting::fits_sizes(self)
            && fitting::fits_status(self)
            && fitting::fits_design(self)
            && fitting::fits_cuts(self.nodes, self.cuts.as_slice())
            && fitting::fits_records(self.nodes, fitting::numbers(self), self.tree.nodes())
    }
}
