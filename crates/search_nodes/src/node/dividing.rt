//! Whether a node may be examined, nodes that are divided, and their children.

ghost use Rattle.std.specs.Prelude.{◌≡◌, ◌∷◌, Some, IfOk, map};
ghost use Rattle.std.specs.Arc.{arc_value};
ghost use Rattle.branch_tree.specs.declared.node.Fate.TheVariants.{Undone};
ghost use Rattle.search_machine.specs.State.{kept_prices};
ghost use Rattle.search_machine.specs.Readiness.{completed_in, settled_in};
ghost use Rattle.search_machine.specs.Dividing.{divided_by, child_of};

use super::PoolNode;
use crate::round::PoolRound;
use branch_tree::{Division, Limit, LoadSplit};
use plan_base::{Items, Prices};
use search_machine::Fate;
use std::alloc::{AllocError, Global};
use std::sync::Arc;

impl PoolNode {
    /// How many versions were complete.
    pub fn completed(&self) -> u32
        ensures { result ≡ completed_in (Some self.now) }
    {
        self.completed
    }

    /// Whether it has the mark that no further version is published.
    pub fn is_settled(&self) -> bool
        ensures { result ≡ settled_in (Some self.now) }
    {
        self.settled
    }

    /// Keeps by which loads it is to be divided, where some are told. Takes no memory.
    pub fn advise(&mut self, split: Option<LoadSplit>)
        ensures { self.new ≡ self.old }
    {
        if split.is_some() {
            self.split = split;
        }
    }

    /// By which loads it is to be divided, where that was told.
    pub fn advised(&self) -> Option<LoadSplit> {
        self.split
    }

    /// Divides an open leaf, and hands out its round. Takes no memory.
    pub fn divide(&mut self, division: Division) -> Option<PoolRound>
        requires { self.old.fate ≡ Undone }
        ensures node { self.new ≡ divided_by division self.old }
        ensures round { result ≡ self.old.round }
    {
        self.fate = Fate::DividedBy(division);
        self.round.take()
    }

    /// The prices that it gives to its children: its best prices, or its first ones where no version was complete.
    fn kept_prices(&self) -> &Prices
        ensures { result.now ≡ kept_prices self.now }
    {
        match self.best_bound {
            Some(_) => &self.best_prices,
            None => &self.first_prices,
        }
    }

    /// A node with one limit more, which waits with the prices that this one keeps.
    ///
    /// - Takes: what it allows less than this one.
    /// - Errors: want of memory alone.
    pub fn child(&self, alloc: Global, limit: Arc<Limit>) -> Result<PoolNode, AllocError>
        ensures { IfOk result (λ child. child ≡ child_of self.now (arc_value limit)) }
    {
        let limits = limits_below(alloc, limit, self.limits.as_slice())?;
        PoolNode::new(limits, self.kept_prices().copy()?, self.best_bound)
    }
}

/// A limit before others, which are shared.
fn limits_below(
    alloc: Global,
    limit: Arc<Limit>,
    limits: &[Arc<Limit>],
) -> Result<Items<Arc<Limit>>, AllocError>
    ensures { IfOk result (λ all. map arc_value all ≡ arc_value limit ∷ map arc_value limits.now) }
{
    let mut all = Vec::new(alloc);
    all.push(limit)?;
    for above in limits {
        let shared = above.clone()?;
        all.push(shared)?;
    }
    Ok(Items::from_vec(all))
}
