//! The trees of least paths under the prices of one version, one for each source whose demands query.

ghost use Rattle.std.specs.Prelude.{◌≡◌, ◌<◌, None, length, IfOk};
ghost use Rattle.leaf_tasks.specs.LeastPaths.{arc_value, forbids, ArePrices, IsPriced, priced_fault};

use path_pricing::{Priced, Query, SourceTree, price};
use plan_base::{Instance, NodeId, Prices};
use std::alloc::{AllocError, Global};
use std::sync::Arc;

/// The trees under the prices of a version. No contract rests on them: a tree tests what it gives.
#[derive(Drop)]
pub struct Trees {
    alloc: Global,
    version: u64,
    /// For each node the tree that was grown from it.
    grown: Vec<Option<SourceTree>>,
}

impl Trees {
    /// No tree is grown.
    pub fn none(alloc: Global) -> Trees {
        Trees {
            alloc,
            version: 0,
            grown: Vec::new(alloc),
        }
    }

    /// Lets go of all trees, where they are those of another version.
    fn turn_to(&mut self, version: u64) {
        if self.version != version {
            self.version = version;
            self.grown.clear();
        }
    }

    /// The tree of a source, where it is grown.
    fn of(&self, source: NodeId) -> Option<&SourceTree> {
        match self.grown.get(source.0 as usize) {
            Some(Some(tree)) => Some(tree),
            _ => None,
        }
    }

    /// Grows the tree of a source, where it is not grown yet.
    fn grow(&mut self, inst: &Instance, prices: &Prices, source: NodeId) -> Result<(), AllocError>
        requires prices { ArePrices inst.now prices.now }
        requires source { source.0 < inst.now.nodes }
    {
        if self.of(source).is_some() {
            return Ok(());
        }
        let tree = SourceTree::grow(self.alloc, inst, prices, source)?;
        for _ in self.grown.len()..=source.0 as usize {
            self.grown.push(None)?;
        }
        if let Some(entry) = self.grown.get_mut(source.0 as usize) {
            *entry = Some(tree);
        }
        Ok(())
    }

    /// A least path of the demand, or a set that shows that it has none, by the tree of its source.
    ///
    /// - Takes: what is asked for, and the version of its prices. All demands that ask under one version have the same
    ///   prices.
    /// - Errors: want of memory alone.
    /// - Time: that of one search where the demand is the first of its source under the version, or may not take the
    ///   tree's path; else linear in nodes, links and the path's arcs.
    pub(crate) fn find(&mut self, query: Query<'_>, version: u64) -> Result<Arc<Priced>, AllocError>
        requires prices { ArePrices query.inst.now query.prices.now }
        requires demand { query.demand.0 < length query.inst.now.demands }
        ensures least { IfOk result (λ found. IsPriced query.entry.inst.now query.entry.prices.now query.entry.demand.0 (forbids query.entry.restriction.now) (arc_value found)) }
        ensures accepted { IfOk result (λ found. priced_fault query.entry.inst.now query.entry.prices.now query.entry.demand.0 (forbids query.entry.restriction.now) (arc_value found) ≡ None) }
    {
        let (alloc, inst, prices) = (self.alloc, query.inst, query.prices);
        let source = inst.demand(query.demand).source;
        self.turn_to(version);
        self.grow(inst, prices, source)?;
        let found = match self.of(source) {
            Some(tree) => tree.priced(alloc, inst, prices, query.demand, query.restriction)?,
            None => price(alloc, inst, prices, query.demand, query.restriction)?,
        };
        Ok(Arc::new(alloc, found)?)
    }
}
