//! What is computed at a node: what a demand finds, and a design that may be better.

ghost use Rattle.std.specs.Prelude.{◌≡◌, ◌<◌, None, IsSome, IsSomeAnd, IfOk, IfSome, length, slice_get};
ghost use Rattle.std.specs.Arc.{arc_value};
ghost use Rattle.arc_restrict.specs.Rows.{forbids};
ghost use Rattle.completions.specs.Completions.{ArePaths};
ghost use Rattle.search_machine.specs.State.{left_of, restriction_of, round_of};
ghost use Rattle.search_machine.specs.Offering.{unfit_in};

use super::PoolView;
use arc_restrict::Restriction;
use leaf_tasks::{Guide, paths_within};
use path_pricing::{Priced, Query};
use plan_base::{BranchId, DemandId, Design, Items, Path};
use std::alloc::AllocError;
use std::sync::Arc;

impl<'a> PoolView<'a> {
    /// What is forbidden at a node that has a round.
    pub(super) fn rows_at(&self, node: BranchId) -> &'a Restriction
        requires { IsSome (round_of self.now node) }
        ensures { IfSome (slice_get self.now.nodes node.0) (λ x. forbids result.now ≡ restriction_of x) }
    {
        // Whoever looks into the pool knows what its type keeps, which the proof needs.
        let _ = &self.state;
        &**self.plot_at(node).rows()
    }

    /// What a demand finds under the prices of the node's round, which are those of the version, and the node's
    /// restriction.
    pub fn found(
        &self,
        node: BranchId,
        version: u64,
        demand: DemandId,
        guide: &mut Guide,
    ) -> Result<Arc<Priced>, AllocError>
        requires round { IsSome (round_of self.now node) }
        requires demand { demand.0 < length self.now.problem.demands }
        ensures { IfOk result (λ found. unfit_in self.now.problem (slice_get self.now.nodes node.0) demand.0 (arc_value found) ≡ None) }
    {
        // Whoever looks into the pool knows what its type keeps, which the proof needs.
        let _ = &self.state;
        let query = Query {
            inst: self.problem(),
            prices: self.round_at(node).prices(),
            demand,
            restriction: self.rows_at(node),
        };
        guide.find(query, version)
    }

    /// The paths of the node's round. Where a search for a design is due, those that have more arcs than their demands'
    /// limits are replaced, as far as the node permits others.
    fn start_paths(&self, node: BranchId, guide: &mut Guide) -> Result<Items<Path>, AllocError>
        requires { IsSomeAnd (round_of self.now node) (λ round. left_of round ≡ 0) }
        ensures { IfOk result (ArePaths self.now.problem) }
    {
        let round = self.round_at(node);
        let paths = round.paths(self.state.alloc)?;
        if !guide.designs().is_due(self.state.examined) {
            return Ok(paths);
        }
        let rows = self.rows_at(node);
        paths_within(
            self.state.alloc,
            self.problem(),
            round.prices(),
            rows,
            paths,
        )
    }

    /// A design that a search finds from the paths of the node's round or from the cheapest design so far, where one is due.
    pub fn new_design(
        &self,
        node: BranchId,
        guide: &mut Guide,
    ) -> Result<Option<Design>, AllocError>
        requires { IsSomeAnd (round_of self.now node) (λ round. left_of round ≡ 0) }
    {
        let paths = self.start_paths(node, guide)?;
        leaf_tasks::new_design(
            self.state.alloc,
            self.table().steps(),
            &paths,
            self.state.examined,
            guide.designs(),
        )
    }
}
