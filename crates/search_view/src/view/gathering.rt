//! Why a gathering is refused, and what a master step is told.

ghost use Rattle.std.specs.Prelude.{◌≡◌, length, IfOk, IfSome, IsSome, slice_get};
ghost use Rattle.arc_restrict.specs.Rows.{forbids};
ghost use Rattle.search_machine.specs.State.{round_of, restriction_of, ranges_of};
ghost use Rattle.search_machine.specs.Gathering.{gather_fault, IsBriefOf};
ghost use Rattle.search_view.specs.Work.{enough_in};
ghost use Rattle.search_view.specs.Valuing.{ForRound, ArePermittedLists};

use super::PoolView;
use arc_restrict::Restriction;
use column_pool::{Brief, ColumnPool};
use link_steps::Ranges;
use plan_base::{BranchId, DemandId, Instance, Items, Path};
use search_machine::Gather;
use search_machine::limits::ENOUGH_VERSIONS;
use std::alloc::{AllocError, Global};

/// For each demand copies of the columns that the restriction permits, in their order.
fn permitted_lists(
    alloc: Global,
    inst: &Instance,
    columns: &ColumnPool,
    restriction: &Restriction,
) -> Result<Items<Items<Path>>, AllocError>
    requires { length columns.now ≡ length inst.now.demands }
    ensures { IfOk result (ArePermittedLists (length inst.now.demands) (forbids restriction.now) columns.now) }
{
    let mut lists = Vec::new(alloc);
    for place in 0..inst.demands() {
        let permitted = columns.permitted(alloc, DemandId(place), restriction)?;
        lists.push(permitted)?;
    }
    Ok(Items::from_vec(lists))
}

impl<'a> PoolView<'a> {
    /// Why a gathering is refused, if it is.
    #[tactic(auto, unfolding(search_machine::specs::Gathering::gather_fault))]
    pub fn gather_refusal(&self, node: BranchId, version: u64) -> Option<Gather>
        ensures { result ≡ gather_fault self.now node version }
    {
        if self.is_spent() {
            return Some(Gather::Spent {
                examined: self.state.examined,
            });
        }
        let current = self.current(node);
        if !super::is_version(current, version) {
            return Some(Gather::Stale { current });
        }
        self.first_gap(node)
            .map(|demand| Gather::Incomplete { demand })
    }

    /// Copies of the columns that the node permits, a list for each demand.
    fn permitted_columns(&self, node: BranchId) -> Result<Items<Items<Path>>, AllocError>
        requires { IsSome (round_of self.now node) }
        ensures { IfOk result (λ lists. ForRound self.now node (λ x round. ArePermittedLists (length self.now.problem.demands) (restriction_of x) self.now.columns lists)) }
    {
        permitted_lists(
            self.state.alloc,
            self.problem(),
            &self.state.columns,
            self.rows_at(node),
        )
    }

    /// Whether no further version of a node is to follow: its crowd prices were tried; or a design is known, some node was
    /// examined, and enough versions of this one were complete.
    pub fn has_enough(&self, node: BranchId) -> bool
        ensures { result ≡ enough_in self.now (slice_get self.now.nodes node.0) }
    {
        match self.node(node) {
            Some(held) => {
                held.crowd_tried()
                    || (self.state.incumbent.is_some()
                        && self.state.examined > 0
                        && held.completed() >= ENOUGH_VERSIONS)
            }
            None => false,
        }
    }

    /// The ranges of loads at a node that has a round.
    fn ranges_at(&self, node: BranchId) -> &'a Ranges
        requires { IsSome (round_of self.now node) }
        ensures { IfSome (slice_get self.now.nodes node.0) (λ x. result.now ≡ ranges_of self.now.problem x) }
    {
        // Whoever looks into the pool knows what its type keeps, which the proof needs.
        let _ = &self.state;
        &**self.plot_at(node).ranges()
    }

    /// What a master step is told of the node's round.
    pub fn brief(&self, node: BranchId) -> Result<Brief, AllocError>
        requires { IsSome (round_of self.now node) }
        ensures { IfOk result (λ brief. ForRound self.now node (λ x round. IsBriefOf self.now node x round brief)) }
    {
        let columns = self.permitted_columns(node)?;
        let ranges = self.ranges_at(node);
        let round = self.round_at(node);
        Ok(Brief {
            node,
            version: round.version(),
            prices: round.prices().copy()?,
            ranges: ranges.copy()?,
            columns,
            crowd_tried: self.state.nodes[node.0 as usize].crowd_tried(),
            has_enough: self.has_enough(node),
            incumbent: self.incumbent(),
            unit: self.state.unit,
        })
    }
}
