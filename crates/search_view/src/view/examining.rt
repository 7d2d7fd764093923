//! Why an examination is refused, and what a node leaves to the demands.

ghost use Rattle.std.specs.Prelude.{◌≡◌, ◌<◌, ◌↔◌, not, ◌&&◌, nat_lt, length, IsTrue, IfOk, IfSome, IfNone, slice_get};
ghost use Rattle.arc_restrict.specs.Rows.{forbids};
ghost use Rattle.proof_tree.specs.Evidence.{IsFar};
ghost use Rattle.second_path.specs.Others.{IsDetermined};
ghost use Rattle.search_machine.specs.declared.limits.TheConstants.{MAX_VERSIONS};
ghost use Rattle.search_machine.specs.State.{restriction_of};
ghost use Rattle.search_machine.specs.Readiness.{completed_in, settled_in, ready_fault, examine_refusal, IsFirstFar, NoneFar};
ghost use Rattle.search_view.specs.Examining.{IsReadyAt, IsNearAt, IsFarAt, IsDeterminedAt};

use super::PoolView;
use super::closing::is_open_state;
use arc_restrict::Restriction;
use hop_pricing::fewest;
use plan_base::{BranchId, DemandId, Instance};
use search_machine::ExamineFault;
use search_machine::limits::MAX_VERSIONS;
use second_path::{Determined, determine, determine_among};
use std::alloc::{AllocError, Global};

/// Whether a node is not settled and has room for more versions.
fn is_unsettled(settled: bool, completed: u32) -> bool
    ensures { result ≡ (not settled && nat_lt completed MAX_VERSIONS) }
{
    !settled && completed < MAX_VERSIONS
}

/// Whether the demand has a limit, and no permitted path of it keeps that.
fn is_far(
    alloc: Global,
    inst: &Instance,
    demand: DemandId,
    rows: &Restriction,
) -> Result<bool, AllocError>
    requires { demand.0 < length inst.now.demands }
    ensures { IfOk result (λ far. IsTrue far ↔ IsFar inst.now (forbids rows.now) demand.0) }
{
    let Some(limit) = inst.demand(demand).hops else {
        return Ok(false);
    };
    match fewest(alloc, inst, demand, rows)? {
        Some(arcs) => Ok(u64::from(arcs) > limit),
        None => Ok(true),
    }
}

/// The first demand that has a limit which no permitted path of it keeps.
fn first_far(
    alloc: Global,
    inst: &Instance,
    rows: &Restriction,
) -> Result<Option<DemandId>, AllocError>
    ensures some { IfOk result (λ found. IfSome found (IsFirstFar inst.now (forbids rows.now))) }
    ensures none { IfOk result (λ found. IfNone found (NoneFar inst.now (forbids rows.now))) }
{
    for place in 0..inst.demands() {
        let demand = DemandId(place);
        if is_far(alloc, inst, demand, rows)? {
            return Ok(Some(demand));
        }
    }
    Ok(None)
}

impl<'a> PoolView<'a> {
    /// How many versions of the node were complete.
    pub(super) fn completed(&self, node: BranchId) -> u32
        ensures { result ≡ completed_in (slice_get self.now.nodes node.0) }
    {
        match self.node(node) {
            Some(node) => node.completed(),
            None => 0,
        }
    }

    /// Whether the node is settled.
    pub(super) fn is_settled(&self, node: BranchId) -> bool
        ensures { result ≡ settled_in (slice_get self.now.nodes node.0) }
    {
        match self.node(node) {
            Some(node) => node.is_settled(),
            None => false,
        }
    }

    /// Why a node without a cut is not examined, if it is not.
    fn ready_refusal(&self, node: BranchId) -> Option<ExamineFault>
        ensures { result ≡ ready_fault self.now (slice_get self.now.nodes node.0) }
    {
        let done = self.completed(node);
        if done == 0 {
            return Some(ExamineFault::Unpriced);
        }
        if self.is_closable(node) {
            return Some(ExamineFault::Closable {
                bound: self.bound(node).unwrap_or(0),
                cutoff: self.incumbent(),
            });
        }
        if is_unsettled(self.is_settled(node), done) {
            return Some(ExamineFault::Unsettled { done });
        }
        None
    }

    /// Why an examination is refused, if it is.
    #[tactic(auto, unfolding(search_machine::specs::Readiness::examine_refusal))]
    pub fn examine_refusal(&self, node: BranchId) -> Option<ExamineFault>
        ensures { result ≡ examine_refusal self.now node }
    {
        if self.is_spent() {
            return Some(ExamineFault::Spent {
                examined: self.state.examined,
            });
        }
        let state = self.state(node);
        if !is_open_state(state) {
            return Some(ExamineFault::NotOpen { state });
        }
        if self.has_cut(node) {
            return None;
        }
        self.ready_refusal(node)
    }

    /// What the restriction of a node leaves to the demands. Where its round is complete, a path of each is known.
    fn determined(&self, node: BranchId, rows: &Restriction) -> Result<Determined, AllocError>
        requires { IfSome (slice_get self.now.nodes node.0) (λ x. forbids rows.now ≡ restriction_of x) }
        ensures { IfOk result (IsDetermined self.now.problem (forbids rows.now)) }
    {
        let alloc = self.state.alloc;
        let inst = self.problem();
        let Some(round) = self.active_round(node) else {
            return determine(alloc, inst, rows);
        };
        if round.left() > 0 {
            return determine(alloc, inst, rows);
        }
        let paths = round.paths(alloc)?;
        determine_among(alloc, inst, rows, paths)
    }

    /// The first demand at a node that may be examined of which no permitted path keeps its limit.
    pub fn far_at(&self, node: BranchId) -> Result<Option<DemandId>, AllocError>
        requires { IsReadyAt self.now node }
        ensures some { IfOk result (λ found. IfSome found (IsFarAt self.now node)) }
        ensures none { IfOk result (λ found. IfNone found (IsNearAt self.now node)) }
    {
        let rows = self.plot_at(node).rows();
        first_far(self.state.alloc, self.problem(), &**rows)
    }

    /// What the restriction of a node leaves to the demands, where it may be examined and no demand is far there.
    pub fn determine_at(&self, node: BranchId) -> Result<Determined, AllocError>
        requires { IsNearAt self.now node }
        ensures { IfOk result (IsDeterminedAt self.now node) }
    {
        self.determined(node, &**self.plot_at(node).rows())
    }
}
