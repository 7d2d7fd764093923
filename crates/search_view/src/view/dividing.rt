//! What a split makes of an open leaf: the division, and the children.

ghost use Rattle.std.specs.Prelude.{◌≡◌, ◌<◌, ◌≤◌, ◌↔◌, suc, length, IsTrue, IfOk, IfSome, IfNone, slice_get};
ghost use Rattle.plan_base.specs.Places.{places};
ghost use Rattle.plan_base.specs.Facts.{IsInstance, total_load};
ghost use Rattle.link_steps.specs.Costs.{IsStepEnd};
ghost use Rattle.link_steps.specs.Ranges.{AreRanges};
ghost use Rattle.search_machine.specs.State.{ranges_of, IsLimitOf};
ghost use Rattle.search_machine.specs.Dividing.{PartsSteps, IsLoadSplit};
ghost use Rattle.search_view.specs.Examining.{IsReadyAt, HasTwoPaths, HasGroundBelow, IsNodeBelow, IsChildAt, IsDivisionAt};

use super::PoolView;
use arc_restrict::divergence;
use branch_tree::{ArcSplit, Divider, Division, Limit, LoadSplit, deal};
use link_steps::{LoadRange, Ranges, StepTable};
use plan_base::{BranchId, DemandId, Instance, Items, LinkId, Path};
use search_nodes::{Ground, PoolNode};
use std::alloc::AllocError;
use std::sync::Arc;

/// Two permitted paths of a demand.
#[derive(Clone, Copy)]
pub struct TwoPaths<'a> {
    pub demand: DemandId,
    pub first: &'a Path,
    pub second: &'a Path,
}

/// Whether a step of the link ends at the load.
fn is_step_end(table: &StepTable, link: LinkId, load: u64) -> bool
    requires lawful { IsInstance table.now }
    requires link { link.0 < length table.now.links }
    requires load { load < total_load table.now }
    ensures { IsTrue result ↔ IsStepEnd table.now link.0 load }
{
    match table.step_below(link, load + 1) {
        Some(end) => end == load,
        None => false,
    }
}

/// Whether there is such a place.
fn is_place(inst: &Instance, place: u32) -> bool
    ensures { IsTrue result ↔ (place < places inst.now) }
{
    place < inst.places()
}

/// Whether the range has loads up to this one, and loads above it.
fn has_both_sides(range: LoadRange, load: u64) -> bool
    ensures { IsTrue result ↔ ((range.least ≤ load) × (load < range.most)) }
{
    range.least <= load && load < range.most
}

/// Whether the range of the place has loads on both sides of the split.
fn is_load_split(inst: &Instance, ranges: &Ranges, split: LoadSplit) -> bool
    requires { AreRanges inst.now ranges.now }
    ensures { IsTrue result ↔ IsLoadSplit inst.now ranges.now split.place split.load }
{
    if is_place(inst, split.place) {
        return has_both_sides(ranges.at(split.place), split.load);
    }
    false
}

/// Whether the split leaves the place loads on both sides, and a step of its link ends at it.
fn parts_steps(inst: &Instance, table: &StepTable, ranges: &Ranges, split: LoadSplit) -> bool
    requires table { table.now ≡ inst.now }
    requires ranges { AreRanges inst.now ranges.now }
    ensures { IsTrue result ↔ PartsSteps inst.now ranges.now split }
{
    inst.lawful();
    if is_load_split(inst, ranges, split) {
        return is_step_end(table, inst.link_of_place(split.place), split.load);
    }
    false
}

impl<'a> PoolView<'a> {
    /// The division by this divider, with the numbers that come next for the children.
    fn division(&self, by: Divider) -> Division
        ensures by { result.by ≡ by }
        ensures left { result.left_child.0 ≡ length self.now.nodes }
        ensures right { result.right_child.0 ≡ suc (length self.now.nodes) }
    {
        let count = self.state.nodes.as_slice().len() as u32;
        Division {
            by,
            left_child: BranchId(count),
            right_child: BranchId(count + 1),
        }
    }

    /// The division of a node where two of its paths part.
    pub fn division_at(&self, node: BranchId, two: TwoPaths<'_>) -> Result<Division, AllocError>
        requires { HasTwoPaths self.now node two.demand two.first.now two.second.now }
        ensures { IfOk result (IsDivisionAt self.now node) }
    {
        let inst = self.problem();
        inst.lawful();
        let rows = self.plot_at(node).rows();
        let Some((at, one, other)) = divergence(inst, two.first, two.second) else {
            unreachable!();
        };
        let sides = deal(
            self.state.alloc,
            &**rows,
            two.demand,
            one,
            other,
            inst.leaving(at),
        )?;
        Ok(self.division(Divider::Arcs(ArcSplit {
            demand: two.demand,
            at,
            left: Items::from_vec(sides.left),
            right: Items::from_vec(sides.right),
        })))
    }

    /// The division of a node by the loads of a place, where the split parts two steps of its link in the place's range.
    pub fn load_division_at(
        &self,
        node: BranchId,
        two: TwoPaths<'_>,
        split: LoadSplit,
    ) -> Option<Division>
        requires { HasTwoPaths self.now node two.demand two.first.now two.second.now }
        ensures some { IfSome result (IsDivisionAt self.now node) }
        ensures none { IfNone result (IfSome (slice_get self.now.nodes node.0) (λ x. PartsSteps self.now.problem (ranges_of self.now.problem x) split → ⊥)) }
    {
        let ranges = self.plot_at(node).ranges();
        if parts_steps(self.problem(), self.table().steps(), &**ranges, split) {
            return Some(self.division(Divider::Load(split)));
        }
        None
    }

    /// The region of a child of an open leaf that has this limit too.
    fn ground_below(&self, node: BranchId, limit: &Limit) -> Result<Ground, AllocError>
        requires leaf { IsReadyAt self.now node }
        requires limit { IsLimitOf self.now.problem limit.now }
        ensures { IfOk result (HasGroundBelow self.now node limit.now) }
    {
        self.plot_at(node).below(self.state.alloc, limit)
    }

    /// A child of an open leaf that has this limit too.
    fn node_below(&self, node: BranchId, limit: Limit) -> Result<PoolNode, AllocError>
        requires { IsReadyAt self.now node }
        ensures { IfOk result (IsNodeBelow self.now node limit) }
    {
        let parent = &self.state.nodes[node.0 as usize];
        parent.child(self.state.alloc, Arc::new(self.state.alloc, limit)?)
    }

    /// A child of an open leaf that has this limit too, and its region.
    pub fn child_at(&self, node: BranchId, limit: Limit) -> Result<(PoolNode, Ground), AllocError>
        requires leaf { IsReadyAt self.now node }
        requires limit { IsLimitOf self.now.problem limit }
        ensures { IfOk result (λ made. IsChildAt self.now node limit made.0 made.1) }
    {
        let ground = self.ground_below(node, &limit)?;
        let child = self.node_below(node, limit)?;
        Ok((child, ground))
    }
}
