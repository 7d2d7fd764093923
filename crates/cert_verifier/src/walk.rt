//! The walk over the records of a tree, with the region of the place where it is.

ghost use Rattle.std.specs.Prelude.{◌≡◌, ◌≢◌, ◌<◌, ◌+◌, ◌++◌, ◌∷◌, [], false, None, Some, List, All, length, reverse, slice_get, IfOk, IfErr, OnOk};
ghost use Rattle.std.specs.Result.{result_err};
ghost use Rattle.plan_base.specs.Places.{places};
ghost use Rattle.plan_base.specs.declared.parts.Parts.{Parts as AnyParts};
ghost use Rattle.arc_restrict.specs.Restrictions.{with_forbidden};
ghost use Rattle.link_steps.specs.Ranges.{no_range, range_at, ends_at, with_range, AreRanges};
ghost use Rattle.link_steps.specs.Unit.{IsUnit};
ghost use Rattle.proof_tree.specs.declared.tree.TreeNode.{TreeNode as AnyRecord};
ghost use Rattle.proof_tree.specs.declared.tree.TreeNode.TheVariants.{Leaf};
ghost use Rattle.proof_tree.specs.Regions.{Region, whole};
ghost use Rattle.proof_tree.specs.Trees.{LeafAt, children_at, leaf_here, leaves_of};
ghost use Rattle.proof_tree.specs.Plans.{HasSizes};
ghost use Rattle.proof_tree.specs.Spellings.{FitsRecord, IsSpellable};
ghost use Rattle.verifier_paths.specs.Kept.{forbidden_by, without_forbidden, HasRows};
ghost use Rattle.cert_verifier.specs.declared.rejected.Rejected.TheVariants.{OutOfMemory};
ghost use Rattle.cert_verifier.specs.Told.{Tells};
ghost use Rattle.cert_verifier.specs.Bounds.{HasRests, IsLowerOf, IsLeastBoundIn};
ghost use Rattle.cert_verifier.specs.RecordRules.{RecordFinds, TreeFinds};
ghost use Rattle.cert_verifier.specs.SplitRules.{SplitFinds, LoadsFind};
ghost use Rattle.cert_verifier.specs.Walks.{region_of_marks, Splits, IsSplitWithin, KeepsRest, IsTreePlace, StandsAt, AreLeft, IsAfter};

use crate::claims::{is_wrong_kind, stated_cost};
use crate::leaves::{Place, check_leaf, open_bound};
use crate::rejected::Rejected;
use crate::splits::{Split, check_loads, check_split};
use link_steps::{LoadRange, Ranges, StepTable};
use plan_base::{ArcId, DemandId, Instance};
use proof_tree::{Evidence, Plan, TreeNode};
use std::alloc::{AllocError, Global};
use verifier_paths::Forbidden;

/// A split above the place, and in which child of it the walk is.
#[derive(Clone, Copy, Debug)]
pub(crate) struct Turn {
    /// The place of its record.
    pub(crate) split: u32,
    pub(crate) is_right: bool,
    /// The range that the place had whose loads it splits, and no load where it splits the paths of a demand.
    pub(crate) range: LoadRange,
}

/// The next record's region, and the splits above it.
#[derive(Drop)]
pub(crate) struct Walk {
    pub(crate) forbidden: Forbidden,
    pub(crate) ranges: Ranges,
    pub(crate) turns: Vec<Turn>,
    /// The least bound so far of open leaves, in cost grains.
    pub(crate) least: Option<i128>,
}

/// What the walk checks against.
#[derive(Clone, Copy)]
pub(crate) struct Against<'a> {
    pub(crate) inst: &'a Instance,
    pub(crate) table: &'a StepTable,
    pub(crate) plan: &'a Plan,
    /// What crosses each of the plan's cuts beyond what it leaves out, in load grains.
    pub(crate) rests: &'a [u64],
    /// The unit of costs, in cost grains.
    pub(crate) unit: u128,
}

/// The lower of two bounds, where there are any.
pub(crate) fn lower(known: Option<i128>, found: Option<i128>) -> Option<i128>
    ensures { IsLowerOf known found result }
{
    match (known, found) {
        (Some(one), Some(other)) => Some(one.min(other)),
        (Some(one), None) => Some(one),
        (None, found) => found,
    }
}

/// Takes the left arcs of a split from what is forbidden to the demand, and forbids the right ones.
fn swap_sides(forbidden: &mut Forbidden, demand: DemandId, left: &[ArcId], right: &[ArcId])
    requires demand { demand.0 < forbidden.old.demands }
    requires left { All (λ a. a.0 < forbidden.old.arcs) left.now }
    requires right { All (λ a. a.0 < forbidden.old.arcs) right.now }
    ensures value { forbidden_by forbidden.new ≡ with_forbidden (without_forbidden (forbidden_by forbidden.old) demand left.now) demand right.now }
    ensures demands { forbidden.new.demands ≡ forbidden.old.demands }
    ensures arcs { forbidden.new.arcs ≡ forbidden.old.arcs }
{
    forbidden.undo(demand, left);
    forbidden.forbid(demand, right);
}

impl Walk {
    /// At the root, where nothing is forbidden and each place may carry any load.
    pub(crate) fn new(alloc: Global, inst: &Instance) -> Result<Walk, AllocError>
        ensures whole { IfOk result (λ walk. region_of_marks walk.forbidden walk.ranges ≡ whole inst.now) }
        ensures rows { IfOk result (λ walk. HasRows inst.now walk.forbidden) }
        ensures turns { IfOk result (λ walk. walk.turns.items ≡ []) }
        ensures least { IfOk result (λ walk. walk.least ≡ None) }
    {
        Ok(Walk {
            forbidden: Forbidden::none(alloc, inst)?,
            ranges: Ranges::whole(alloc, inst)?,
            turns: Vec::new(alloc),
            least: None,
        })
    }

    /// Goes from the left child of a split to the right one.
    ///
    /// - Takes: the range that the place had whose loads it splits.
    fn turn_right(&mut self, split: &TreeNode, range: LoadRange)
        requires { IsSplitWithin self.old.forbidden.demands self.old.forbidden.arcs (length self.old.ranges) range split.now }
        ensures over { (p : AnyParts) (parent right : Region) → Splits p parent split.now range
            → children_at parent split.now ≡ region_of_marks self.old.forbidden self.old.ranges ∷ right ∷ []
            → region_of_marks self.new.forbidden self.new.ranges ≡ right }
        ensures kept { KeepsRest self.old self.new }
    {
        match split {
            TreeNode::Split {
                demand,
                left,
                right,
                ..
            } => swap_sides(
                &mut self.forbidden,
                *demand,
                left.as_slice(),
                right.as_slice(),
            ),
            TreeNode::Loads { place, load } => {
                let above = LoadRange {
                    least: *load + 1,
                    most: range.most,
                };
                self.ranges.set(*place, above);
            }
            TreeNode::Leaf(_) => {}
        }
    }

    /// Goes from the right child of a split up to it.
    ///
    /// - Takes: the range that the place had whose loads it splits.
    fn go_up(&mut self, split: &TreeNode, range: LoadRange)
        requires { IsSplitWithin self.old.forbidden.demands self.old.forbidden.arcs (length self.old.ranges) range split.now }
        ensures up { (p : AnyParts) (parent left : Region) → Splits p parent split.now range
            → children_at parent split.now ≡ left ∷ region_of_marks self.old.forbidden self.old.ranges ∷ []
            → region_of_marks self.new.forbidden self.new.ranges ≡ parent }
        ensures kept { KeepsRest self.old self.new }
    {
        match split {
            TreeNode::Split { demand, right, .. } => {
                self.forbidden.undo(*demand, right.as_slice());
            }
            TreeNode::Loads { place, .. } => self.ranges.set(*place, range),
            TreeNode::Leaf(_) => {}
        }
    }

    /// Leaves the child of the split: from the left one into the right one, and from the right one upwards.
    /// Gives whether the walk stands at the next record.
    fn leave(&mut self, against: &Against, turn: Turn) -> Result<bool, AllocError>
        requires rows { HasRows against.now.inst.now self.old.forbidden }
        requires stands { StandsAt against.now.inst.now against.now.plan.now.tree (turn ∷ reverse self.old.turns.items) (region_of_marks self.old.forbidden self.old.ranges) }
        ensures after { IfOk result (λ there. (gs : List Region)
            → IsTreePlace against.now.inst.now against.now.plan.now.tree (turn ∷ reverse self.old.turns.items) (region_of_marks self.old.forbidden self.old.ranges) gs
            → IsAfter there against.now.inst.now against.now.plan.now.tree (reverse self.new.turns.items) (region_of_marks self.new.forbidden self.new.ranges) gs) }
        ensures turns { IfOk result (λ there. there ≡ false → self.new.turns.items ≡ self.old.turns.items) }
        ensures rows { HasRows against.now.inst.now self.new.forbidden }
        ensures least { self.new.least ≡ self.old.least }
    {
        let split = &against.plan.tree.nodes()[turn.split as usize];
        if turn.is_right {
            self.go_up(split, turn.range);
            return Ok(false);
        }
        self.turn_right(split, turn.range);
        self.turns.push(Turn {
            split: turn.split,
            is_right: true,
            range: turn.range,
        })?;
        Ok(true)
    }

    /// Goes from a leaf to the next record: up to the first split whose left child it is in, and into the right one.
    fn go_on(&mut self, against: &Against) -> Result<(), AllocError>
        requires rows { HasRows against.now.inst.now self.old.forbidden }
        requires stands { StandsAt against.now.inst.now against.now.plan.now.tree (reverse self.old.turns.items) (region_of_marks self.old.forbidden self.old.ranges) }
        ensures left { OnOk result ((gs : List Region)
            → IsTreePlace against.now.inst.now against.now.plan.now.tree (reverse self.old.turns.items) (region_of_marks self.old.forbidden self.old.ranges) gs
            → AreLeft against.now.inst.now against.now.plan.now.tree (reverse self.new.turns.items) (region_of_marks self.new.forbidden self.new.ranges) gs) }
        ensures rows { HasRows against.now.inst.now self.new.forbidden }
        ensures least { self.new.least ≡ self.old.least }
    {
        while let Some(turn) = self.turns.pop() {
            if self.leave(against, turn)? {
                return Ok(());
            }
        }
        Ok(())
    }

    /// Goes into the left child of the split of this index, which splits the paths of a demand.
    fn go_left(&mut self, index: u32, demand: DemandId, left: &[ArcId]) -> Result<(), AllocError>
        requires demand { demand.0 < self.old.forbidden.demands }
        requires left { All (λ a. a.0 < self.old.forbidden.arcs) left.now }
        ensures forbidden { forbidden_by self.new.forbidden ≡ with_forbidden (forbidden_by self.old.forbidden) demand left.now }
        ensures demands { self.new.forbidden.demands ≡ self.old.forbidden.demands }
        ensures arcs { self.new.forbidden.arcs ≡ self.old.forbidden.arcs }
        ensures ranges { self.new.ranges ≡ self.old.ranges }
        ensures turns { OnOk result (self.new.turns.items ≡ self.old.turns.items ++ (record { split = index; is_right = false; range = no_range } ∷ [])) }
        ensures least { self.new.least ≡ self.old.least }
    {
        self.forbidden.forbid(demand, left);
        self.turns.push(Turn {
            split: index,
            is_right: false,
            range: LoadRange { least: 0, most: 0 },
        })?;
        Ok(())
    }

    /// Goes into the left child of the split of this index, which splits the loads of a place.
    fn go_below(&mut self, index: u32, place: u32, load: u64) -> Result<(), AllocError>
        requires { place < length self.old.ranges }
        ensures forbidden { self.new.forbidden ≡ self.old.forbidden }
        ensures ranges { self.new.ranges ≡ with_range self.old.ranges place (ends_at (range_at self.old.ranges place) load) }
        ensures turns { OnOk result (self.new.turns.items ≡ self.old.turns.items ++ (record { split = index; is_right = false; range = range_at self.old.ranges place } ∷ [])) }
        ensures least { self.new.least ≡ self.old.least }
    {
        let range = self.ranges.at(place);
        let below = LoadRange {
            least: range.least,
            most: load,
        };
        self.ranges.set(place, below);
        self.turns.push(Turn {
            split: index,
            is_right: false,
            range,
        })?;
        Ok(())
    }

    /// Checks a leaf, and takes its bound where it is open.
    fn visit_leaf(
        &mut self,
        alloc: Global,
        against: &Against,
        index: u32,
        node: &TreeNode,
        evidence: &Evidence,
    ) -> Result<(), Rejected>
        requires table { against.now.table.now ≡ against.now.inst.now }
        requires unit { IsUnit against.now.inst.now against.now.unit }
        requires cuts { HasRests against.now.inst.now against.now.plan.now.cuts against.now.rests.now }
        requires ranges { AreRanges against.now.inst.now self.old.ranges }
        requires node { node.now ≡ Leaf evidence.now }
        requires fits { FitsRecord against.now.inst.now.nodes (places against.now.inst.now + length against.now.plan.now.cuts) node.now }
        ensures found { Tells (RecordFinds against.now.inst.now against.now.plan.now (region_of_marks self.old.forbidden self.old.ranges) index node.now) (result_err result) }
        ensures forbidden { self.new.forbidden ≡ self.old.forbidden }
        ensures ranges { self.new.ranges ≡ self.old.ranges }
        ensures turns { self.new.turns ≡ self.old.turns }
        ensures least { OnOk result ((leaves : List LeafAt) → IsLeastBoundIn against.now.inst.now against.now.plan.now.cuts leaves self.old.least
            → IsLeastBoundIn against.now.inst.now against.now.plan.now.cuts (leaves ++ leaf_here (region_of_marks self.old.forbidden self.old.ranges) node.now) self.new.least) }
    {
        if is_wrong_kind(against.plan, node) {
            return Err(Rejected::Kind { index });
        }
        let at = Place {
            inst: against.inst,
            table: against.table,
            forbidden: &self.forbidden,
            ranges: &self.ranges,
            cuts: &against.plan.cuts,
            rests: against.rests,
            unit: against.unit,
            cost: stated_cost(against.plan),
            index,
        };
        check_leaf(alloc, &at, evidence)?;
        let bound = open_bound(alloc, &at, evidence)?;
        self.least = lower(self.least, bound);
        Ok(())
    }

    /// Checks a split of a demand's paths, and goes into its left child.
    fn visit_split(&mut self, against: &Against, split: &Split) -> Result<(), Rejected>
        requires rows { HasRows against.now.inst.now self.old.forbidden }
        ensures found { Tells (SplitFinds against.now.inst.now (forbidden_by self.old.forbidden) split.now.index split.now.demand split.now.node split.now.left.now split.now.right.now) (result_err result) }
        ensures forbidden { OnOk result (forbidden_by self.new.forbidden ≡ with_forbidden (forbidden_by self.old.forbidden) split.now.demand split.now.left.now) }
        ensures rows { HasRows against.now.inst.now self.new.forbidden }
        ensures ranges { self.new.ranges ≡ self.old.ranges }
        ensures turns { OnOk result (self.new.turns.items ≡ self.old.turns.items ++ (record { split = split.now.index; is_right = false; range = no_range } ∷ [])) }
        ensures least { self.new.least ≡ self.old.least }
    {
        check_split(against.inst, &self.forbidden, split)?;
        self.go_left(split.index, split.demand, split.left)?;
        Ok(())
    }

    /// Checks a split of a place's loads, and goes into its left child.
    fn visit_loads(
        &mut self,
        against: &Against,
        index: u32,
        place: u32,
        load: u64,
    ) -> Result<(), Rejected>
        requires { length self.old.ranges ≡ places against.now.inst.now }
        ensures found { Tells (LoadsFind against.now.inst.now self.old.ranges index place load) (result_err result) }
        ensures forbidden { self.new.forbidden ≡ self.old.forbidden }
        ensures ranges { OnOk result (self.new.ranges ≡ with_range self.old.ranges place (ends_at (range_at self.old.ranges place) load)) }
        ensures turns { OnOk result (self.new.turns.items ≡ self.old.turns.items ++ (record { split = index; is_right = false; range = range_at self.old.ranges place } ∷ [])) }
        ensures least { self.new.least ≡ self.old.least }
    {
        check_loads(against.inst, &self.ranges, index, place, load)?;
        self.go_below(index, place, load)?;
        Ok(())
    }

    /// Checks the record of this index, and goes on to the next.
    fn visit(&mut self, alloc: Global, against: &Against, index: u32) -> Result<(), Rejected>
        requires table { against.now.table.now ≡ against.now.inst.now }
        requires unit { IsUnit against.now.inst.now against.now.unit }
        requires cuts { HasRests against.now.inst.now against.now.plan.now.cuts against.now.rests.now }
        requires index { index < length against.now.plan.now.tree }
        requires fits { All (FitsRecord against.now.inst.now.nodes (places against.now.inst.now + length against.now.plan.now.cuts)) against.now.plan.now.tree }
        requires rows { HasRows against.now.inst.now self.old.forbidden }
        requires stands { StandsAt against.now.inst.now against.now.plan.now.tree (reverse self.old.turns.items) (region_of_marks self.old.forbidden self.old.ranges) }
        ensures found { (node : AnyRecord) → slice_get against.now.plan.now.tree index ≡ Some node
            → Tells (RecordFinds against.now.inst.now against.now.plan.now (region_of_marks self.old.forbidden self.old.ranges) index node) (result_err result) }
        ensures left { OnOk result ((node : AnyRecord) (gs : List Region) → slice_get against.now.plan.now.tree index ≡ Some node
            → IsTreePlace against.now.inst.now against.now.plan.now.tree (reverse self.old.turns.items) (region_of_marks self.old.forbidden self.old.ranges) gs
            → AreLeft against.now.inst.now against.now.plan.now.tree (reverse self.new.turns.items) (region_of_marks self.new.forbidden self.new.ranges) (children_at (region_of_marks self.old.forbidden self.old.ranges) node ++ gs)) }
        ensures rows { HasRows against.now.inst.now self.new.forbidden }
        ensures least { OnOk result ((node : AnyRecord) (leaves : List LeafAt) → slice_get against.now.plan.now.tree index ≡ Some node
            → IsLeastBoundIn against.now.inst.now against.now.plan.now.cuts leaves self.old.least
            → IsLeastBoundIn against.now.inst.now against.now.plan.now.cuts (leaves ++ leaf_here (region_of_marks self.old.forbidden self.old.ranges) node) self.new.least) }
    {
        let node = &against.plan.tree.nodes()[index as usize];
        match node {
            TreeNode::Leaf(evidence) => {
                self.visit_leaf(alloc, against, index, node, evidence)?;
                self.go_on(against)?;
            }
            TreeNode::Split {
                demand,
                node,
                left,
                right,
            } => {
                let split = Split {
                    index,
                    demand: *demand,
                    node: *node,
                    left: left.as_slice(),
                    right: right.as_slice(),
                };
                self.visit_split(against, &split)?;
            }
            TreeNode::Loads { place, load } => {
                self.visit_loads(against, index, *place, *load)?;
            }
        }
        Ok(())
    }
}

/// Checks the records in their order, and gives the least bound of open leaves, in cost grains.
pub(crate) fn walk_tree(alloc: Global, against: &Against) -> Result<Option<i128>, Rejected>
    requires table { against.now.table.now ≡ against.now.inst.now }
    requires unit { IsUnit against.now.inst.now against.now.unit }
    requires cuts { HasRests against.now.inst.now against.now.plan.now.cuts against.now.rests.now }
    requires sizes { HasSizes against.now.inst.now against.now.plan.now }
    requires spelled { IsSpellable against.now.plan.now }
    ensures fault { IfErr result (λ fault. fault ≢ OutOfMemory → TreeFinds against.now.inst.now against.now.plan.now against.now.plan.now.tree (Some fault)) }
    ensures none { IfOk result (λ _. TreeFinds against.now.inst.now against.now.plan.now against.now.plan.now.tree None) }
    ensures least { IfOk result (IsLeastBoundIn against.now.inst.now against.now.plan.now.cuts (leaves_of against.now.inst.now against.now.plan.now.tree)) }
{
    let mut walk = Walk::new(alloc, against.inst)?;
    for index in 0..against.plan.tree.nodes().len() {
        walk.visit(alloc, against, index as u32)?;
    }
    Ok(walk.least)
}
