//! The search tree, and its calls.

ghost use Rattle.std.specs.Prelude.{ℕ, ◌≡◌, ◌<◌, ◌≤◌, ◌↔◌, [], ◌∷◌, List, Option, length, count_by, false, true, IfOk, IfErr, OnOk, OnErr, IsSomeAnd, IsTrue, All, Some};
ghost use Rattle.plan_base.specs.declared.parts.Parts.{Parts as AnyParts};
ghost use Rattle.plan_base.specs.Arcs.{demand_at};
ghost use Rattle.plan_base.specs.Places.{places};
ghost use Rattle.plan_base.specs.Paths.{IsSimplePath};
ghost use Rattle.link_steps.specs.Ranges.{AreRanges};
ghost use Rattle.arc_restrict.specs.Rows.{forbids, HasSizeOf};
ghost use Rattle.proof_tree.specs.declared.cuts.Cut.{Cut as AnyCut};
ghost use Rattle.proof_tree.specs.RatedTrees.{IsRatedTree};
ghost use Rattle.branch_tree.specs.Branches.{restriction_by, ranges_by, left_limit, right_limit, restriction_at, ranges_at, is_open_fate, is_open_node, prices_at, is_open_at, is_open_evidence, with_fate, with_prices, child_of, IsDivided, IsSplitAt, IsLoadSplitAt, IsSplitFault, IsLoadFault, PartAtNode, IsLimitOf, IsTreeOf, tree_node_at, HaveTheirEvidence};
ghost use Rattle.branch_tree.specs.Records.{records_of};

use crate::dealing::deal;
use crate::node::{ArcSplit, BranchNode, Divider, Division, Fate, Limit, LoadSplit};
use crate::records::records_of;
use crate::split_fault::{LoadFault, SplitFault};
use arc_restrict::{Restriction, divergence};
use link_steps::{LoadRange, Ranges};
use plan_base::{ArcId, BranchId, DemandId, Instance, Items, NodeId, Path, Prices};
use proof_tree::{Evidence, Tree};
use std::alloc::{AllocError, Global};
use std::marker::Model;

/// Whether the node is open.
fn is_open_fate(fate: &Fate) -> bool
    ensures { result ≡ is_open_fate fate.now }
{
    match fate {
        Fate::Undone => true,
        Fate::ClosedBy(_) => false,
        Fate::DividedBy(_) => false,
    }
}

/// What the limits forbid.
fn restriction_by(
    alloc: Global,
    inst: &Instance,
    limits: &[Limit],
) -> Result<Restriction, AllocError>
    requires { All (IsLimitOf inst.now) limits.now }
    ensures value { IfOk result (λ r. forbids r ≡ restriction_by limits.now) }
    ensures size { IfOk result (λ r. HasSizeOf inst.now r) }
{
    let mut restriction = Restriction::none(alloc, inst)?;
    let mut here = limits.len();
    while here > 0 {
        here -= 1;
        limits[here].forbid(&mut restriction);
    }
    Ok(restriction)
}

/// How much load the limits leave each place.
fn ranges_by(alloc: Global, inst: &Instance, limits: &[Limit]) -> Result<Ranges, AllocError>
    requires { All (IsLimitOf inst.now) limits.now }
    ensures { IfOk result (λ ranges. ranges ≡ ranges_by inst.now limits.now) }
{
    let mut ranges = Ranges::whole(alloc, inst)?;
    let mut here = limits.len();
    while here > 0 {
        here -= 1;
        limits[here].narrow(&mut ranges);
    }
    Ok(ranges)
}

/// One more limit, in front of the same limits.
fn limits_with(alloc: Global, limits: &[Limit], last: Limit) -> Result<Items<Limit>, AllocError>
    ensures { IfOk result (λ more. more ≡ last ∷ limits.now) }
{
    let mut more = Vec::new(alloc);
    more.push(last)?;
    for held in limits {
        more.push(held.copy()?)?;
    }
    Ok(Items::from_vec(more))
}

/// Whether the range has loads up to this one, and loads above it.
fn has_both_sides(range: LoadRange, load: u64) -> bool
    ensures { IsTrue result ↔ ((range.least ≤ load) × (load < range.most)) }
{
    range.least <= load && load < range.most
}

/// The search tree: nodes in the order of their making, the root first.
#[derive(Debug, Drop)]
pub struct Branch {
    nodes: Vec<BranchNode>,
}

impl Model for Branch {
    ghost use Rattle.branch_tree.specs.Records.{Nodes, AreNodes};

    ghost Value = { Nodes };

    ghost view = { λ a. a.nodes.items };

    ghost invariant = { λ a. AreNodes a.nodes.items };
}

impl Branch {
    /// The tree whose only node is the root, open with these prices.
    ///
    /// - Takes: prices in thousandths of a cost grain per load grain, one for each place, and rates of cuts behind them.
    /// - Errors: want of memory.
    /// - Rule: docs/METHOD.md, "Search trees".
    pub fn new(alloc: Global, root: Prices) -> Result<Branch, AllocError>
        ensures value { IfOk result (λ nodes. nodes ≡ record { limits = []; prices = root; fate = Fate.Undone } ∷ []) }
        ensures of { IfOk result (λ nodes. (p : AnyParts) → IsTreeOf p nodes) }
    {
        let root = BranchNode {
            limits: Items::new(alloc),
            prices: root,
            fate: Fate::Undone,
        };
        Ok(Branch {
            nodes: vec![in alloc; root]?,
        })
    }

    /// Splits an open node where two paths part.
    ///
    /// - Takes: two simple paths of the demand, and the instance of all calls on this tree.
    /// - Gives: the left child, which forbids the first path's arc, and the right child. Both are
    ///   open and begin with the node's prices.
    /// - Errors: `NotOpen`, `NotPermitted`, `SamePath`, in this order; or want of memory, which may
    ///   come in place of any answer, and which a tree of more than 2^32 - 1 nodes counts as. The
    ///   tree is then unchanged.
    /// - Rule: docs/METHOD.md, "Search trees".
    /// - Time: linear in the leaving arcs of the node and in what is forbidden there, and the size
    ///   of a restriction.
    pub fn split(
        &mut self,
        inst: &Instance,
        node: BranchId,
        demand: DemandId,
        first: &Path,
        second: &Path,
    ) -> Result<(BranchId, BranchId), SplitFault>
        requires demand { demand.0 < length inst.now.demands }
        requires first { IsSimplePath inst.now (demand_at inst.now demand.0) first.now }
        requires second { IsSimplePath inst.now (demand_at inst.now demand.0) second.now }
        requires of { IsTreeOf inst.now self.old }
        ensures ok { IfOk result (λ ids. IsSplitAt inst.now self.old node.0 demand first.now second.now ids self.new) }
        ensures fault { IfErr result (IsSplitFault self.old node.0 demand first.now second.now) }
        ensures unchanged { OnErr result (self.new ≡ self.old) }
        ensures of { IsTreeOf inst.now self.new }
    {
        let (restriction, (at, one, other)) = self.parting(inst, node, demand, first, second)?;
        let alloc = *self.nodes.allocator();
        let sides = deal(alloc, &restriction, demand, one, other, inst.leaving(at))?;
        let left = Items::from_vec(sides.left);
        let right = Items::from_vec(sides.right);
        let by = Divider::Arcs(ArcSplit {
            demand,
            at,
            left,
            right,
        });
        Ok(self.divide(node, by)?)
    }

    /// Splits an open node by loads of a place.
    ///
    /// - Takes: a place of the instance, which is that of all calls on this tree, and the most load
    ///   of the left child.
    /// - Gives: the left child, where the place carries at most this load, and the right child,
    ///   where it carries more. Both are open and begin with the node's prices.
    /// - Errors: `NotOpen`, `OutsideRange`, in this order; or want of memory, which may come in
    ///   place of any answer, and which a tree of more than 2^32 - 1 nodes counts as. The tree is
    ///   then unchanged.
    /// - Rule: docs/METHOD.md, "Search trees".
    /// - Time: linear in the places and in the limits of the node.
    pub fn split_load(
        &mut self,
        inst: &Instance,
        node: BranchId,
        split: LoadSplit,
    ) -> Result<(BranchId, BranchId), LoadFault>
        requires place { split.place < places inst.now }
        requires of { IsTreeOf inst.now self.old }
        ensures ok { IfOk result (λ ids. IsLoadSplitAt inst.now self.old node.0 split ids self.new) }
        ensures fault { IfErr result (IsLoadFault inst.now self.old node.0 split) }
        ensures unchanged { OnErr result (self.new ≡ self.old) }
        ensures of { IsTreeOf inst.now self.new }
    {
        inst.lawful();
        if !self.is_open(node) {
            return Err(LoadFault::NotOpen);
        }
        let range = self.ranges(inst, node)?.at(split.place);
        if !has_both_sides(range, split.load) {
            return Err(LoadFault::OutsideRange);
        }
        Ok(self.divide(node, Divider::Load(split))?)
    }

    /// Copies the prices over those of an open node. Takes no memory.
    ///
    /// - Takes: as many prices as the node has, in thousandths of a cost grain per load grain.
    /// - Time: linear in the prices.
    pub fn set_prices(&mut self, node: BranchId, prices: &Prices)
        requires { IsSomeAnd (prices_at self.old node.0) (λ held. length prices.now ≡ length held) }
        ensures value { self.new ≡ with_prices self.old node.0 prices.now }
        ensures of { (p : AnyParts) → IsTreeOf p self.old → IsTreeOf p self.new }
    {
        let node = &mut self.nodes[node.0 as usize];
        node.prices.set_to(prices);
    }

    /// Closes an open node by evidence. Takes no memory.
    ///
    /// - Takes: evidence that closes a leaf.
    pub fn close(&mut self, node: BranchId, evidence: Evidence)
        requires open { is_open_at self.old node.0 ≡ true }
        requires closes { is_open_evidence evidence ≡ false }
        ensures value { self.new ≡ with_fate self.old node.0 (Fate.ClosedBy evidence) }
        ensures of { (p : AnyParts) → IsTreeOf p self.old → IsTreeOf p self.new }
    {
        let node = &mut self.nodes[node.0 as usize];
        node.fate = Fate::ClosedBy(evidence);
    }

    /// Whether there is a node of this number, and it is open.
    pub fn is_open(&self, node: BranchId) -> bool
        ensures { result ≡ is_open_at self.now node.0 }
    {
        match self.nodes.as_slice().get(node.0 as usize) {
            Some(node) => is_open_fate(&node.fate),
            None => false,
        }
    }

    /// How many nodes are open.
    ///
    /// - Time: linear in the nodes.
    pub fn open_count(&self) -> u32
        ensures { result ≡ count_by is_open_node self.now }
    {
        self.nodes
            .iter()
            .filter(|node| is_open_fate(&node.fate))
            .count() as u32
    }

    /// How many nodes the tree has.
    pub fn node_count(&self) -> u32
        ensures { result ≡ length self.now }
    {
        self.nodes.len() as u32
    }

    /// What the splits above the node forbid.
    ///
    /// - Takes: a node of the tree, and the instance of all calls on it.
    /// - Errors: want of memory.
    /// - Rule: docs/METHOD.md, "Search trees".
    /// - Time: the size of a restriction, and linear in what is forbidden there.
    pub fn restriction(&self, inst: &Instance, node: BranchId) -> Result<Restriction, AllocError>
        requires node { node.0 < length self.now }
        requires of { IsTreeOf inst.now self.now }
        ensures value { IfOk result (λ r. forbids r ≡ restriction_at self.now node.0) }
        ensures size { IfOk result (λ r. HasSizeOf inst.now r) }
    {
        let limits = self.nodes[node.0 as usize].limits.as_slice();
        restriction_by(*self.nodes.allocator(), inst, limits)
    }

    /// How much load the splits above the node leave each place.
    ///
    /// - Takes: a node of the tree, and the instance of all calls on it.
    /// - Errors: want of memory.
    /// - Rule: docs/METHOD.md, "Search trees".
    /// - Time: linear in the places, their links' modules and the limits of the node.
    pub fn ranges(&self, inst: &Instance, node: BranchId) -> Result<Ranges, AllocError>
        requires node { node.0 < length self.now }
        requires of { IsTreeOf inst.now self.now }
        ensures value { IfOk result (λ ranges. ranges ≡ ranges_at inst.now self.now node.0) }
        ensures ranges { IfOk result (AreRanges inst.now) }
    {
        let limits = self.nodes[node.0 as usize].limits.as_slice();
        ranges_by(*self.nodes.allocator(), inst, limits)
    }

    /// The tree of what is known: an open node is an open leaf with its prices.
    ///
    /// - Gives: a tree that is valid with given cuts, where each leaf has its evidence with them.
    /// - Errors: want of memory, which a tree of 2^32 - 1 records or more counts as.
    /// - Rule: docs/METHOD.md, "Search trees".
    /// - Time: linear in the records and their lists.
    pub fn into_tree(self) -> Result<Tree, AllocError>
        ensures value { IfOk result (λ tree. tree ≡ records_of self) }
        ensures valid { (p : AnyParts) (cuts : List AnyCut) (cost : Option ℕ) → IsTreeOf p self → HaveTheirEvidence p cuts cost self → IfOk result (λ tree. IsRatedTree p cuts cost tree) }
    {
        let records = records_of(*self.nodes.allocator(), self.nodes.as_slice())?;
        if records.len() >= u32::MAX as usize {
            return Err(AllocError);
        }
        match Tree::from_nodes(records) {
            Ok(tree) => Ok(tree),
            Err(_) => unreachable!(),
        }
    }

    /// What is forbidden at the node, and where the two paths part.
    fn parting(
        &self,
        inst: &Instance,
        node: BranchId,
        demand: DemandId,
        first: &Path,
        second: &Path,
    ) -> Result<(Restriction, (NodeId, ArcId, ArcId)), SplitFault>
        requires first { IsSimplePath inst.now (demand_at inst.now demand.0) first.now }
        requires second { IsSimplePath inst.now (demand_at inst.now demand.0) second.now }
        requires of { IsTreeOf inst.now self.now }
        ensures fault { IfErr result (IsSplitFault self.now node.0 demand first.now second.now) }
        ensures open { OnOk result (is_open_at self.now node.0 ≡ true) }
        ensures restriction { IfOk result (λ found. forbids found.0 ≡ restriction_at self.now node.0) }
        ensures part { IfOk result (λ found. PartAtNode inst.now (restriction_at self.now node.0) demand first.now second.now found.1) }
    {
        if !self.is_open(node) {
            return Err(SplitFault::NotOpen);
        }
        let restriction = self.restriction(inst, node)?;
        if !restriction.permits(demand, first) {
            return Err(SplitFault::NotPermitted { which: 1 });
        }
        if !restriction.permits(demand, second) {
            return Err(SplitFault::NotPermitted { which: 2 });
        }
        match divergence(inst, first, second) {
            Some(part) => Ok((restriction, part)),
            None => Err(SplitFault::SamePath),
        }
    }

    /// The child of a node that has this limit too.
    fn child(&self, node: BranchId, last: Limit) -> Result<BranchNode, AllocError>
        requires { node.0 < length self.now }
        ensures { IfOk result (λ child. child ≡ child_of (tree_node_at self.now node.0) last) }
    {
        let parent = &self.nodes[node.0 as usize];
        let alloc = *self.nodes.allocator();
        let limits = limits_with(alloc, parent.limits.as_slice(), last)?;
        Ok(BranchNode {
            limits,
            prices: parent.prices.copy()?,
            fate: Fate::Undone,
        })
    }

    /// The two children of a node that is split so.
    fn children(&self, node: BranchId, by: &Divider) -> Result<Vec<BranchNode>, AllocError>
        requires { node.0 < length self.now }
        ensures { IfOk result (λ children. children.items
            ≡ child_of (tree_node_at self.now node.0) (left_limit by.now) ∷ child_of (tree_node_at self.now node.0) (right_limit by.now) ∷ []) }
    {
        let mut children = Vec::new(*self.nodes.allocator());
        children.push(self.child(node, by.left_limit()?)?)?;
        children.push(self.child(node, by.right_limit()?)?)?;
        Ok(children)
    }

    /// Gives an open node two children.
    fn divide(&mut self, node: BranchId, by: Divider) -> Result<(BranchId, BranchId), AllocError>
        requires { is_open_at self.old node.0 ≡ true }
        ensures ok { IfOk result (λ ids. IsDivided self.old node.0 by ids self.new) }
        ensures unchanged { OnErr result (self.new ≡ self.old) }
    {
        let count = self.nodes.len();
        if count >= u32::MAX as usize - 1 {
            return Err(AllocError);
        }
        let left_child = BranchId(count as u32);
        let right_child = BranchId(count as u32 + 1);
        let mut children = self.children(node, &by)?;
        self.nodes.append(&mut children)?;
        let parent = &mut self.nodes[node.0 as usize];
        parent.fate = Fate::DividedBy(Division {
            by,
            left_child,
            right_child,
        });
        Ok((left_child, right_child))
    }
}
