//! Splits of a search tree's root where two paths part.

ghost use Rattle.std.specs.Prelude.{◌<◌, length, IfSome};
ghost use Rattle.plan_base.specs.Arcs.{demand_at};
ghost use Rattle.plan_base.specs.declared.parts.Parts.{Parts as AnyParts};
ghost use Rattle.plan_base.specs.Paths.{IsSimplePath};
ghost use Rattle.branch_tree.specs.Branches.{IsTreeOf};

use crate::asking::Question;
use crate::telling::tell_number;
use arc_restrict::Restriction;
use branch_tree::Branch;
use plan_base::{ArcId, BranchId, DemandId, Instance, Path, Prices, is_simple_path};
use proof_tree::Evidence;
use std::alloc::Global;

/// The tree of a root whose prices were raised to 4, 5 and 6.
pub(crate) fn root_of(alloc: Global) -> Option<Branch>
    ensures { (p : AnyParts) → IfSome result (IsTreeOf p) }
{
    let first = Prices::from_vec(vec![in alloc; 1, 2, 3].ok()?);
    let raised = Prices::from_vec(vec![in alloc; 4, 5, 6].ok()?);
    let mut branch = Branch::new(alloc, first).ok()?;
    branch.set_prices(BranchId(0), &raised);
    Some(branch)
}

/// Splits the root where two paths of the demand part, once more, and then its left child, and adds what is answered.
fn tell_answers(
    inst: &Instance,
    branch: &mut Branch,
    demand: DemandId,
    first: &Path,
    second: &Path,
    text: &mut String,
) -> Option<()>
    requires demand { demand.0 < length inst.now.demands }
    requires first { IsSimplePath inst.now (demand_at inst.now demand.0) first.now }
    requires second { IsSimplePath inst.now (demand_at inst.now demand.0) second.now }
    requires of { IsTreeOf inst.now branch.old }
    ensures { IsTreeOf inst.now branch.new }
{
    for node in [0, 0, 1] {
        let answer = branch.split(inst, BranchId(node), demand, first, second);
        write!(text, " {answer:?}").ok()?;
    }
    Some(())
}

/// Adds each demand with an arc that is forbidden to it.
fn tell_forbidden(inst: &Instance, restriction: &Restriction, text: &mut String) -> Option<()> {
    for demand in 0..inst.demands() {
        for arc in 0..inst.arcs() {
            if !restriction.allows(DemandId(demand), ArcId(arc)) {
                write!(text, " {demand}:{arc}").ok()?;
            }
        }
    }
    Some(())
}

/// Adds what a node of the tree forbids.
fn tell_limits(inst: &Instance, branch: &Branch, node: BranchId, text: &mut String) -> Option<()>
    requires node { node.0 < length branch.now }
    requires of { IsTreeOf inst.now branch.now }
{
    tell_number(",", u128::from(node.0), text)?;
    text.push_str(" forbids").ok()?;
    let restriction = branch.restriction(inst, node).ok()?;
    tell_forbidden(inst, &restriction, text)
}

/// Adds what each node of the tree forbids, and how many are open.
fn tell_nodes(inst: &Instance, branch: &Branch, text: &mut String) -> Option<()>
    requires { IsTreeOf inst.now branch.now }
{
    for node in 0..branch.node_count() {
        tell_limits(inst, branch, BranchId(node), text)?;
    }
    write!(text, ", {} open", branch.open_count()).ok()
}

/// Adds the records of a tree, where the right child of its root is closed.
pub(crate) fn tell_records(branch: Branch, text: &mut String) -> Option<()> {
    let mut branch = branch;
    if branch.is_open(BranchId(2)) {
        branch.close(BranchId(2), Evidence::Routed);
    }
    write!(text, ": {:?}", branch.into_tree().ok()?.nodes()).ok()
}

/// Adds what becomes of a tree whose root is split at two paths of a demand: what three splits are answered, the nodes, and
/// the records.
pub(crate) fn tell_split(question: Question<'_>, text: &mut String) -> Option<()> {
    let Question { alloc, inst, .. } = question;
    let first = question.path(3)?;
    let second = question.path(4)?;
    let demand = DemandId(question.number(2));
    if demand.0 < inst.demands()
        && is_simple_path(inst, demand, &first)
        && is_simple_path(inst, demand, &second)
    {
        let mut branch = root_of(alloc)?;
        tell_answers(inst, &mut branch, demand, &first, &second, text)?;
        tell_nodes(inst, &branch, text)?;
        return tell_records(branch, text);
    }
    None
}
