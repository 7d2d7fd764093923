//! Whether a plan's parts are of the sizes that a plan text can hold.

ghost use Rattle.std.specs.Prelude.{◌≡◌, ◌≤◌, ◌↔◌, length, IsTrue, IfSome, All};
ghost use Rattle.plan_base.specs.declared.limits.TheConstants.{MAX_MODULES};
ghost use Rattle.proof_tree.specs.declared.limits.TheConstants.{MAX_CUTS};
ghost use Rattle.proof_tree.specs.Spellings.{IsAscending, IsWrittenSide, places_in, numbers_in, FitsEvidence, FitsRecord, FitsStatus, FitsSizes, FitsCuts, FitsDesign, FitsTree};

use crate::cuts::Cut;
use crate::limits::{MAX_BUDGET, MAX_CUTS, MAX_PATH_ARCS, MAX_RECORDS, MAX_SIDE_ARCS};
use crate::plan::{Plan, PlanStatus};
use crate::tree::{Evidence, TreeNode};
use plan_base::limits::{MAX_DEMANDS, MAX_LINKS, MAX_MODULES, MAX_NODES};
use plan_base::{ArcId, Design, Items, Path};

/// Whether each arc has a greater number than the one before it.
fn is_ascending(arcs: &[ArcId]) -> bool
    ensures { IsTrue result ↔ IsAscending arcs.now }
{
    for place in 1..arcs.len() {
        if arcs[place].0 <= arcs[place - 1].0 {
            return false;
        }
    }
    true
}

/// Whether the arcs can stand as one side of a split.
fn is_side(arcs: &[ArcId]) -> bool
    ensures { IsTrue result ↔ IsWrittenSide arcs.now }
{
    arcs.len() <= MAX_SIDE_ARCS && is_ascending(arcs)
}

/// How many places there are: one for each link, or two where each direction has a price of its own.
fn places(both: bool, links: u32) -> usize
    ensures { result ≡ places_in both links }
{
    if both {
        2 * links as usize
    } else {
        links as usize
    }
}

/// How many numbers a leaf has: a price for each place, and a rate for each cut.
pub(crate) fn numbers(plan: &Plan) -> usize
    requires { length plan.now.cuts ≤ MAX_CUTS }
    ensures { result ≡ numbers_in plan.now }
{
    places(plan.both, plan.links) + plan.cuts.len()
}

/// Whether there are few enough cuts, and each has an answer for each node.
pub(crate) fn fits_cuts(nodes: u32, cuts: &[Cut]) -> bool
    ensures { IsTrue result ↔ FitsCuts nodes cuts.now }
{
    cuts.len() <= MAX_CUTS && cuts.iter().all(|cut| cut.nodes.len() == nodes as usize)
}

/// Whether the evidence has so many numbers, or one answer for each node.
fn fits_evidence(nodes: u32, numbers: usize, evidence: &Evidence) -> bool
    ensures { IsTrue result ↔ FitsEvidence nodes numbers evidence.now }
{
    match evidence {
        Evidence::Bound(list) | Evidence::Crowd(list) | Evidence::Open(list) => {
            list.as_slice().len() == numbers
        }
        Evidence::Cut { reached, .. } => reached.len() == nodes as usize,
        Evidence::Routed | Evidence::Overfull { .. } | Evidence::Far { .. } => true,
    }
}

/// Whether the record can stand in a text.
fn fits_record(nodes: u32, numbers: usize, node: &TreeNode) -> bool
    ensures { IsTrue result ↔ FitsRecord nodes numbers node.now }
{
    match node {
        TreeNode::Split { left, right, .. } => is_side(left.as_slice())
            && is_side(right.as_slice()),
        TreeNode::Loads { .. } => true,
        TreeNode::Leaf(evidence) => fits_evidence(nodes, numbers, evidence),
    }
}

/// Whether there are few enough records, and each can stand in a text.
pub(crate) fn fits_records(nodes: u32, numbers: usize, records: &[TreeNode]) -> bool
    ensures { IsTrue result ↔ FitsTree nodes numbers records.now }
{
    records.len() <= MAX_RECORDS && records.iter().all(|node| fits_record(nodes, numbers, node))
}

/// Whether the sizes are those of an instance, and the budget is one that may be given.
pub(crate) fn fits_sizes(plan: &Plan) -> bool
    ensures { IsTrue result ↔ FitsSizes plan.now }
{
    plan.nodes <= MAX_NODES
        && plan.links as usize <= MAX_LINKS
        && plan.demands as usize <= MAX_DEMANDS
        && 1 <= plan.budget
        && plan.budget <= MAX_BUDGET
}

/// Whether there is a design and a bound as the status asks.
pub(crate) fn fits_status(plan: &Plan) -> bool
    ensures { IsTrue result ↔ FitsStatus plan.now.status plan.now.design plan.now.bound }
{
    match plan.status {
        PlanStatus::Optimal => plan.design.is_some() && plan.bound.is_none(),
        PlanStatus::Infeasible => plan.design.is_none() && plan.bound.is_none(),
        PlanStatus::Undecided => true,
    }
}

/// Whether no path is too long for a text.
fn are_short(paths: &[Path]) -> bool
    ensures { IsTrue result ↔ All (λ arcs. length arcs ≤ MAX_PATH_ARCS) paths.now }
{
    paths
        .iter()
        .all(|path| path.as_slice().len() <= MAX_PATH_ARCS)
}

/// Whether no list of counts is too long for a text.
fn are_few(counts: &[Items<u64>]) -> bool
    ensures { IsTrue result ↔ All (λ list. length list ≤ MAX_MODULES) counts.now }
{
    counts.iter().all(|list| list.len() <= MAX_MODULES)
}

/// Whether the design has a path for each demand and a list of counts for each link, none too long.
fn has_size(demands: u32, links: u32, design: &Design) -> bool
    ensures { IsTrue result ↔ FitsDesign demands links design.now }
{
    design.paths.len() == demands as usize
        && design.counts.len() == links as usize
        && are_short(design.paths.as_slice())
        && are_few(design.counts.as_slice())
}

/// Whether the design, where there is one, is of the plan's sizes.
pub(crate) fn fits_design(plan: &Plan) -> bool
    ensures { IsTrue result
        ↔ IfSome plan.now.design (λ design. FitsDesign plan.now.demands plan.now.links design.1) }
{
    match &plan.design {
        Some((_, design)) => has_size(plan.demands, plan.links, design),
        None => true,
    }
}
