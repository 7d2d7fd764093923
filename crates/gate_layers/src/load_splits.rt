//! Splits of a search tree's root at a load of a place.

ghost use Rattle.std.specs.Prelude.{◌<◌, length, IfSome};
ghost use Rattle.plan_base.specs.Places.{places};
ghost use Rattle.link_steps.specs.Ranges.{AreRanges};
ghost use Rattle.branch_tree.specs.Branches.{IsTreeOf};

use crate::asking::Question;
use crate::splits::{root_of, tell_records};
use crate::telling::tell_number;
use branch_tree::{Branch, LoadSplit};
use link_steps::Ranges;
use plan_base::{BranchId, Instance};
use std::alloc::Global;

/// Splits a node, and adds what is answered.
fn tell_answer(
    inst: &Instance,
    branch: &mut Branch,
    node: BranchId,
    split: LoadSplit,
    text: &mut String,
) -> Option<()>
    requires place { split.place < places inst.now }
    requires of { IsTreeOf inst.now branch.old }
    ensures { IsTreeOf inst.now branch.new }
{
    let answer = branch.split_load(inst, node, split);
    write!(text, " {answer:?}").ok()
}

/// The ranges of a node.
fn ranges_of(inst: &Instance, branch: &Branch, node: BranchId) -> Option<Ranges>
    requires node { node.0 < length branch.now }
    requires of { IsTreeOf inst.now branch.now }
    ensures { IfSome result (AreRanges inst.now) }
{
    branch.ranges(inst, node).ok()
}

/// Adds the range of each place.
fn tell_ranges(inst: &Instance, ranges: &Ranges, text: &mut String) -> Option<()>
    requires { AreRanges inst.now ranges.now }
{
    for place in 0..inst.places() {
        let range = ranges.at(place);
        write!(text, " {}-{}", range.least, range.most).ok()?;
    }
    Some(())
}

/// Adds the loads that each node of the tree leaves each place, and how many nodes are open.
fn tell_nodes(inst: &Instance, branch: &Branch, text: &mut String) -> Option<()>
    requires { IsTreeOf inst.now branch.now }
{
    for node in 0..branch.node_count() {
        let ranges = ranges_of(inst, branch, BranchId(node))?;
        tell_number(",", u128::from(node), text)?;
        text.push_str(" carries").ok()?;
        tell_ranges(inst, &ranges, text)?;
    }
    write!(text, ", {} open", branch.open_count()).ok()
}

/// Splits the root at a load of a place, once more, and then its left child at another load, and adds what is answered, the
/// nodes, and the records of the tree.
fn tell_tree(
    alloc: Global,
    inst: &Instance,
    first: LoadSplit,
    second: LoadSplit,
    text: &mut String,
) -> Option<()>
    requires first { first.place < places inst.now }
    requires second { second.place < places inst.now }
{
    let mut branch = root_of(alloc)?;
    tell_answer(inst, &mut branch, BranchId(0), first, text)?;
    tell_answer(inst, &mut branch, BranchId(0), first, text)?;
    tell_answer(inst, &mut branch, BranchId(1), second, text)?;
    tell_nodes(inst, &branch, text)?;
    tell_records(branch, text)
}

/// Adds what becomes of a tree whose root is split at a load of a place, and its left child at another one.
pub(crate) fn tell_loads(question: Question<'_>, text: &mut String) -> Option<()> {
    let Question { alloc, inst, .. } = question;
    let place = question.number(2);
    if place >= inst.places() {
        return None;
    }
    let first = LoadSplit {
        place,
        load: question.amount(3),
    };
    let second = LoadSplit {
        place,
        load: question.amount(4),
    };
    tell_tree(alloc, inst, first, second, text)
}
