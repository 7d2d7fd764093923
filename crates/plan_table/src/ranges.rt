//! The table of the ranges of loads of leaves.

ghost use Rattle.std.specs.Prelude.{◌≡◌, ◌<◌, ◌+◌, ◌++◌, ◌∷◌, [], length, OnOk, IfOk};
ghost use Rattle.plan_base.specs.Places.{places};
ghost use Rattle.link_steps.specs.Ranges.{range_at, ends_at, begins_at, with_range};
ghost use Rattle.proof_tree.specs.Regions.{whole};
ghost use Rattle.plan_table.specs.Pending.{IsDivisible, children_last};
ghost use Rattle.plan_table.specs.Tables.{is_whole, is_back_place, place_ends, range_head, range_fields, range_row, range_rows, leaf_ranges, tree_ranges};

use crate::fields::{push_digits, push_field};
use crate::links::push_ends;
use link_steps::{LoadRange, Ranges};
use plan_base::Instance;
use plan_report::{LOAD_SCALE, NamedPlan, link_name};
use proof_tree::TreeNode;
use scaled_numbers::write_grains;
use std::alloc::{AllocError, Global};

/// Whether the range of the place has all its loads.
fn is_whole(inst: &Instance, range: LoadRange, place: u32) -> bool
    requires { place < places inst.now }
    ensures { result ≡ is_whole inst.now range place }
{
    range.least == 0 && range.most == inst.top_load(inst.link_of_place(place))
}

/// Whether the place is that of an arc from a link's target to its source.
fn is_back_place(inst: &Instance, place: u32) -> bool
    ensures { result ≡ is_back_place inst.now place }
{
    inst.orient().is_two_way() && place % 2 == 1
}

/// Writes the names of the ends of a place's link, each behind a comma, in the order in which the place leads.
fn push_place_ends(text: &mut Vec<u8>, named: &NamedPlan, place: u32) -> Result<(), AllocError>
    requires { place < places named.now.parts }
    ensures { OnOk result (text.new.items ≡ text.old.items ++ place_ends named.now.net named.now.parts place) }
{
    let link = named.inst().link(named.inst().link_of_place(place));
    if is_back_place(named.inst(), place) {
        push_ends(text, named.net(), link.target, link.source)
    } else {
        push_ends(text, named.net(), link.source, link.target)
    }
}

/// A record of a plan's tree with the ranges that it has.
#[derive(Drop)]
struct RangedRecord<'a> {
    named: &'a NamedPlan<'a>,
    /// Its place in the tree.
    index: u64,
    ranges: &'a Ranges,
}

/// Writes the place of a record in the tree, and the names of a place's link and of its ends.
#[tactic(auto, unfolding(crate::specs::Tables::range_head))]
fn push_head(text: &mut Vec<u8>, at: &RangedRecord, place: u32) -> Result<(), AllocError>
    requires { place < places at.now.named.now.parts }
    ensures { OnOk result (text.new.items ≡ text.old.items ++ range_head at.now.named.now.net at.now.named.now.parts at.now.index place) }
{
    text.extend_from_slice(b"range,")?;
    push_digits(text, at.index)?;
    let link = at.named.inst().link_of_place(place);
    push_field(text, link_name(at.named.net(), link))?;
    push_place_ends(text, at.named, place)
}

/// Writes the least and the most load of a range.
#[tactic(auto, unfolding(crate::specs::Tables::range_fields))]
fn push_fields(text: &mut Vec<u8>, range: LoadRange) -> Result<(), AllocError>
    ensures { OnOk result (text.new.items ≡ text.old.items ++ range_fields range) }
{
    text.push(b',')?;
    write_grains(u128::from(range.least), LOAD_SCALE, text)?;
    text.push(b',')?;
    write_grains(u128::from(range.most), LOAD_SCALE, text)
}

/// Writes the line of the range of a place, where it has not all loads.
fn push_if_cut(text: &mut Vec<u8>, at: &RangedRecord, place: u32) -> Result<(), AllocError>
    requires count { length at.now.ranges.now ≡ places at.now.named.now.parts }
    requires place { place < places at.now.named.now.parts }
    ensures { OnOk result (text.new.items
        ≡ text.old.items ++ range_row at.now.named.now.net at.now.named.now.parts at.now.index at.now.ranges.now place) }
{
    let range = at.ranges.at(place);
    if is_whole(at.named.inst(), range, place) {
        return Ok(());
    }
    push_head(text, at, place)?;
    push_fields(text, range)?;
    text.push(b'\n')?;
    Ok(())
}

/// Writes the lines of the ranges of a leaf.
#[tactic(auto, using(plan_report::proofs::Counted::counted_more))]
fn push_places(text: &mut Vec<u8>, at: &RangedRecord) -> Result<(), AllocError>
    requires { length at.now.ranges.now ≡ places at.now.named.now.parts }
    ensures { OnOk result (text.new.items
        ≡ text.old.items ++ range_rows at.now.named.now.net at.now.named.now.parts at.now.index at.now.ranges.now (places at.now.named.now.parts)) }
{
    for place in 0..at.named.inst().places() {
        push_if_cut(text, at, place)?;
    }
    Ok(())
}

/// Writes the lines of a record, where it is a leaf.
fn push_leaf(text: &mut Vec<u8>, at: &RangedRecord, node: &TreeNode) -> Result<(), AllocError>
    requires { length at.now.ranges.now ≡ places at.now.named.now.parts }
    ensures { OnOk result (text.new.items
        ≡ text.old.items ++ leaf_ranges at.now.named.now.net at.now.named.now.parts at.now.index at.now.ranges.now node.now) }
{
    match node {
        TreeNode::Leaf(_) => push_places(text, at),
        TreeNode::Split { .. } | TreeNode::Loads { .. } => Ok(()),
    }
}

/// The ranges with another one of a place.
fn with_range(ranges: &Ranges, place: u32, range: LoadRange) -> Result<Ranges, AllocError>
    requires { place < length ranges.now }
    ensures { IfOk result (λ changed. changed ≡ with_range ranges.now place range) }
{
    let mut changed = ranges.copy()?;
    changed.set(place, range);
    Ok(changed)
}

/// Adds the ranges of both children of a split of loads, those of the left one last.
fn add_parts(
    pending: &mut Vec<Ranges>,
    ranges: &Ranges,
    place: u32,
    load: u64,
) -> Result<(), AllocError>
    requires place { place < length ranges.now }
    requires above { load < (range_at ranges.now place).most }
    ensures { OnOk result (pending.new.items ≡ pending.old.items
        ++ (with_range ranges.now place (begins_at (range_at ranges.now place) (load + 1))
        ∷ with_range ranges.now place (ends_at (range_at ranges.now place) load) ∷ [])) }
{
    let LoadRange { least, most } = ranges.at(place);
    let above = LoadRange {
        least: load + 1,
        most,
    };
    let below = LoadRange { least, most: load };
    pending.push(with_range(ranges, place, above)?)?;
    pending.push(with_range(ranges, place, below)?)?;
    Ok(())
}

/// Adds the ranges of the children of a record, those of the left one last.
fn add_children(
    pending: &mut Vec<Ranges>,
    ranges: Ranges,
    node: &TreeNode,
) -> Result<(), AllocError>
    requires { IsDivisible ranges node.now }
    ensures { OnOk result (pending.new.items ≡ pending.old.items ++ children_last ranges node.now) }
{
    match node {
        TreeNode::Leaf(_) => Ok(()),
        TreeNode::Split { .. } => {
            pending.push(ranges.copy()?)?;
            pending.push(ranges)?;
            Ok(())
        }
        TreeNode::Loads { place, load } => add_parts(pending, &ranges, *place, *load),
    }
}

/// Writes the lines of the ranges of all leaves of a plan's tree.
///
/// - Errors: want of memory alone.
/// - Time: linear in the places for each record.
pub fn push_ranges(alloc: Global, text: &mut Vec<u8>, named: &NamedPlan) -> Result<(), AllocError>
    ensures { OnOk result (text.new.items
        ≡ text.old.items ++ tree_ranges named.now.net named.now.parts 0 (whole named.now.parts ∷ []) named.now.plan.tree) }
{
    let nodes = named.plan().tree.nodes();
    let mut pending = Vec::new(alloc);
    pending.push(Ranges::whole(alloc, named.inst())?)?;
    for index in 0..nodes.len() {
        let ranges = match pending.pop() {
            Some(ranges) => ranges,
            None => return Ok(()),
        };
        let node = &nodes[index];
        let at = RangedRecord {
            named,
            index: index as u64,
            ranges: &ranges,
        };
        push_leaf(text, &at, node)?;
        add_children(&mut pending, ranges, node)?;
    }
    Ok(())
}
