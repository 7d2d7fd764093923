//! The short search behind the rounds: places are divided at loads, and each node finds cuts for those below it.

ghost use Rattle.std.specs.Prelude.{◌≡◌, ◌<◌, length, OnOk};
ghost use Rattle.master_step.specs.Ascents.{HaveSizes};

use crate::bounding::bound_at;
use crate::limits::FOUND_AT_NODE;
use crate::lists::{copy_of, is_marked, marked, put_list, rate_at, widened};
use crate::nodes::{Node, next_of};
use crate::rising::{Risen, rise};
use crate::seeker::{Ground, Sight};
use branch_tree::LoadSplit;
use column_pool::ColumnPool;
use cut_values::CutTable;
use leaf_tasks::load_split;
use link_steps::{LoadRange, Ranges};
use plan_base::Prices;
use std::alloc::AllocError;

/// What an examination of a node leaves.
#[derive(Drop)]
struct Examined {
    /// The numbers of its greater bound, and that bound, in cost grains.
    numbers: Prices,
    bound: i128,
    /// By which loads it is divided.
    split: Option<LoadSplit>,
}

/// Takes the node of least bound out, where one is left.
fn taken(nodes: &mut Vec<Node>) -> Option<Node> {
    let at = next_of(nodes)?;
    if at < nodes.len() {
        Some(nodes.remove(at))
    } else {
        None
    }
}

/// The nodes before the first is examined: the whole region, with these numbers.
pub(crate) fn first_nodes(ground: Ground<'_>, numbers: Prices) -> Result<Vec<Node>, AllocError> {
    let ranges = ground.whole.copy()?;
    let mut nodes = Vec::new(ground.alloc);
    nodes.push(Node {
        ranges,
        numbers,
        bound: i128::MIN,
    })?;
    Ok(nodes)
}

/// What an ascent at a node leaves: its numbers, their bound, and where the node is divided. None where there is no bound.
fn examined_at(
    ground: Ground<'_>,
    table: &CutTable,
    columns: &mut ColumnPool,
    node: &Node,
    risen: Risen,
) -> Result<Option<Examined>, AllocError>
    requires table { table.now.problem ≡ ground.inst.now }
    requires count { length columns.old ≡ length ground.inst.now.demands }
    requires sizes { HaveSizes ground.inst.now risen.averages }
    ensures { OnOk result (length columns.new ≡ length ground.entry.inst.now.demands) }
{
    let Some(bound) = bound_at(ground, table, &node.ranges, &risen.numbers, columns)? else {
        return Ok(None);
    };
    if !node.ranges.fits(ground.inst) {
        return Ok(None);
    }
    Ok(Some(Examined {
        split: load_split(table.steps(), &node.ranges, &risen.averages),
        numbers: risen.numbers,
        bound,
    }))
}

/// The bound of a node at these numbers, and what an ascent from them leaves. None where there is no bound.
fn examine_from(
    ground: Ground<'_>,
    table: &CutTable,
    sight: &mut Sight,
    node: &Node,
    first: &Prices,
) -> Result<Option<(i128, Examined)>, AllocError>
    requires table { table.now.problem ≡ ground.inst.now }
    requires count { length sight.old.columns ≡ length ground.inst.now.demands }
    ensures { OnOk result (length sight.new.columns ≡ length ground.entry.inst.now.demands) }
{
    let Some(bound) = bound_at(ground, table, &node.ranges, first, &mut sight.columns)? else {
        return Ok(None);
    };
    let Some(risen) = rise(ground, table, sight, &node.ranges, first, first)? else {
        return Ok(None);
    };
    match examined_at(ground, table, &mut sight.columns, node, risen)? {
        Some(found) => Ok(Some((bound, found))),
        None => Ok(None),
    }
}

/// The greater of the bounds at a node's numbers and at those of an ascent, and where the node is divided. None where there
/// is no bound.
fn examine(
    ground: Ground<'_>,
    table: &CutTable,
    sight: &mut Sight,
    node: &Node,
) -> Result<Option<Examined>, AllocError>
    requires table { table.now.problem ≡ ground.inst.now }
    requires count { length sight.old.columns ≡ length ground.inst.now.demands }
    ensures { OnOk result (length sight.new.columns ≡ length ground.entry.inst.now.demands) }
{
    let first = widened(ground.alloc, ground.inst, &node.numbers, table.count())?;
    let Some((bound, risen)) = examine_from(ground, table, sight, node, &first)? else {
        return Ok(None);
    };
    Ok(Some(if risen.bound > bound {
        risen
    } else {
        Examined {
            numbers: first,
            bound,
            split: risen.split,
        }
    }))
}

/// The ranges of a node with another range of one place.
fn with_range(node: &Node, place: u32, range: LoadRange) -> Result<Ranges, AllocError>
    requires { place < length node.now.ranges }
{
    let mut ranges = node.ranges.copy()?;
    ranges.set(place, range);
    Ok(ranges)
}

/// Puts the two children of a node in.
fn put_children(
    ground: Ground<'_>,
    node: &Node,
    examined: &Examined,
    split: LoadSplit,
    nodes: &mut Vec<Node>,
) -> Result<(), AllocError> {
    if split.place >= ground.inst.places() || !node.ranges.fits(ground.inst) {
        return Ok(());
    }
    let range = node.ranges.at(split.place);
    let left = LoadRange {
        least: range.least,
        most: split.load,
    };
    let right = LoadRange {
        least: split.load.saturating_add(1),
        most: range.most,
    };
    for child in [left, right] {
        nodes.push(Node {
            ranges: with_range(node, split.place, child)?,
            numbers: examined.numbers.copy()?,
            bound: examined.bound,
        })?;
    }
    Ok(())
}

/// Marks the cuts that have a rate.
fn mark_used(
    ground: Ground<'_>,
    table: &CutTable,
    numbers: &Prices,
    used: &mut Vec<bool>,
) -> Result<(), AllocError> {
    used.resize(table.count() as usize, false)?;
    for number in 0..table.count() as usize {
        if rate_at(ground.inst, numbers, number) > 0 {
            if let Some(mark) = used.get_mut(number) {
                *mark = true;
            }
        }
    }
    Ok(())
}

/// Puts the cuts besides in the table that the loads seen violate.
fn widen_table(ground: Ground<'_>, table: &mut CutTable, sight: &Sight) -> Result<(), AllocError>
    requires { table.old.problem ≡ ground.inst.now }
    ensures { table.new.problem ≡ table.old.problem }
{
    let mut cuts = copy_of(ground.alloc, table.cuts())?;
    let found = sight.search.extend(
        ground.alloc,
        ground.inst,
        &sight.seen,
        FOUND_AT_NODE,
        &mut cuts,
    )?;
    if found == 0 {
        return Ok(());
    }
    put_list(ground.alloc, ground.inst, table, cuts)
}

/// Leaves the table the cuts before a number, and those that had a rate.
fn keep_used(
    ground: Ground<'_>,
    table: &mut CutTable,
    before: u32,
    used: &[bool],
) -> Result<(), AllocError>
    requires { table.old.problem ≡ ground.inst.now }
    ensures { table.new.problem ≡ table.old.problem }
{
    let mut marks = Vec::new(ground.alloc);
    for number in 0..table.count() {
        marks.push(number < before || is_marked(used, number as usize))?;
    }
    let stay = marked(ground.alloc, table.cuts(), &marks)?;
    put_list(ground.alloc, ground.inst, table, stay)
}

/// Puts the children of an examined node in, and the cuts besides in the table that its loads violate, where a cheaper design
/// may be left there.
fn put_examined(
    ground: Ground<'_>,
    table: &mut CutTable,
    sight: &Sight,
    node: &Node,
    found: &Examined,
    nodes: &mut Vec<Node>,
) -> Result<(), AllocError>
    requires { table.old.problem ≡ ground.inst.now }
    ensures { table.new.problem ≡ table.old.problem }
{
    if found.bound >= sight.aim.bound() {
        return Ok(());
    }
    if let Some(split) = found.split {
        put_children(ground, node, found, split, nodes)?;
    }
    widen_table(ground, table, sight)
}

/// Examines the node of least bound, where one is left: marks the cuts that have a rate there, and puts those besides in the
/// table that it finds.
fn try_next(
    ground: Ground<'_>,
    table: &mut CutTable,
    sight: &mut Sight,
    nodes: &mut Vec<Node>,
    used: &mut Vec<bool>,
) -> Result<(), AllocError>
    requires table { table.old.problem ≡ ground.inst.now }
    requires count { length sight.old.columns ≡ length ground.inst.now.demands }
    ensures table { table.new.problem ≡ table.old.problem }
    ensures count { OnOk result (length sight.new.columns ≡ length ground.entry.inst.now.demands) }
{
    let Some(node) = taken(nodes) else {
        return Ok(());
    };
    let Some(found) = examine(ground, table, sight, &node)? else {
        return Ok(());
    };
    mark_used(ground, table, &found.numbers, used)?;
    put_examined(ground, table, sight, &node, &found, nodes)
}

/// Examines so many nodes, the one of least bound first, and puts the cuts besides in the table that had a rate at one.
pub(crate) fn try_nodes(
    ground: Ground<'_>,
    table: &mut CutTable,
    most: u32,
    sight: &mut Sight,
    nodes: &mut Vec<Node>,
) -> Result<(), AllocError>
    requires table { table.old.problem ≡ ground.inst.now }
    requires count { length sight.old.columns ≡ length ground.inst.now.demands }
    ensures { table.new.problem ≡ table.old.problem }
{
    let before = table.count();
    let mut used = Vec::new(ground.alloc);
    for _ in 0..most {
        try_next(ground, table, sight, nodes, &mut used)?;
    }
    keep_used(ground, table, before, &used)
}
