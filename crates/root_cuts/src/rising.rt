//! The ascent at a region, with the loads that it sees.

ghost use Rattle.std.specs.Prelude.{◌≡◌, ◌<◌, length, IfOk, IfSome, IsTrue, OnOk};
ghost use Rattle.column_pool.specs.Columns.{columns_at};
ghost use Rattle.cut_values.specs.Numbers.{AreNumbers};
ghost use Rattle.master_step.specs.Columns.{HasColumns};
ghost use Rattle.master_step.specs.Ascents.{HaveSizes};

use crate::seeker::{Ground, Sight};
use column_pool::{Brief, ColumnPool};
use cut_values::{CutTable, SeenLoads};
use link_steps::Ranges;
use master_step::{Averages, NodeMaster, ascend_from, averaged_seen};
use plan_base::{BranchId, DemandId, Instance, Items, Path, Prices};
use std::alloc::{AllocError, Global};

/// What an ascent has to reach.
#[derive(Clone, Copy, Debug)]
pub(crate) struct Aim {
    /// What a design costs, in cost grains.
    pub(crate) cost: u128,
    /// What the costs of all designs are multiples of, in cost grains.
    pub(crate) unit: u128,
}

impl Aim {
    /// The least bound that leaves no cheaper design, in cost grains.
    pub(crate) fn bound(self) -> i128 {
        let most = self.cost.saturating_sub(self.unit);
        i128::try_from(most).unwrap_or(i128::MAX).saturating_add(1)
    }

    /// The same for a restricted value, in thousandths of a cost grain.
    fn goal(self) -> i128 {
        self.bound()
            .saturating_sub(1)
            .saturating_mul(1000)
            .saturating_add(1)
    }
}

/// What an ascent comes to.
#[derive(Debug, Drop)]
pub(crate) struct Risen {
    /// Prices and rates whose restricted value is at least that of the ones that it began with.
    pub(crate) numbers: Prices,
    /// Their restricted value, which no bound at them is above, in thousandths of a cost grain.
    pub(crate) value: i128,
    pub(crate) averages: Averages,
}

/// Whether each list has a column.
fn have_columns(inst: &Instance, columns: &[Items<Path>]) -> bool
    requires { length columns.now ≡ length inst.now.demands }
    ensures { IsTrue result → HasColumns inst.now (columns_at columns.now) }
{
    for place in 0..inst.demands() {
        if columns[place as usize].len() == 0 {
            return false;
        }
    }
    true
}

/// What an ascent is told: the columns of all demands.
fn brief_of(
    ground: Ground<'_>,
    columns: &ColumnPool,
    ranges: &Ranges,
    numbers: &Prices,
    aim: Aim,
) -> Result<Brief, AllocError>
    requires { length columns.now ≡ length ground.inst.now.demands }
{
    let mut lists = Vec::new(ground.alloc);
    for place in 0..ground.inst.demands() {
        lists.push(columns.permitted(ground.alloc, DemandId(place), ground.none)?)?;
    }
    Ok(Brief {
        node: BranchId(0),
        version: 0,
        prices: numbers.copy()?,
        ranges: ranges.copy()?,
        columns: Items::from_vec(lists),
        crowd_tried: false,
        has_enough: false,
        incumbent: Some(aim.cost),
        unit: aim.unit,
    })
}

/// The better of two passes of ascent: from what an averaged ascent found, and from the numbers that are held.
fn passed(
    alloc: Global,
    node: &NodeMaster<'_>,
    found: &Prices,
    held: &Prices,
) -> Result<(Prices, i128), AllocError>
    requires columns { HasColumns node.now.table.now.problem (columns_at node.now.brief.now.columns) }
    requires found { AreNumbers node.now.table.now.problem node.now.table.now.cuts found.now }
    requires held { AreNumbers node.now.table.now.problem node.now.table.now.cuts held.now }
{
    let one = ascend_from(alloc, node, found)?;
    let other = ascend_from(alloc, node, held)?;
    Ok(if one.new >= other.new {
        (one.prices, one.new)
    } else {
        (other.prices, other.new)
    })
}

/// The ascent that a brief tells of, or a pass from the numbers that are held where it is better, and what its averages come
/// to; the loads that it sees are noted. None as `rise`.
fn rise_by(
    ground: Ground<'_>,
    table: &CutTable,
    brief: &Brief,
    held: &Prices,
    aim: Aim,
    seen: &mut SeenLoads,
) -> Result<Option<Risen>, AllocError>
    requires { table.now.problem ≡ ground.inst.now }
    ensures { IfOk result (λ risen. IfSome risen (λ found. HaveSizes ground.entry.inst.now found.averages)) }
{
    let (alloc, inst) = (ground.alloc, ground.inst);
    if !brief.fits(inst, table) || !table.are_numbers(held) {
        return Ok(None);
    }
    if !have_columns(inst, brief.columns.as_slice()) {
        return Ok(None);
    }
    seen.clear();
    let node = NodeMaster { table, brief };
    let found = averaged_seen(alloc, &node, aim.goal(), seen)?;
    let (numbers, value) = passed(alloc, &node, &found.prices, held)?;
    Ok(Some(Risen {
        numbers,
        value,
        averages: found.averages,
    }))
}

/// The ascent from these numbers under ranges, or a pass from those that are held where it is better, and what its averages
/// come to; the loads that it sees are noted. None where the numbers are not as they have to be, or a demand has no column.
pub(crate) fn rise(
    ground: Ground<'_>,
    table: &CutTable,
    sight: &mut Sight,
    ranges: &Ranges,
    numbers: &Prices,
    held: &Prices,
) -> Result<Option<Risen>, AllocError>
    requires table { table.now.problem ≡ ground.inst.now }
    requires count { length sight.old.columns ≡ length ground.inst.now.demands }
    ensures sizes { IfOk result (λ risen. IfSome risen (λ found. HaveSizes ground.entry.inst.now found.averages)) }
    ensures count { OnOk result (length sight.new.columns ≡ length ground.entry.inst.now.demands) }
{
    let brief = brief_of(ground, &sight.columns, ranges, numbers, sight.aim)?;
    rise_by(ground, table, &brief, held, sight.aim, &mut sight.seen)
}
