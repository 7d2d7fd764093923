//! What `value` and `gain` answer to the columns of a brief, put into a pool.

ghost use Rattle.std.specs.Prelude.{◌≡◌, ◌<◌, length, IfOk, IsTrue};
ghost use Rattle.arc_restrict.specs.Rows.{forbids};
ghost use Rattle.column_pool.specs.Briefs.{IsBriefFor};
ghost use Rattle.column_pool.specs.Columns.{permitted_at, AreColumns};
ghost use Rattle.master_step.specs.Columns.{HasColumns};

use super::twin::Found;
use arc_restrict::Restriction;
use column_pool::laws::columns_stay;
use column_pool::{Brief, ColumnPool};
use cut_values::CutTable;
use master_step::{Room, gain, value};
use plan_base::{DemandId, Instance, Items, Path, is_simple_path};
use std::alloc::{AllocError, Global};

/// Adds a path to the columns of the demand, where it is a simple path of it.
fn add_simple(
    inst: &Instance,
    pool: &mut ColumnPool,
    demand: DemandId,
    path: &Path,
) -> Result<(), AllocError>
    requires demand { demand.0 < length inst.now.demands }
    requires columns { AreColumns inst.now pool.old }
    ensures { AreColumns inst.now pool.new }
{
    columns_stay();
    if is_simple_path(inst, demand, path) {
        pool.add(demand, path)?;
    }
    Ok(())
}

/// Adds the simple paths of a list to the columns of the demand.
fn add_all(
    inst: &Instance,
    pool: &mut ColumnPool,
    demand: DemandId,
    paths: &[Path],
) -> Result<(), AllocError>
    requires demand { demand.0 < length inst.now.demands }
    requires columns { AreColumns inst.now pool.old }
    ensures { AreColumns inst.now pool.new }
{
    for path in paths {
        add_simple(inst, pool, demand, path)?;
    }
    Ok(())
}

/// The columns of these lists.
fn pool_of(alloc: Global, inst: &Instance, lists: &[Items<Path>]) -> Result<ColumnPool, AllocError>
    requires { length lists.now ≡ length inst.now.demands }
    ensures { IfOk result (AreColumns inst.now) }
{
    let mut pool = ColumnPool::new(alloc, inst)?;
    for place in 0..inst.demands() {
        add_all(
            inst,
            &mut pool,
            DemandId(place),
            lists[place as usize].as_slice(),
        )?;
    }
    Ok(pool)
}

/// Whether the restriction permits a column to each demand.
fn have_columns(
    alloc: Global,
    inst: &Instance,
    pool: &ColumnPool,
    restriction: &Restriction,
) -> Result<bool, AllocError>
    requires { AreColumns inst.now pool.now }
    ensures { IfOk result (λ have. IsTrue have → HasColumns inst.now (permitted_at (forbids restriction.now) pool.now)) }
{
    for place in 0..inst.demands() {
        if pool
            .permitted(alloc, DemandId(place), restriction)?
            .is_empty()
        {
            return Ok(false);
        }
    }
    Ok(true)
}

/// Whether the value and the gain of prices over the columns are what the twin found.
fn both_agree(
    alloc: Global,
    table: &CutTable,
    brief: &Brief,
    pool: &ColumnPool,
    found: &Found,
) -> Option<bool>
    requires brief { IsBriefFor table.now.problem table.now.cuts brief.now.prices brief.now.ranges brief.now.columns }
    requires columns { AreColumns table.now.problem pool.now }
{
    let inst = table.instance();
    let restriction = Restriction::none(alloc, inst).ok()?;
    if !have_columns(alloc, inst, pool, &restriction).ok()? {
        return None;
    }
    let mut room = Room::new(alloc, inst, table).ok()?;
    let (ranges, prices) = (&brief.ranges, &brief.prices);
    let value = value(inst, table, ranges, prices, pool, &restriction);
    let gain = gain(inst, table, ranges, prices, pool, &restriction, &mut room);
    Some(value == found.old && gain == found.new)
}

/// Whether the value and the gain of the brief's prices are what the twin found.
pub(crate) fn are_values(alloc: Global, table: &CutTable, brief: &Brief, found: &Found) -> bool {
    let inst = table.instance();
    if !brief.fits(inst, table) {
        return false;
    }
    match pool_of(alloc, inst, brief.columns.as_slice()) {
        Ok(pool) => both_agree(alloc, table, brief, &pool, found) == Some(true),
        Err(_) => false,
    }
}
