//! The step, and what it gains.

ghost use Rattle.std.specs.Prelude.{◌≡◌, ◌<◌, ◌+◌, length, Option, Some, None, IfOk, IfSome, IfNone};
ghost use Rattle.plan_base.specs.Places.{places};
ghost use Rattle.master_step.specs.Columns.{forbids, columns_at, permitted_at, AreColumns, HasColumns, IsFirstBare};
ghost use Rattle.master_step.specs.Restricted.{AreRanges, AreNumbers};
ghost use Rattle.master_step.specs.Outcomes.{IsStepOf, HasGain, HasStalled};
ghost use Rattle.master_step.specs.Choosing.{allowed_of};
ghost use Rattle.master_step.specs.Climbing.{IsMaster};

use crate::climbing::Master;
use crate::node_master::NodeMaster;
use crate::rows::{Room, Rows};
use crate::source::Source;
use crate::step::Step;
use arc_restrict::Restriction;
use column_pool::ColumnPool;
use cut_values::CutTable;
use link_steps::Ranges;
use plan_base::{DemandId, Instance, Items, Path, Prices};
use std::alloc::{AllocError, Global};

/// The first demand without a column.
fn first_bare(inst: &Instance, lists: &[Items<Path>]) -> Option<DemandId>
    requires { length lists.now ≡ length inst.now.demands }
    ensures some { IfSome result (λ demand. IsFirstBare inst.now (columns_at lists.now) demand.0) }
    ensures none { IfNone result (HasColumns inst.now (columns_at lists.now)) }
{
    for place in 0..inst.demands() {
        if lists[place as usize].is_empty() {
            return Some(DemandId(place));
        }
    }
    None
}

/// The step from a brief whose demands have columns.
fn raise(alloc: Global, master: &Master<'_>) -> Result<Step, AllocError>
    requires { IsMaster master.now }
    ensures { IfOk result (IsStepOf master.now.inst.now master.now.table.now.cuts master.now.ranges.now (allowed_of master.now.source) master.now.prices.now) }
{
    let mut rows = Rows::new(alloc, master.inst, master.table)?;
    let (old, new) = master.climb(&mut rows);
    let Rows { trial, .. } = rows;
    Ok(match new {
        Some(new) => Step::Raised {
            prices: trial,
            old,
            new,
        },
        None => Step::Same { value: old },
    })
}

/// The master step: of the trials that of greatest restricted value, where that is more than the value of the brief's
/// prices and rates.
///
/// Each trial moves the price of each place up where the least columns put more on it than what it carries where its link
/// has its value, and down where they put less, in proportion to the gap, as far as the rates permit, which stay; each trial
/// after the first moves half as far.
///
/// - Gives: `Raised` with the first trial of greatest value; `Same` where none has more; `Bare` exactly where a demand has
///   no column, with the first such demand.
/// - Errors: want of memory alone.
/// - Rule: docs/METHOD.md, "Master step".
/// - Time: 26 times the arcs of all columns, and as often one link value for each link.
pub fn advance(alloc: Global, node: &NodeMaster<'_>) -> Result<Step, AllocError>
    ensures { IfOk result (IsStepOf node.now.table.now.problem node.now.table.now.cuts node.now.brief.now.ranges (columns_at node.now.brief.now.columns) node.now.brief.now.prices) }
{
    let (table, brief) = (node.table, node.brief);
    let inst = table.instance();
    let lists = brief.columns.as_slice();
    if let Some(demand) = first_bare(inst, lists) {
        return Ok(Step::Bare { demand });
    }
    let master = Master {
        inst,
        table,
        ranges: &brief.ranges,
        prices: &brief.prices,
        source: Source::Lists(lists),
    };
    raise(alloc, &master)
}

/// The restricted value that the master step raises prices and rates to under ranges, over the columns that a restriction
/// permits. Takes no memory.
///
/// - Takes: the instance and its table; ranges of its places; one price for each place and one rate for each cut, as they have
///   to be; columns of the instance, of which the restriction permits at least one to each demand; room that was made for the
///   instance and as many cuts.
/// - Gives: thousandths of a cost grain; None exactly where no trial has a greater value.
/// - Rule: docs/METHOD.md, "Master step".
/// - Time: 26 times the arcs of all columns, and as often one link value for each link.
pub fn gain(
    inst: &Instance,
    table: &CutTable,
    ranges: &Ranges,
    prices: &Prices,
    columns: &ColumnPool,
    restriction: &Restriction,
    room: &mut Room,
) -> Option<i128>
    requires table { table.now.problem ≡ inst.now }
    requires are_ranges { AreRanges inst.now ranges.now }
    requires numbers { AreNumbers inst.now table.now.cuts prices.now }
    requires columns { AreColumns inst.now columns.now }
    requires permitted { HasColumns inst.now (permitted_at (forbids restriction.now) columns.now) }
    requires room { room.old ≡ places inst.now + length table.now.cuts }
    ensures some { IfSome result (HasGain inst.now table.now.cuts ranges.now (permitted_at (forbids restriction.now) columns.now) prices.now) }
    ensures none { IfNone result (HasStalled inst.now table.now.cuts ranges.now (permitted_at (forbids restriction.now) columns.now) prices.now) }
    ensures room { room.new ≡ room.old }
{
    let master = Master {
        inst,
        table,
        ranges,
        prices,
        source: Source::Pool(columns, restriction),
    };
    let (_old, new) = master.climb(&mut room.rows);
    new
}
