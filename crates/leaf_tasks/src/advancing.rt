//! What follows a complete version: the next prices of its node, and by which loads the node is to be divided.

ghost use Rattle.std.specs.Prelude.{◌≡◌, ◌≤◌, false, length, IfOk, IfSome};
ghost use Rattle.plan_base.specs.Places.{places};
ghost use Rattle.column_pool.specs.Columns.{columns_at};
ghost use Rattle.column_pool.specs.Briefs.{IsBriefFor};
ghost use Rattle.master_step.specs.Columns.{HasColumns};
ghost use Rattle.master_step.specs.Outcomes.{AreCrowdPrices};
ghost use Rattle.leaf_tasks.specs.Advances.{IsNext};

use crate::dividing::split_of;
use branch_tree::LoadSplit;
use column_pool::Brief;
use cut_values::CutTable;
use master_step::{AveragedStep, NodeMaster, Step, averaged_step, crowd_prices};
use plan_base::{Instance, LinkId, Prices};
use std::alloc::{AllocError, Global};

/// Whether a link has no useful module.
fn has_useless_link(inst: &Instance) -> bool {
    (0..inst.links()).any(|place| !inst.useful(LinkId(place)))
}

/// The crowd prices of a stalled brief, where they may show that there is no design: they were not tried, there is none
/// yet, and a link has no useful module.
fn crowd_step(alloc: Global, inst: &Instance, brief: &Brief) -> Result<Option<Prices>, AllocError>
    requires { places inst.now ≤ length brief.now.prices }
    ensures { IfOk result (λ next. IfSome next (λ prices. (brief.now.crowd_tried ≡ false) × AreCrowdPrices inst.now brief.now.prices prices)) }
{
    if brief.crowd_tried {
        return Ok(None);
    }
    if brief.incumbent.is_some() {
        return Ok(None);
    }
    if !has_useless_link(inst) {
        return Ok(None);
    }
    Ok(Some(crowd_prices(alloc, inst, &brief.prices)?))
}

/// What follows a complete version.
#[derive(Debug, Drop)]
pub struct Next {
    /// The prices and rates of the next version; None where no further ones are to follow.
    pub prices: Option<Prices>,
    /// The loads of a place by which the node is to be divided, where averages tell some; no contract speaks of them.
    pub split: Option<LoadSplit>,
}

/// What follows the version of a brief: the prices and rates that the better of a master step and an ascent raises its own
/// to, or once the crowd prices of a stalled brief; and by which loads its node is to be divided.
///
/// - Takes: the instance, and the table of its steps and cuts; a brief that fits them, with a column for each demand.
/// - Gives: no prices where the node has had enough versions, and else only where no master step gains; a split only where
///   a design is known.
/// - Errors: want of memory alone.
/// - Time: that of `averaged_step`.
pub fn next_step(
    alloc: Global,
    inst: &Instance,
    table: &CutTable,
    brief: &Brief,
) -> Result<Next, AllocError>
    requires table { table.now.problem ≡ inst.now }
    requires brief { IsBriefFor inst.now table.now.cuts brief.now.prices brief.now.ranges brief.now.columns }
    requires columns { HasColumns inst.now (columns_at brief.now.columns) }
    ensures { IfOk result (λ next. IsNext inst.now table.now.cuts brief.now next.prices) }
{
    if brief.has_enough {
        return Ok(Next {
            prices: None,
            split: None,
        });
    }
    let node = NodeMaster { table, brief };
    let AveragedStep { step, averages } = averaged_step(alloc, &node)?;
    let split = split_of(table.steps(), &brief.ranges, &averages);
    let prices = match step {
        Step::Raised {
            prices,
            old: _old,
            new: _new,
        } => Some(prices),
        Step::Same { value: _value } => crowd_step(alloc, inst, brief)?,
        Step::Bare { demand: _demand } => unreachable!(),
    };
    Ok(Next { prices, split })
}
