//! The better of the master step and the ascent.

ghost use Rattle.std.specs.Prelude.{◌≡◌, IfOk, IfSome};
ghost use Rattle.master_step.specs.Columns.{columns_at, HasColumns};
ghost use Rattle.master_step.specs.Restricted.{AreNumbers, IsRestrictedValue};
ghost use Rattle.master_step.specs.Ascents.{HaveSizes, IsBestStepOf, raised_or, same_or};

use crate::advancing::advance;
use crate::ascending::{Ascent, ascend, ascend_from};
use crate::averaging::averaged;
use crate::means::Averages;
use crate::node_master::NodeMaster;
use crate::step::Step;
use plan_base::Prices;
use std::alloc::{AllocError, Global};

/// The least restricted value that shows that no design costs less than this, where costs are multiples of a unit, all in
/// cost grains; the value is in thousandths of one.
fn goal_of(cost: u128, unit: u128) -> i128 {
    let most = cost.saturating_sub(unit);
    i128::try_from(most.saturating_mul(1000))
        .unwrap_or(i128::MAX)
        .saturating_add(1)
}

/// An ascent, and the averages that it came to, where it has some.
#[derive(Drop)]
struct Risen {
    ascent: Ascent,
    averages: Option<Averages>,
}

/// One pass of ascent: from the best prices of an averaged ascent where the brief has a design to be better than, else from
/// those of the brief.
fn rise(alloc: Global, node: &NodeMaster<'_>) -> Result<Risen, AllocError>
    requires columns { HasColumns node.now.table.now.problem (columns_at node.now.brief.now.columns) }
    ensures numbers { IfOk result (λ risen. AreNumbers node.now.table.now.problem node.now.table.now.cuts risen.ascent.prices) }
    ensures sizes { IfOk result (λ risen. IfSome risen.averages (HaveSizes node.now.table.now.problem)) }
    ensures value { IfOk result (λ risen. IsRestrictedValue node.now.table.now.problem node.now.table.now.cuts node.now.brief.now.ranges (columns_at node.now.brief.now.columns) risen.ascent.prices risen.ascent.new) }
{
    match node.brief.incumbent {
        None => Ok(Risen {
            ascent: ascend(alloc, node)?,
            averages: None,
        }),
        Some(cost) => {
            let goal = goal_of(cost, node.brief.unit);
            let found = averaged(alloc, node, goal)?;
            Ok(Risen {
                ascent: ascend_from(alloc, node, &found.prices)?,
                averages: Some(found.averages),
            })
        }
    }
}

/// A step, and the averages of the ascent that was made for it.
#[derive(Debug, Drop)]
pub struct AveragedStep {
    /// What the step answers.
    pub step: Step,
    /// What the averaged ascent came to, where there was one.
    pub averages: Option<Averages>,
}

/// The raise, or the ascent where it has a greater value.
fn better_raise(prices: Prices, old: i128, new: i128, risen: Risen) -> AveragedStep
    ensures step { result.step ≡ raised_or prices old new risen.ascent }
    ensures averages { result.averages ≡ risen.averages }
{
    let Risen { ascent, averages } = risen;
    let step = if ascent.new > new {
        Step::Raised {
            prices: ascent.prices,
            old,
            new: ascent.new,
        }
    } else {
        Step::Raised { prices, old, new }
    };
    AveragedStep { step, averages }
}

/// The ascent where it has a greater value than this, and else that nothing has.
fn raise_or_same(value: i128, risen: Risen) -> AveragedStep
    ensures step { result.step ≡ same_or value risen.ascent }
    ensures averages { result.averages ≡ risen.averages }
{
    let Risen { ascent, averages } = risen;
    let step = if ascent.new > value {
        Step::Raised {
            prices: ascent.prices,
            old: value,
            new: ascent.new,
        }
    } else {
        Step::Same { value }
    };
    AveragedStep { step, averages }
}

/// The better of the master step and one pass of ascent, which begins with an averaged ascent where the brief tells what a
/// design costs.
///
/// - Gives: `Raised` with prices and rates whose restricted value is more than that of the brief's, and at least what the
///   master step raises it to; `Same` only where the master step gains nothing; `Bare` exactly where a demand has no
///   column, with the first such demand.
/// - Errors: want of memory alone.
/// - Rule: docs/METHOD.md, "Master step".
/// - Time: that of `advance`, of `averaged` and of `ascend_from`.
pub fn averaged_step(alloc: Global, node: &NodeMaster<'_>) -> Result<AveragedStep, AllocError>
    ensures step { IfOk result (λ found. IsBestStepOf node.now.table.now.problem node.now.table.now.cuts node.now.brief.now.ranges (columns_at node.now.brief.now.columns) node.now.brief.now.prices found.step) }
    ensures sizes { IfOk result (λ found. IfSome found.averages (HaveSizes node.now.table.now.problem)) }
{
    match advance(alloc, node)? {
        Step::Bare { demand } => Ok(AveragedStep {
            step: Step::Bare { demand },
            averages: None,
        }),
        Step::Raised { prices, old, new } => {
            let risen = rise(alloc, node)?;
            Ok(better_raise(prices, old, new, risen))
        }
        Step::Same { value } => {
            let risen = rise(alloc, node)?;
            Ok(raise_or_same(value, risen))
        }
    }
}

/// The step of `averaged_step`.
///
/// - Errors: want of memory alone.
/// - Rule: docs/METHOD.md, "Master step".
/// - Time: that of `averaged_step`.
pub fn best_step(alloc: Global, node: &NodeMaster<'_>) -> Result<Step, AllocError>
    ensures { IfOk result (IsBestStepOf node.now.table.now.problem node.now.table.now.cuts node.now.brief.now.ranges (columns_at node.now.brief.now.columns) node.now.brief.now.prices) }
{
    let AveragedStep { step, .. } = averaged_step(alloc, node)?;
    Ok(step)
}
