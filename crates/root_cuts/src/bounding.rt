//! The bound of a region at some numbers, and the least paths there.

ghost use Rattle.std.specs.Prelude.{◌≡◌, ◌<◌, length, OnOk};
ghost use Rattle.path_pricing.specs.Priced.{ArePrices};

use crate::seeker::Ground;
use column_pool::ColumnPool;
use cut_values::CutTable;
use leaf_tasks::{Trees, find};
use link_steps::Ranges;
use path_pricing::{Priced, Query};
use plan_base::{DemandId, Items, Prices};
use scaled_numbers::up_to_grain;
use std::alloc::AllocError;

/// Adds the least path of a demand to its columns, and gives its load times what the path costs, in thousandths of a cost
/// grain; None where it has no path.
fn price_demand(
    ground: Ground<'_>,
    numbers: &Prices,
    demand: DemandId,
    trees: &mut Trees,
    columns: &mut ColumnPool,
) -> Result<Option<u128>, AllocError>
    requires numbers { ArePrices ground.inst.now numbers.now }
    requires demand { demand.0 < length ground.inst.now.demands }
    requires count { length columns.old ≡ length ground.inst.now.demands }
    ensures { OnOk result (length columns.new ≡ length ground.entry.inst.now.demands) }
{
    let query = Query {
        inst: ground.inst,
        prices: numbers,
        demand,
        restriction: ground.none,
    };
    let found = find(trees, query, None)?;
    match &*found {
        Priced::Path {
            path,
            length,
            potentials: _potentials,
        } => {
            columns.add(demand, path)?;
            let load = ground.inst.demand(demand).load;
            Ok(Some(length.saturating_mul(load)))
        }
        Priced::NoPath { reached: _reached } => Ok(None),
    }
}

/// The sum of loads times least prices, in thousandths of a cost grain, each least path put among the columns; None where a
/// demand has no path.
fn price_all(
    ground: Ground<'_>,
    numbers: &Prices,
    columns: &mut ColumnPool,
) -> Result<Option<u128>, AllocError>
    requires numbers { ArePrices ground.inst.now numbers.now }
    requires count { length columns.old ≡ length ground.inst.now.demands }
    ensures { OnOk result (length columns.new ≡ length ground.entry.inst.now.demands) }
{
    let mut trees = Trees::none(ground.alloc);
    let mut total: u128 = 0;
    for place in 0..ground.inst.demands() {
        let Some(priced) = price_demand(ground, numbers, DemandId(place), &mut trees, columns)?
        else {
            return Ok(None);
        };
        total = total.saturating_add(priced);
    }
    Ok(Some(total))
}

/// The bound of a region at these numbers, in cost grains, each demand's least path put among its columns; None where the
/// numbers are not as they have to be, or a demand has no path.
pub(crate) fn bound_at(
    ground: Ground<'_>,
    table: &CutTable,
    ranges: &Ranges,
    numbers: &Prices,
    columns: &mut ColumnPool,
) -> Result<Option<i128>, AllocError>
    requires table { table.now.problem ≡ ground.inst.now }
    requires count { length columns.old ≡ length ground.inst.now.demands }
    ensures { OnOk result (length columns.new ≡ length ground.entry.inst.now.demands) }
{
    if !table.are_numbers(numbers) || !ranges.fits(ground.inst) {
        return Ok(None);
    }
    let Some(priced) = price_all(ground, numbers, columns)? else {
        return Ok(None);
    };
    let values = table.value_total(ranges, numbers);
    let given = priced.saturating_add(table.cut_total(numbers));
    let total = i128::try_from(given)
        .unwrap_or(i128::MAX)
        .saturating_add(values);
    Ok(Some(up_to_grain(total)))
}
