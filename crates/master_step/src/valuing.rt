//! The restricted value of numbers.

ghost use Rattle.std.specs.Prelude.{◌≡◌, ◌≤◌, ◌*◌};
ghost use Rattle.plan_base.specs.declared.limits.TheConstants.{MAX_PRICED_LOAD};
ghost use Rattle.proof_tree.specs.Bounds.{price_total};
ghost use Rattle.bound_assembly.specs.declared.limits.TheConstants.{MAX_PATH_LINKS};
ghost use Rattle.master_step.specs.Columns.{forbids, permitted_at, AreColumns, least_price};
ghost use Rattle.master_step.specs.Restricted.{AreRanges, AreNumbers, IsRestrictedValue};
ghost use Rattle.master_step.specs.Choosing.{allowed_of, AreWithinLimit, HasColumns, IsSource};

use crate::source::Source;
use arc_restrict::Restriction;
use bound_assembly::total_of;
use column_pool::ColumnPool;
use cut_values::CutTable;
use link_steps::Ranges;
use plan_base::{DemandId, Instance, Prices};

/// The sum of loads times least prices over the demands, in thousandths of a cost grain.
fn column_total(inst: &Instance, prices: &Prices, source: &Source<'_>) -> u128
    requires price_limit { AreWithinLimit inst.now prices.now }
    requires source { IsSource inst.now source.now }
    requires columns { HasColumns inst.now (allowed_of source.now) }
    ensures value { result ≡ price_total inst.now (λ k. least_price inst.now prices.now (allowed_of source.now k)) }
    ensures within { result ≤ MAX_PATH_LINKS * MAX_PRICED_LOAD }
{
    let mut total = 0;
    for place in 0..inst.demands() {
        let demand = DemandId(place);
        let (_path, price) = source.column(inst, demand, prices);
        total += inst.demand(demand).load * price;
    }
    total
}

/// The restricted value of numbers over the columns of a source, in thousandths of a cost grain.
pub fn value_of(
    inst: &Instance,
    table: &CutTable,
    ranges: &Ranges,
    prices: &Prices,
    source: &Source<'_>,
) -> i128
    requires table { table.now.problem ≡ inst.now }
    requires are_ranges { AreRanges inst.now ranges.now }
    requires numbers { AreNumbers inst.now table.now.cuts prices.now }
    requires source { IsSource inst.now source.now }
    requires columns { HasColumns inst.now (allowed_of source.now) }
    ensures { IsRestrictedValue inst.now table.now.cuts ranges.now (allowed_of source.now) prices.now result }
{
    inst.lawful();
    let priced = column_total(inst, prices, source);
    let counted = table.cut_total(prices);
    let values = table.value_total(ranges, prices);
    total_of(priced, counted, values)
}

/// The restricted value of prices and rates under ranges, over the columns that a restriction permits. Takes no memory.
///
/// - Takes: the instance and its table; ranges of its places; one price for each place and one rate for each cut, as they have
///   to be; columns of the instance, of which the restriction permits at least one to each demand.
/// - Gives: thousandths of a cost grain; it may be negative.
/// - Rule: docs/METHOD.md, "Restricted value".
/// - Time: linear in the arcs of all columns, and one link value for each link.
pub fn value(
    inst: &Instance,
    table: &CutTable,
    ranges: &Ranges,
    prices: &Prices,
    columns: &ColumnPool,
    restriction: &Restriction,
) -> i128
    requires table { table.now.problem ≡ inst.now }
    requires are_ranges { AreRanges inst.now ranges.now }
    requires numbers { AreNumbers inst.now table.now.cuts prices.now }
    requires columns { AreColumns inst.now columns.now }
    requires permitted { HasColumns inst.now (permitted_at (forbids restriction.now) columns.now) }
    ensures { IsRestrictedValue inst.now table.now.cuts ranges.now (permitted_at (forbids restriction.now) columns.now) prices.now result }
{
    let source = Source::Pool(columns, restriction);
    value_of(inst, table, ranges, prices, &source)
}
