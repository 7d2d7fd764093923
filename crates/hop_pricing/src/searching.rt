//! The search within a limit.

ghost use Rattle.std.specs.Prelude.{◌↔◌, ◌<◌, length, IfOk};
ghost use Rattle.arc_restrict.specs.Rows.{forbids};
ghost use Rattle.path_pricing.specs.Priced.{ArePrices};
ghost use Rattle.hop_pricing.specs.Within.{HasNoneWithin, FindsNone, IsFoundWithin};

use crate::counting::fewest;
use crate::within::Within;
use limited_path::search_within;
use path_pricing::{Priced, Query, arc_weights, price};
use std::alloc::{AllocError, Global};

/// What rounds find, where a path of least price has too many arcs.
fn by_rounds(alloc: Global, query: Query<'_>, hops: u64) -> Result<Within, AllocError>
    requires prices { ArePrices query.inst.now query.prices.now }
    requires demand { query.demand.0 < length query.inst.now.demands }
    ensures within { IfOk result (IsFoundWithin query.entry.inst.now (forbids query.entry.restriction.now) query.entry.prices.now query.entry.demand.0 hops) }
{
    let Query {
        inst,
        prices,
        demand,
        restriction,
    } = query;
    let weights = arc_weights(alloc, inst, prices, demand, restriction)?;
    let asked = inst.demand(demand);
    match search_within(alloc, inst, &weights, asked.source, asked.target, hops)? {
        Some(way) => Ok(Within::Path {
            path: way.path,
            length: way.length,
        }),
        None => Ok(Within::Far {
            fewest: fewest(alloc, inst, demand, restriction)?,
        }),
    }
}

/// A permitted path of the demand with the least price among those of at most so many arcs; or, exactly where no permitted
/// path has at most so many, the fewest arcs of a permitted path.
///
/// - Takes: where memory comes from; a demand of an instance, under prices that fit it and a restriction; and a limit that
///   counts arcs, which may be any number.
/// - Errors: want of memory alone.
/// - Rule: docs/METHOD.md, "Least prices within a limit".
/// - Time: that of `path_pricing::price`, where the path that it gives is within the limit; else also that of
///   `limited_path::search_within`.
pub fn least_within(alloc: Global, query: Query<'_>, hops: u64) -> Result<Within, AllocError>
    requires prices { ArePrices query.inst.now query.prices.now }
    requires demand { query.demand.0 < length query.inst.now.demands }
    ensures within { IfOk result (IsFoundWithin query.entry.inst.now (forbids query.entry.restriction.now) query.entry.prices.now query.entry.demand.0 hops) }
    ensures far { IfOk result (λ found. FindsNone found ↔ HasNoneWithin query.entry.inst.now (forbids query.entry.restriction.now) query.entry.demand.0 hops) }
{
    match price(
        alloc,
        query.inst,
        query.prices,
        query.demand,
        query.restriction,
    )? {
        Priced::Path { path, length, .. } => {
            if path.as_slice().len() as u64 <= hops {
                return Ok(Within::Path { path, length });
            }
            by_rounds(alloc, query, hops)
        }
        Priced::NoPath { .. } => Ok(Within::Far { fewest: None }),
    }
}
