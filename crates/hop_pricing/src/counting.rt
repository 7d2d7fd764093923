//! The fewest arcs of a path.

ghost use Rattle.std.specs.Prelude.{◌≡◌, ◌<◌, ◌↔◌, length, replicate, IfOk, IsNone};
ghost use Rattle.plan_base.specs.Places.{places};
ghost use Rattle.arc_restrict.specs.Restrictions.{HasNoPath};
ghost use Rattle.arc_restrict.specs.Rows.{forbids};
ghost use Rattle.path_pricing.specs.Priced.{ArePrices};
ghost use Rattle.hop_pricing.specs.Within.{AreFewest};

use arc_restrict::Restriction;
use path_pricing::{Priced, price};
use plan_base::{DemandId, Instance, Prices};
use std::alloc::{AllocError, Global};

/// A price of one for each place: so the price of a path is how many arcs it has.
fn unit_prices(alloc: Global, inst: &Instance) -> Result<Prices, AllocError>
    ensures ones { IfOk result (λ prices. prices ≡ replicate (places inst.now) 1) }
    ensures fit { IfOk result (λ prices. ArePrices inst.now prices) }
{
    inst.lawful();
    Ok(Prices::from_vec(vec![in alloc; 1; inst.places() as usize]?))
}

/// The fewest arcs of a permitted path of the demand; None where no path is permitted.
///
/// - Takes: where memory comes from; an instance, a demand of it, and a restriction.
/// - Errors: want of memory alone.
/// - Rule: docs/METHOD.md, "Least prices within a limit".
/// - Time: that of `path_pricing::price`.
pub fn fewest(
    alloc: Global,
    inst: &Instance,
    demand: DemandId,
    restriction: &Restriction,
) -> Result<Option<u32>, AllocError>
    requires demand { demand.0 < length inst.now.demands }
    ensures fewest { IfOk result (AreFewest inst.now (forbids restriction.now) demand.0) }
    ensures none { IfOk result (λ found. IsNone found ↔ HasNoPath inst.now (forbids restriction.now) demand.0) }
{
    inst.lawful();
    let ones = unit_prices(alloc, inst)?;
    match price(alloc, inst, &ones, demand, restriction)? {
        // A simple path has fewer arcs than there are nodes.
        Priced::Path { path, .. } => Ok(Some(path.as_slice().len() as u32)),
        Priced::NoPath { .. } => Ok(None),
    }
}
