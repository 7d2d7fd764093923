//! What a demand finds under prices, at a restriction: tried from what is known, or found anew.

ghost use Rattle.std.specs.Prelude.{◌≡◌, ◌<◌, None, length, IfOk, IfSome};
ghost use Rattle.leaf_tasks.specs.LeastPaths.{arc_value, forbids, ArePrices, IsPriced, priced_fault};

use crate::trees::Trees;
use arc_restrict::price_along;
use path_pricing::{Priced, Query, check_priced};
use std::alloc::AllocError;
use std::sync::Arc;

/// Whether a known path has its length under the prices too: a look at few places, before each arc is tested.
fn has_length(query: Query<'_>, known: &Priced) -> bool {
    match known {
        Priced::Path {
            path,
            length,
            potentials: _potentials,
        } => price_along(query.inst, query.prices.as_slice(), path.as_slice()) == *length,
        Priced::NoPath { reached: _reached } => true,
    }
}

/// What is known of the demand, where it still shows what it says. That takes a look at each arc, and no search.
///
/// - Errors: want of memory alone.
pub(crate) fn still_shown(
    query: Query<'_>,
    known: Option<&Arc<Priced>>,
) -> Result<Option<Arc<Priced>>, AllocError>
    requires prices { ArePrices query.inst.now query.prices.now }
    requires demand { query.demand.0 < length query.inst.now.demands }
    ensures least { IfOk result (λ found. IfSome found (λ shared. IsPriced query.entry.inst.now query.entry.prices.now query.entry.demand.0 (forbids query.entry.restriction.now) (arc_value shared))) }
    ensures accepted { IfOk result (λ found. IfSome found (λ shared. priced_fault query.entry.inst.now query.entry.prices.now query.entry.demand.0 (forbids query.entry.restriction.now) (arc_value shared) ≡ None)) }
{
    if let Some(known) = known {
        if !has_length(query, &**known) {
            return Ok(None);
        }
        let shown = check_priced(
            query.inst,
            query.prices,
            query.demand,
            query.restriction,
            &**known,
        );
        if shown.is_ok() {
            return Ok(Some(known.clone()?));
        }
    }
    Ok(None)
}

/// A least path of the demand, or a set that shows that it has none. What is known is taken where it still shows this, else
/// the path in the tree of the demand's source; where the demand may not take that path, it is searched alone.
///
/// - Takes: trees under the same prices, of version 0.
/// - Errors: want of memory alone.
/// - Time: that of one search for the first demand of a source; else linear in nodes, links and the path's arcs, where the
///   path in the tree serves.
pub fn find(
    trees: &mut Trees,
    query: Query<'_>,
    known: Option<&Arc<Priced>>,
) -> Result<Arc<Priced>, AllocError>
    requires prices { ArePrices query.inst.now query.prices.now }
    requires demand { query.demand.0 < length query.inst.now.demands }
    ensures least { IfOk result (λ found. IsPriced query.entry.inst.now query.entry.prices.now query.entry.demand.0 (forbids query.entry.restriction.now) (arc_value found)) }
    ensures accepted { IfOk result (λ found. priced_fault query.entry.inst.now query.entry.prices.now query.entry.demand.0 (forbids query.entry.restriction.now) (arc_value found) ≡ None) }
{
    if let Some(found) = still_shown(query, known)? {
        return Ok(found);
    }
    trees.find(query, 0)
}

/// The same, not shared.
///
/// - Errors: want of memory alone.
pub fn copy_of(found: &Priced) -> Result<Priced, AllocError>
    ensures { IfOk result (λ copy. copy ≡ found.now) }
{
    match found {
        Priced::Path {
            path,
            length,
            potentials,
        } => Ok(Priced::Path {
            path: path.copy()?,
            length: *length,
            potentials: potentials.copy()?,
        }),
        Priced::NoPath { reached } => Ok(Priced::NoPath {
            reached: reached.copy()?,
        }),
    }
}
