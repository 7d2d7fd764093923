//! New pools.

ghost use Rattle.std.specs.Prelude.{◌≡◌, IfSome};

use super::cuts::cuts_of;
use gate_networks::{Network, find, table_of};
use pool_core::Pool;
use std::alloc::Global;
use std::sync::Arc;

/// A pool on the network of a name, with a budget and a list of cuts.
///
/// - Takes: `NAME BUDGET`, and where there are cuts ` : ` and what `cuts_of` takes.
/// - Gives: None where there is no network of that name, where the budget is not from 1 to 4,096, where a link takes too
///   many steps, where the cuts are no list for the network, and where memory is wanting.
pub(crate) fn pool_of(alloc: Global, networks: &[Network], words: &str) -> Option<Pool>
    ensures { IfSome result (λ pool. pool.accepted ≡ 0) }
{
    let (words, cuts) = words.split_once(" : ").unwrap_or((words, ""));
    let (name, budget) = words.split_once(' ')?;
    let budget = budget.parse::<u32>().ok()?;
    if budget == 0 || budget > 4096 {
        return None;
    }
    let inst = find(networks, name)?.copy(alloc).ok()?;
    let inst = Arc::new(alloc, inst).ok()?;
    let cuts = cuts_of(alloc, &*inst, cuts)?;
    let table = table_of(alloc, &*inst)?;
    Pool::new(alloc, inst, table, budget, cuts).ok()
}
