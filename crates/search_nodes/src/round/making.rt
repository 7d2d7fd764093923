//! New places.

ghost use Rattle.std.specs.Prelude.{◌≡◌, ◌<◌, ◌^◌, length, replicate, None, IfOk};

use super::PoolRound;
use bound_assembly::Round;
use plan_base::{BranchId, Instance, Prices};
use search_machine::Found;
use std::alloc::{AllocError, Global};

/// Room for what is found for so many demands.
fn none_found(alloc: Global, demands: u32) -> Result<Vec<Option<Found>>, AllocError>
    ensures { IfOk result (λ found. found.items ≡ replicate demands None) }
{
    let mut found = Vec::new(alloc);
    for _ in 0..demands {
        found.push(None)?;
    }
    Ok(found)
}

impl PoolRound {
    /// A place that no round has used.
    ///
    /// - Takes: its slot; one price for each place and one rate for each cut, which are put there.
    /// - Errors: want of memory alone.
    pub fn new(
        alloc: Global,
        slot: u32,
        inst: &Instance,
        prices: &Prices,
    ) -> Result<PoolRound, AllocError>
        requires few { length prices.now < 2 ^ 32 }
        ensures slot { IfOk result (λ place. place.slot ≡ slot) }
        ensures demands { IfOk result (λ place. length place.found ≡ length inst.now.demands) }
        ensures prices { IfOk result (λ place. length place.prices ≡ length prices.now) }
    {
        let demands = inst.demands();
        let numbers = prices.as_slice().len() as u32;
        let found = none_found(alloc, demands)?;
        let mut lengths = Round::new(alloc, demands, numbers)?;
        lengths.restart(BranchId(0), 0, prices);
        Ok(PoolRound {
            slot,
            found,
            lengths,
        })
    }
}
