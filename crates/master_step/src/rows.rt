//! The room that a step works in.

ghost use Rattle.std.specs.Prelude.{◌≡◌, ◌+◌, length, IfOk};
ghost use Rattle.plan_base.specs.Places.{places};
ghost use Rattle.master_step.specs.Climbing.{HasRoom};

use cut_values::CutTable;
use plan_base::limits::MAX_PLACES;
use plan_base::{Instance, Prices};
use std::alloc::{AllocError, Global};
use std::marker::Model;

/// Rows with an entry for each place, and a trial's numbers.
#[derive(Debug, Drop)]
pub struct Rows {
    /// What the least columns put on the places, in load grains.
    pub column_loads: Vec<u128>,
    /// What gives the links their values, in load grains.
    pub value_loads: Vec<u128>,
    /// The prices and rates of a trial.
    pub trial: Prices,
}

/// How many numbers there are: a price for each place, and a rate for each cut.
fn number_count(inst: &Instance, table: &CutTable) -> usize
    ensures { result ≡ places inst.now + length table.now.cuts }
{
    inst.places() as usize + table.count() as usize
}

impl Rows {
    /// Rows for an instance with a list of cuts.
    pub fn new(alloc: Global, inst: &Instance, table: &CutTable) -> Result<Rows, AllocError>
        ensures { IfOk result (HasRoom (places inst.now + length table.now.cuts)) }
    {
        let numbers = number_count(inst, table);
        Ok(Rows {
            column_loads: vec![in alloc; 0; MAX_PLACES]?,
            value_loads: vec![in alloc; 0; MAX_PLACES]?,
            trial: Prices::from_vec(vec![in alloc; 0; numbers]?),
        })
    }
}

/// The room that `gain` works in. Its contents mean nothing between calls.
///
/// Contracts see it as the count of numbers that it has room for.
#[derive(Debug, Drop)]
pub struct Room {
    pub(crate) rows: Rows,
}

impl Model for Room {
    ghost use Rattle.std.specs.Prelude.{ℕ, length};
    ghost use Rattle.master_step.specs.Climbing.{HasRoom};

    ghost Value = { ℕ };

    ghost view = { λ a. length a.rows.trial };

    ghost invariant = { λ a. HasRoom (length a.rows.trial) a.rows };
}

impl Room {
    /// Room for the steps of an instance with a list of cuts.
    ///
    /// - Errors: want of memory alone.
    pub fn new(alloc: Global, inst: &Instance, table: &CutTable) -> Result<Room, AllocError>
        ensures { IfOk result (λ room. room ≡ places inst.now + length table.now.cuts) }
    {
        Ok(Room {
            rows: Rows::new(alloc, inst, table)?,
        })
    }
}
