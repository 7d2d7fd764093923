//! The rule of countings by the capacities of modules and the lengths of steps.

ghost use Rattle.std.specs.Prelude.{◌≡◌, ◌<◌, length};

use crate::counting::{Counting, Crossing, put_both};
use crate::counting_rules::{CountingRule, Crossed};
use crate::limits::{FIRST_STEPS, MAX_PERIODS};
use link_steps::{LoadRange, StepTable};
use plan_base::{Instance, Items, LinkId};
use std::alloc::{AllocError, Global};

/// How many loads each of the first steps of the link has past the one before, but the first and the last.
fn lengths_of_link(
    alloc: Global,
    inst: &Instance,
    table: &StepTable,
    link: LinkId,
) -> Result<Vec<u64>, AllocError>
    requires table { table.now ≡ inst.now }
    requires link { link.0 < length inst.now.links }
{
    let most = inst.total_load();
    let mut lengths = Vec::new(alloc);
    let mut least = 0;
    for number in 0..FIRST_STEPS + 1 {
        match table.first_step_end(link, LoadRange { least, most }) {
            Some(end) => {
                if number > 0 {
                    lengths.push(end - least + 1)?;
                }
                least = end + 1;
            }
            None => return Ok(lengths),
        }
    }
    Ok(lengths)
}

/// For each link how many loads each of its first steps has past the one before, but the first and the last.
fn step_lengths(
    alloc: Global,
    inst: &Instance,
    table: &StepTable,
) -> Result<Vec<Items<u64>>, AllocError>
    requires table { table.now ≡ inst.now }
{
    let mut lengths = Vec::new(alloc);
    for number in 0..inst.links() {
        let of_link = lengths_of_link(alloc, inst, table, LinkId(number))?;
        lengths.push(Items::from_vec(of_link))?;
    }
    Ok(lengths)
}

/// Puts the lengths in that are not there yet, up to a number of them.
fn put_new(lengths: &[u64], periods: &mut Vec<u64>) -> Result<(), AllocError> {
    for length in lengths {
        if periods.len() < MAX_PERIODS && !periods.contains(length) {
            periods.push(*length)?;
        }
    }
    Ok(())
}

/// Puts the capacities in of the modules of the links that cross.
fn put_capacities(
    inst: &Instance,
    crossings: &[Crossing],
    periods: &mut Vec<u64>,
) -> Result<(), AllocError> {
    for crossing in crossings {
        if crossing.link < inst.links() {
            for module in inst.link(LinkId(crossing.link)).modules.as_slice() {
                put_new(&[module.capacity], periods)?;
            }
        }
    }
    Ok(())
}

/// The capacities of the modules of the links that cross, and behind them the lengths of their first steps, up to a number of
/// them.
fn periods_of(
    alloc: Global,
    inst: &Instance,
    crossings: &[Crossing],
    lengths: &[Items<u64>],
) -> Result<Vec<u64>, AllocError> {
    let mut periods = Vec::new(alloc);
    put_capacities(inst, crossings, &mut periods)?;
    for crossing in crossings {
        if let Some(of_link) = lengths.get(crossing.link as usize) {
            put_new(of_link.as_slice(), &mut periods)?;
        }
    }
    Ok(periods)
}

/// Counts past whole periods, which are the capacities of modules of the links that cross and the lengths of their first
/// steps; and all grains up to the rest.
#[derive(Debug, Drop)]
pub struct Periods {
    /// For each link the lengths of its first steps, in load grains.
    lengths: Vec<Items<u64>>,
}

impl Periods {
    /// The rule over an instance, whose step table this is; want of memory is the only error.
    pub fn of(alloc: Global, inst: &Instance, table: &StepTable) -> Result<Periods, AllocError>
        requires { table.now ≡ inst.now }
    {
        Ok(Periods {
            lengths: step_lengths(alloc, inst, table)?,
        })
    }
}

impl CountingRule for Periods {
    fn countings(&self, alloc: Global, crossed: Crossed<'_>) -> Result<Vec<Counting>, AllocError> {
        let periods = periods_of(alloc, crossed.inst, crossed.crossings, &self.lengths)?;
        put_both(alloc, &periods, crossed)
    }
}
