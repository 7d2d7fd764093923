//! Ways to count what crosses a set of nodes.

ghost use Rattle.std.specs.Prelude.{◌≤◌};
ghost use Rattle.plan_base.specs.declared.limits.TheConstants.{MAX_TOTAL_LOAD};
ghost use Rattle.link_steps.specs.Tallies.{IsTally};

use crate::counting_rules::Crossed;
use crate::limits::LEAST_MISSING;
use crate::sightings::{Sighting, Sightings};
use link_steps::{Batch, tally};
use std::alloc::{AllocError, Global};

/// A place that crosses a set.
#[derive(Clone, Copy, Debug)]
pub struct Crossing {
    pub place: u32,
    /// The number of its link.
    pub link: u32,
    /// The pre-installed capacity of its link, in load grains.
    pub pre: u64,
}

/// Which grains of the loads that cross a set are counted.
#[derive(Clone, Copy, Debug)]
pub struct Counting {
    /// In load grains.
    pub(crate) period: u64,
    /// How many grains of each period are counted.
    pub(crate) first: u64,
    /// Whether what the pre-installed capacities carry is left out before counting.
    pub(crate) counts_installed: bool,
    /// What crosses the set beyond that, in load grains.
    rest: u64,
    /// What is counted at least, in load grains.
    least: u64,
    ghost is_tally: { IsTally period first },
}

/// A counting, and how many millionths of what it counts at least are missing.
#[derive(Clone, Copy, Debug)]
pub(crate) struct Missing {
    pub(crate) share: u128,
    pub(crate) counting: Counting,
}

/// Puts the countings of a rest in: for each period that is not longer the grains of the rest that are past whole periods,
/// and at last all grains up to the rest.
fn put_countings(
    periods: &[u64],
    rest: u64,
    counts_installed: bool,
    countings: &mut Vec<Counting>,
) -> Result<(), AllocError>
    requires { rest ≤ MAX_TOTAL_LOAD }
{
    for period in periods {
        let period = *period;
        if 0 < period && period <= rest && rest % period > 0 {
            countings.push(Counting::new(period, rest % period, counts_installed, rest))?;
        }
    }
    if rest > 0 {
        countings.push(Counting::new(rest + 1, rest, counts_installed, rest))?;
    }
    Ok(())
}

/// The pre-installed capacities of the links of these places, in load grains.
fn installed_on(crossings: &[Crossing]) -> u64 {
    let mut installed: u64 = 0;
    for crossing in crossings {
        installed = installed.saturating_add(crossing.pre);
    }
    installed
}

/// The countings of what crosses a set: of all that does, and where something is installed, of what goes beyond that.
pub(crate) fn put_both(
    alloc: Global,
    periods: &[u64],
    crossed: Crossed<'_>,
) -> Result<Vec<Counting>, AllocError> {
    let mut countings = Vec::new(alloc);
    put_countings(periods, crossed.rest, false, &mut countings)?;
    let installed = installed_on(crossed.crossings);
    if installed > 0 {
        put_countings(
            periods,
            crossed.rest.saturating_sub(installed),
            true,
            &mut countings,
        )?;
    }
    Ok(countings)
}

/// How many millionths one number is of another.
fn share_of(part: u128, whole: u128) -> u128 {
    if whole == 0 {
        return 0;
    }
    part.saturating_mul(1_000_000) / whole
}

impl Counting {
    /// The counting of the first grains of each period, up to a rest.
    fn new(period: u64, first: u64, counts_installed: bool, rest: u64) -> Counting
        requires { IsTally period first }
    {
        Counting {
            period,
            first,
            counts_installed,
            rest,
            least: tally(period, first, rest),
        }
    }

    /// How many grains a place counts of all loads that it was seen with.
    fn counted(self, crossing: Crossing, seen: &[Sighting]) -> u128 {
        let batch = Batch {
            period: self.period,
            first: self.first,
            before: if self.counts_installed {
                crossing.pre
            } else {
                0
            },
            rest: self.rest,
        };
        let mut counted: u128 = 0;
        for sighting in seen {
            let part = u128::from(batch.part(sighting.load));
            counted = counted.saturating_add(part.saturating_mul(u128::from(sighting.times)));
        }
        counted
    }

    /// How many millionths of what is counted at least are missing over the turns; 0 where too few are.
    pub(crate) fn missing(self, crossings: &[Crossing], seen: &Sightings) -> u128 {
        let wanted = u128::from(self.least).saturating_mul(u128::from(seen.turns));
        let enough = wanted.saturating_mul(1000 - LEAST_MISSING);
        let mut counted: u128 = 0;
        for crossing in crossings {
            counted = counted.saturating_add(self.counted(*crossing, seen.at(crossing.place)));
            if counted.saturating_mul(1000) > enough {
                return 0;
            }
        }
        share_of(wanted.saturating_sub(counted), wanted)
    }
}
