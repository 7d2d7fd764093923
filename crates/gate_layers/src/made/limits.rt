//! Whether least paths within limits, and the fewest arcs of a path, are as the lists of all paths tell. Where memory is
//! wanting nothing is as it should be.

ghost use Rattle.std.specs.Prelude.{◌<◌, length};

use super::comparing::{has, least_of};
use super::listing::{Walk, listed};
use crate::searching::{Asked, found_within};
use hop_pricing::{Within, fewest};
use plan_base::DemandId;
use std::alloc::AllocError;

/// Those of the paths that have at most so many arcs.
fn short_of(asked: Asked<'_>, paths: &[Walk], hops: u64) -> Result<Vec<Walk>, AllocError> {
    let mut short = Vec::new(asked.alloc);
    for path in paths {
        if u64::from(path.steps) <= hops {
            short.push(*path)?;
        }
    }
    Ok(short)
}

/// The fewest arcs of these paths.
fn fewest_of(paths: &[Walk]) -> Option<u32> {
    let mut fewest: Option<u32> = None;
    for path in paths {
        if fewest.is_none_or(|other| path.steps < other) {
            fewest = Some(path.steps);
        }
    }
    fewest
}

/// Whether what is found is one of the short paths with the least price of these; or there is none, and it tells the fewest
/// arcs of all.
fn is_right(paths: &[Walk], short: &[Walk], found: &Within) -> bool {
    match found {
        Within::Path { path, length } => has(short, path) && least_of(short) == Some(*length),
        Within::Far { fewest } => short.is_empty() && *fewest == fewest_of(paths),
    }
}

/// Whether the search finds within the limit what the list tells.
fn agrees_within(asked: Asked<'_>, demand: DemandId, paths: &[Walk], hops: u64) -> bool {
    let Ok(short) = short_of(asked, paths, hops) else {
        return false;
    };
    match found_within(asked, demand, hops) {
        Some(found) => is_right(paths, &short, &found),
        None => false,
    }
}

/// Whether the searches within each limit up to the count of nodes, and within the greatest one, find for a demand what the
/// list tells.
fn agrees_at(asked: Asked<'_>, demand: DemandId, paths: &[Walk]) -> bool {
    for hops in 0..=u64::from(asked.inst.nodes()) {
        if !agrees_within(asked, demand, paths, hops) {
            return false;
        }
    }
    agrees_within(asked, demand, paths, u64::MAX)
}

/// Whether the fewest arcs of a path of the demand are those of the list.
fn fewest_agrees(asked: Asked<'_>, demand: DemandId, paths: &[Walk]) -> bool
    requires { demand.0 < length asked.inst.now.demands }
{
    match fewest(asked.alloc, asked.inst, demand, asked.restriction) {
        Ok(found) => found == fewest_of(paths),
        Err(_) => false,
    }
}

/// Whether least paths within limits, and the fewest arcs, are as the lists tell, of each demand.
pub(crate) fn limits_agree(asked: Asked<'_>) -> bool {
    for place in 0..asked.inst.demands() {
        let demand = DemandId(place);
        let Ok(paths) = listed(asked, demand) else {
            return false;
        };
        if !agrees_at(asked, demand, &paths) || !fewest_agrees(asked, demand, &paths) {
            return false;
        }
    }
    true
}
