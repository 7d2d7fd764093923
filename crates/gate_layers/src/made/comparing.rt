//! Whether least paths, those within limits, those of trees, and what a restriction leaves are as the lists of all paths
//! tell. Where memory is wanting nothing is as it should be.

ghost use Rattle.std.specs.Prelude.{◌<◌, length};
ghost use Rattle.arc_restrict.specs.Rows.{forbids};
ghost use Rattle.arc_restrict.specs.Restrictions.{IsPermittedPath};
ghost use Rattle.second_path.specs.Others.{AreOnlyPaths, IsDetermined};

use super::limits::limits_agree;
use super::listing::{Walk, arcs_of, listed};
use crate::searching::{Asked, Body, length_of, searched};
use arc_restrict::Restriction;
use path_pricing::{Priced, SourceTree};
use plan_base::{DemandId, Instance, Path};
use second_path::{Determined, determine, second};
use std::alloc::AllocError;

/// The least price of these paths.
pub(crate) fn least_of(paths: &[Walk]) -> Option<u128> {
    let mut least: Option<u128> = None;
    for path in paths {
        if least.is_none_or(|other| path.price < other) {
            least = Some(path.price);
        }
    }
    least
}

/// Whether the path is among these.
pub(crate) fn has(paths: &[Walk], path: &Path) -> bool {
    let arcs = arcs_of(path);
    paths.iter().any(|listed| listed.arcs == arcs)
}

/// Whether what is found is listed with the least price of the listed paths, or nothing is listed.
fn is_least(paths: &[Walk], found: &Priced) -> bool {
    match found {
        Priced::Path { path, length, .. } => has(paths, path) && least_of(paths) == Some(*length),
        Priced::NoPath { .. } => paths.is_empty(),
    }
}

/// Whether both searches find for a demand the least of its listed paths.
fn least_agrees(asked: Asked<'_>, demand: DemandId, paths: &[Walk]) -> bool {
    for body in [Body::Heap, Body::Walk] {
        match searched(asked, demand, body) {
            Some(found) if is_least(paths, &found) => {}
            _ => return false,
        }
    }
    true
}

/// The length of what is found for the demand by the tree of its source.
fn length_by_tree(asked: Asked<'_>, demand: DemandId) -> Option<u128>
    requires { demand.0 < length asked.inst.now.demands }
{
    let (alloc, inst, prices) = (asked.alloc, asked.inst, asked.prices);
    if !prices.fits(inst) {
        return None;
    }
    let source = inst.demand(demand).source;
    let tree = SourceTree::grow(alloc, inst, prices, source).ok()?;
    match tree.priced(alloc, inst, prices, demand, asked.restriction) {
        Ok(found) => length_of(&found),
        Err(_) => None,
    }
}

/// Whether the tree of the demand's source gives the least price of the listed paths.
fn tree_agrees(asked: Asked<'_>, demand: DemandId) -> bool
    requires { demand.0 < length asked.inst.now.demands }
{
    match listed(asked, demand) {
        Ok(paths) => length_by_tree(asked, demand) == least_of(&paths),
        Err(_) => false,
    }
}

/// Whether the least paths of a demand are as the list tells, and the tree of its source gives the same price.
fn agrees_at(asked: Asked<'_>, demand: DemandId) -> bool
    requires { demand.0 < length asked.inst.now.demands }
{
    let Ok(paths) = listed(asked, demand) else {
        return false;
    };
    least_agrees(asked, demand, &paths) && length_by_tree(asked, demand) == least_of(&paths)
}

/// Whether least paths and those of trees are as the lists tell: of each demand, and of trees with nothing forbidden too.
fn least_agree(asked: Asked<'_>, free: &Restriction) -> bool {
    let freely = Asked {
        restriction: free,
        ..asked
    };
    for place in 0..asked.inst.demands() {
        if !agrees_at(asked, DemandId(place)) || !tree_agrees(freely, DemandId(place)) {
            return false;
        }
    }
    true
}

/// Whether the path is listed, and `second` finds another one of the list, or there is no other.
fn second_agrees(asked: Asked<'_>, demand: DemandId, path: &Path) -> bool
    requires demand { demand.0 < length asked.inst.now.demands }
    requires path { IsPermittedPath asked.inst.now (forbids asked.restriction.now) demand.0 path.now }
{
    let Ok(paths) = listed(asked, demand) else {
        return false;
    };
    let is_right = match second(asked.alloc, asked.inst, demand, asked.restriction, path) {
        Ok(Some(other)) => other != *path && has(&paths, &other),
        Ok(None) => paths.len() == 1,
        Err(_) => false,
    };
    is_right && has(&paths, path)
}

/// Whether `second` agrees with the list at the only path of each demand.
fn all_second_agree(asked: Asked<'_>, paths: &[Path]) -> bool
    requires { AreOnlyPaths asked.inst.now (forbids asked.restriction.now) paths.now }
{
    for place in 0..asked.inst.demands() {
        if !second_agrees(asked, DemandId(place), &paths[place as usize]) {
            return false;
        }
    }
    true
}

/// How many paths each demand has.
fn counts_of(asked: Asked<'_>) -> Result<Vec<usize>, AllocError> {
    let mut counts = Vec::new(asked.alloc);
    for place in 0..asked.inst.demands() {
        let paths = listed(asked, DemandId(place))?;
        counts.push(paths.len())?;
    }
    Ok(counts)
}

/// The first demand with two paths, by larger load and then by lower number.
fn first_with_two(inst: &Instance, counts: &[usize]) -> Option<u32> {
    let mut first = None;
    let mut most = 0;
    for place in 0..inst.demands() {
        let load = inst.demand(DemandId(place)).load;
        let is_many = counts.get(place as usize).is_some_and(|count| *count > 1);
        if is_many && load > most {
            most = load;
            first = Some(place);
        }
    }
    first
}

/// Whether the answer is that of the lists, and `second` agrees with them too.
fn is_right(asked: Asked<'_>, counts: &[usize], answer: &Determined) -> bool
    requires { IsDetermined asked.inst.now (forbids asked.restriction.now) answer.now }
{
    let empty = counts.iter().position(|count| *count == 0);
    let two = first_with_two(asked.inst, counts);
    match answer {
        Determined::Empty { demand, .. } => empty == Some(demand.0 as usize),
        Determined::Two {
            demand,
            first,
            second: other,
        } => {
            let is_due = empty.is_none() && two == Some(demand.0) && first != other;
            is_due && second_agrees(asked, *demand, first) && second_agrees(asked, *demand, other)
        }
        Determined::One(paths) => {
            empty.is_none() && two.is_none() && all_second_agree(asked, paths.as_slice())
        }
    }
}

/// Whether what the restriction leaves is as the lists tell.
fn left_agrees(asked: Asked<'_>) -> bool {
    let Ok(counts) = counts_of(asked) else {
        return false;
    };
    match determine(asked.alloc, asked.inst, asked.restriction) {
        Ok(answer) => is_right(asked, &counts, &answer),
        Err(_) => false,
    }
}

/// Whether least paths, those within limits, trees and what is left are as the lists tell, where the restriction beside
/// forbids nothing.
pub(crate) fn all_agree(asked: Asked<'_>, free: &Restriction) -> bool {
    least_agree(asked, free) && limits_agree(asked) && left_agrees(asked)
}
