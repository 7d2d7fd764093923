//! What was found for a demand.

use super::words::first_number;
use gate_networks::{list_of, path_of, prices_of};
use path_pricing::Priced;
use plan_base::{BranchId, DemandId, Items};
use pool_core::Offer;
use std::alloc::Global;

/// A path of a length and arcs, and the potentials of the nodes.
fn found_path(alloc: Global, words: &str) -> Option<Priced> {
    let (length, words) = words.split_once(' ')?;
    let (arcs, potentials) = words.split_once(' ')?;
    Some(Priced::Path {
        path: path_of(alloc, arcs)?,
        length: length.parse::<u128>().ok()?,
        potentials: Items::from_vec(prices_of(alloc, potentials)?),
    })
}

/// A set of nodes out of which no permitted arc is to lead: a 1 for each node of it, and a 0 for each other one.
fn found_set(alloc: Global, word: &str) -> Option<Priced> {
    let mut reached = Vec::new(alloc);
    for mark in list_of(alloc, word)?.iter() {
        reached.push(*mark == 1).ok()?;
    }
    Some(Priced::NoPath {
        reached: Items::from_vec(reached),
    })
}

/// A path or a set.
fn found_of(alloc: Global, words: &str) -> Option<Priced> {
    let (kind, words) = words.split_once(' ')?;
    match kind {
        "path" => found_path(alloc, words),
        "set" => found_set(alloc, words),
        _ => None,
    }
}

/// What was found for a demand under a version of a node.
///
/// - Takes: `NODE VERSION DEMAND path LENGTH ARCS POTENTIALS` or `NODE VERSION DEMAND set MARKS`, lengths and potentials in
///   thousandths of a cost grain per load grain.
/// - Gives: None where the words have neither form, and where memory is wanting.
pub(crate) fn offer_of(alloc: Global, words: &str) -> Option<Offer> {
    let (node, words) = first_number(words)?;
    let (version, words) = first_number(words)?;
    let (demand, words) = first_number(words)?;
    Some(Offer {
        node: BranchId(node),
        version: u64::from(version),
        demand: DemandId(demand),
        found: found_of(alloc, words)?,
    })
}
