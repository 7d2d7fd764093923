//! Least paths by both searches, and those within a limit.

use crate::asking::Question;
use arc_restrict::Restriction;
use hop_pricing::{Within, least_within};
use path_pricing::{Priced, Query, check_priced, price, price_slow};
use plan_base::{DemandId, Instance, Prices};
use std::alloc::Global;

/// What paths are asked of.
#[derive(Clone, Copy)]
pub(crate) struct Asked<'a> {
    pub(crate) alloc: Global,
    pub(crate) inst: &'a Instance,
    pub(crate) prices: &'a Prices,
    pub(crate) restriction: &'a Restriction,
}

impl<'a> Asked<'a> {
    /// The same at these prices and under this restriction, of the network of a question.
    pub(crate) fn of(
        question: Question<'a>,
        prices: &'a Prices,
        restriction: &'a Restriction,
    ) -> Asked<'a> {
        Asked {
            alloc: question.alloc,
            inst: question.inst,
            prices,
            restriction,
        }
    }
}

/// How a least path is searched: by `price` or by `price_slow`.
#[derive(Clone, Copy)]
pub(crate) enum Body {
    Heap,
    Walk,
}

/// A least path of the demand. None where the demand or the prices are not the network's, where `check_priced` does not
/// accept it, and where memory is wanting.
pub(crate) fn searched(asked: Asked<'_>, demand: DemandId, body: Body) -> Option<Priced> {
    let (inst, prices) = (asked.inst, asked.prices);
    if demand.0 >= inst.demands() || !prices.fits(inst) {
        return None;
    }
    let found = match body {
        Body::Heap => price(asked.alloc, inst, prices, demand, asked.restriction).ok()?,
        Body::Walk => price_slow(asked.alloc, inst, prices, demand, asked.restriction).ok()?,
    };
    check_priced(inst, prices, demand, asked.restriction, &found).ok()?;
    Some(found)
}

/// A least path of the demand within a limit on arcs. None where the demand or the prices are not the network's, and where
/// memory is wanting.
pub(crate) fn found_within(asked: Asked<'_>, demand: DemandId, hops: u64) -> Option<Within> {
    let (inst, prices) = (asked.inst, asked.prices);
    if demand.0 >= inst.demands() || !prices.fits(inst) {
        return None;
    }
    let query = Query {
        inst,
        prices,
        demand,
        restriction: asked.restriction,
    };
    least_within(asked.alloc, query, hops).ok()
}

/// The price of what is found, where it is a path.
pub(crate) fn length_of(found: &Priced) -> Option<u128> {
    match found {
        Priced::Path { length, .. } => Some(*length),
        Priced::NoPath { .. } => None,
    }
}
