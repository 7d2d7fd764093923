//! Least paths, and what a restriction allows and leaves.

use crate::asking::Question;
use crate::restricting::restriction_at;
use crate::searching::{Asked, Body, length_of, searched};
use crate::steps::start_of;
use crate::telling::{tell_number, tell_path, tell_reached};
use arc_restrict::Restriction;
use path_pricing::Priced;
use plan_base::{ArcId, DemandId};
use second_path::{Determined, determine};

/// Adds the arcs of a least path and its price, or for each node whether it is reached.
fn tell_priced(priced: &Priced, text: &mut String) -> Option<()> {
    match priced {
        Priced::Path { path, length, .. } => {
            tell_path(path, text)?;
            tell_number(" length", *length, text)
        }
        Priced::NoPath { reached } => tell_reached(" no path", reached.as_slice(), text),
    }
}

/// Adds a least path of a demand and its price, or for each node whether it is reached.
pub(crate) fn tell_price(question: Question<'_>, body: Body, text: &mut String) -> Option<()> {
    let prices = question.prices(3)?;
    let restriction = restriction_at(question, 4)?;
    let asked = Asked::of(question, &prices, &restriction);
    tell_priced(&searched(asked, DemandId(question.number(2)), body)?, text)
}

/// The least price of a demand by a search, where it has a path.
fn least_by(asked: Asked<'_>, demand: DemandId, body: Body) -> Option<u128> {
    length_of(&searched(asked, demand, body)?)
}

/// Adds the least price of each demand, where both searches give the same.
fn tell_all(asked: Asked<'_>, text: &mut String) -> Option<()> {
    for place in 0..asked.inst.demands() {
        let found = least_by(asked, DemandId(place), Body::Heap)?;
        if found != least_by(asked, DemandId(place), Body::Walk)? {
            return None;
        }
        tell_number("", found, text)?;
    }
    Some(())
}

/// Adds the least price of each demand at the start prices.
pub(crate) fn tell_least(question: Question<'_>, text: &mut String) -> Option<()> {
    let Question { alloc, inst, .. } = question;
    let prices = start_of(alloc, inst)?;
    let none = Restriction::none(alloc, inst).ok()?;
    tell_all(Asked::of(question, &prices, &none), text)
}

/// Adds of which demand there is no path, or the first of which there are two, or that there is one of each.
fn tell_determined(answer: &Determined, text: &mut String) -> Option<()> {
    let (count, demand) = match answer {
        Determined::Empty { demand, .. } => (" no path of demand", demand),
        Determined::Two { demand, .. } => (" two paths of demand", demand),
        Determined::One(_) => return text.push_str(" one path of each demand").ok(),
    };
    tell_number(count, u128::from(demand.0), text)
}

/// Adds what a restriction leaves.
pub(crate) fn tell_left(question: Question<'_>, text: &mut String) -> Option<()> {
    let restriction = restriction_at(question, 2)?;
    let answer = determine(question.alloc, question.inst, &restriction).ok()?;
    tell_determined(&answer, text)
}

/// Adds which arcs a restriction allows to a demand.
fn tell_arcs(
    arcs: u32,
    restriction: &Restriction,
    demand: DemandId,
    text: &mut String,
) -> Option<()> {
    for arc in 0..arcs {
        if restriction.allows(demand, ArcId(arc)) {
            tell_number("", u128::from(arc), text)?;
        }
    }
    Some(())
}

/// Adds which arcs a copy of the restriction allows to a demand, and whether it permits a path.
pub(crate) fn tell_allowed(question: Question<'_>, text: &mut String) -> Option<()> {
    let path = question.path(3)?;
    let restriction = restriction_at(question, 4)?.copy().ok()?;
    let demand = DemandId(question.number(2));
    let arcs = question.inst.arcs();
    tell_arcs(arcs, &restriction, demand, text)?;
    write!(text, " path {}", restriction.permits(demand, &path)).ok()
}
