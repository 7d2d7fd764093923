//! Least paths within a limit on arcs, and the fewest arcs of a path.

use crate::asking::Question;
use crate::restricting::restriction_at;
use crate::searching::{Asked, found_within};
use crate::telling::{tell_number, tell_path};
use hop_pricing::{Within, fewest};
use plan_base::DemandId;

/// Adds the fewest arcs of a permitted path, or that none is permitted.
fn tell_count(fewest: Option<u32>, text: &mut String) -> Option<()> {
    match fewest {
        Some(arcs) => tell_number(" fewest", u128::from(arcs), text),
        None => text.push_str(" no path").ok(),
    }
}

/// Adds a least path of a demand within a limit and its price, or the fewest arcs where none is within it.
pub(crate) fn tell_within(question: Question<'_>, text: &mut String) -> Option<()> {
    let prices = question.prices(3)?;
    let restriction = restriction_at(question, 5)?;
    let asked = Asked::of(question, &prices, &restriction);
    match found_within(asked, DemandId(question.number(2)), question.amount(4))? {
        Within::Path { path, length } => {
            tell_path(&path, text)?;
            tell_number(" length", length, text)
        }
        Within::Far { fewest } => {
            text.push_str(" far").ok()?;
            tell_count(fewest, text)
        }
    }
}

/// Adds the fewest arcs of a path of a demand.
pub(crate) fn tell_fewest(question: Question<'_>, text: &mut String) -> Option<()> {
    let Question { alloc, inst, .. } = question;
    let demand = DemandId(question.number(2));
    if demand.0 >= inst.demands() {
        return None;
    }
    let restriction = restriction_at(question, 3)?;
    tell_count(fewest(alloc, inst, demand, &restriction).ok()?, text)
}
