//! Which grains of loads are counted, and what crosses sets of nodes.

ghost use Rattle.proof_tree.specs.Cuts.{IsCut};

use crate::asking::{Question, word_at};
use crate::telling::tell_number;
use gate_networks::list_of;
use link_steps::tally;
use plan_base::{Instance, Items};
use proof_tree::Cut;

/// Adds how many grains of a load are counted.
pub(crate) fn tell_tally(row: &str, text: &mut String) -> Option<()> {
    let period = word_at(row, 1).parse::<u64>().ok()?;
    let first = word_at(row, 2).parse::<u64>().ok()?;
    let load = word_at(row, 3).parse::<u64>().ok()?;
    if first < 1 || period < first {
        return None;
    }
    tell_number("", u128::from(tally(period, first, load)), text)
}

/// For each node whether the row names it.
fn set_of(question: Question<'_>) -> Option<Items<bool>> {
    let named = list_of(question.alloc, word_at(question.row, 2))?;
    let mut nodes = Vec::new(question.alloc);
    for node in 0..question.inst.nodes() {
        nodes.push(named.contains(&u64::from(node))).ok()?;
    }
    Some(Items::from_vec(nodes))
}

/// Adds the places that cross the cut.
fn tell_places(inst: &Instance, cut: &Cut, text: &mut String) -> Option<()> {
    text.push_str(" places").ok()?;
    for place in 0..inst.places() {
        if cut.crosses(inst, place) {
            tell_number("", u128::from(place), text)?;
        }
    }
    Some(())
}

/// Adds the places that cross a cut, what crosses it beyond what is left out, and how much of that is counted.
fn tell_crossing(inst: &Instance, cut: &Cut, text: &mut String) -> Option<()>
    requires { IsCut inst.now cut.now }
{
    tell_places(inst, cut, text)?;
    let rest = cut.rest(inst);
    let counted = tally(cut.period, cut.first, rest);
    write!(text, ", rest {rest}, counted {counted}").ok()
}

/// Adds what crosses the cut of a row, or that it is none.
pub(crate) fn tell_cut(question: Question<'_>, text: &mut String) -> Option<()> {
    let cut = Cut {
        nodes: set_of(question)?,
        period: question.amount(3),
        first: question.amount(4),
        counts_installed: question.number(5) == 1,
    };
    if cut.fits(question.inst) {
        tell_crossing(question.inst, &cut, text)
    } else {
        text.push_str(" none").ok()
    }
}
