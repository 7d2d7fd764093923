//! Restrictions.

use crate::asking::{Question, number_of, word_at};
use arc_restrict::Restriction;
use plan_base::{ArcId, DemandId, Instance};

/// Forbids an arc to a demand. Tells whether both exist.
pub(crate) fn forbid(
    inst: &Instance,
    restriction: &mut Restriction,
    demand: u32,
    arc: u32,
) -> bool {
    let arcs = inst.arcs();
    if !restriction.fits(inst) || demand >= inst.demands() || arc >= arcs {
        return false;
    }
    restriction.forbid(DemandId(demand), &[ArcId(arc)]);
    true
}

/// Forbids arcs by pairs of a demand and an arc. Tells whether all exist.
fn forbid_all(inst: &Instance, restriction: &mut Restriction, pairs: &str) -> bool {
    for pair in pairs.split(',') {
        let (demand, arc) = pair.split_once(':').unwrap_or((pair, ""));
        if !forbid(inst, restriction, number_of(demand), number_of(arc)) {
            return false;
        }
    }
    true
}

/// The restriction of the word of a place: `-`, or pairs of a demand and an arc that is forbidden to it.
pub(crate) fn restriction_at(question: Question<'_>, place: usize) -> Option<Restriction> {
    let word = word_at(question.row, place);
    let mut restriction = Restriction::none(question.alloc, question.inst).ok()?;
    if word != "-" && !forbid_all(question.inst, &mut restriction, word) {
        return None;
    }
    Some(restriction)
}
