//! A set of nodes with what crosses it.

use crate::counting::{Counting, Crossing, Missing};
use crate::counting_rules::{CountingRule, Crossed};
use crate::limits::MAX_CROSSING;
use crate::node_set::{NODE_BOUND, NodeSet};
use crate::sightings::Sightings;
use plan_base::{Instance, Items, LinkId};
use proof_tree::Cut;
use std::alloc::{AllocError, Global};

/// A set of nodes, with the places that cross it and the ways to count what does.
#[derive(Debug, Drop)]
pub(crate) struct Side {
    nodes: NodeSet,
    crossings: Vec<Crossing>,
    countings: Vec<Counting>,
}

/// For each node whether the set holds it.
fn marks(alloc: Global, inst: &Instance, nodes: NodeSet) -> Result<Items<bool>, AllocError> {
    let mut marks = Vec::new(alloc);
    for node in 0..inst.nodes() {
        marks.push(node < NODE_BOUND && nodes.holds(node))?;
    }
    Ok(Items::from_vec(marks))
}

/// The places that cross the set.
fn crossings_of(alloc: Global, inst: &Instance, cut: &Cut) -> Result<Vec<Crossing>, AllocError> {
    let mut crossings = Vec::new(alloc);
    for place in 0..inst.places() {
        if cut.crosses(inst, place) {
            let link = inst.link_of_place(place);
            crossings.push(Crossing {
                place,
                link: link.0,
                pre: inst.link(link).pre,
            })?;
        }
    }
    Ok(crossings)
}

/// Whether routing over a place costs more than half of what a price may be, so that rates have little room there.
fn is_dear(inst: &Instance, limit: u128, crossing: Crossing) -> bool {
    if crossing.link >= inst.links() {
        return true;
    }
    let routing = u128::from(inst.link(LinkId(crossing.link)).routing);
    routing.saturating_mul(1000) > limit / 2
}

/// Whether routing over one of the places costs so much that no rate may be put on it.
fn are_dear(inst: &Instance, crossings: &[Crossing]) -> bool {
    let limit = inst.price_limit();
    crossings
        .iter()
        .any(|crossing| is_dear(inst, limit, *crossing))
}

/// The ways to count what crosses the set of a cut that a rule gives: none where rates may not be put on one of the places.
fn countings_of<R: CountingRule>(
    alloc: Global,
    inst: &Instance,
    cut: &Cut,
    crossings: &[Crossing],
    rule: &R,
) -> Result<Vec<Counting>, AllocError> {
    if are_dear(inst, crossings) {
        return Ok(Vec::new(alloc));
    }
    let rest = cut.rest(inst);
    rule.countings(
        alloc,
        Crossed {
            inst,
            rest,
            crossings,
        },
    )
}

impl Side {
    /// The set of nodes with what crosses it, and the ways to count that which a rule gives.
    pub(crate) fn of<R: CountingRule>(
        alloc: Global,
        inst: &Instance,
        nodes: NodeSet,
        rule: &R,
    ) -> Result<Side, AllocError> {
        let cut = Cut {
            nodes: marks(alloc, inst, nodes)?,
            period: 1,
            first: 1,
            counts_installed: false,
        };
        let crossings = crossings_of(alloc, inst, &cut)?;
        let countings = countings_of(alloc, inst, &cut, &crossings, rule)?;
        Ok(Side {
            nodes,
            crossings,
            countings,
        })
    }

    /// Whether there is a way to count what crosses.
    pub(crate) fn has_countings(&self) -> bool {
        self.countings.len() > 0
    }

    /// The first of the countings that miss the most, where one misses enough.
    pub(crate) fn most_missing(&self, seen: &Sightings) -> Option<Missing> {
        let mut most: Option<Missing> = None;
        for counting in &self.countings {
            let share = counting.missing(&self.crossings, seen);
            if share > 0 && most.is_none_or(|other| other.share < share) {
                most = Some(Missing {
                    share,
                    counting: *counting,
                });
            }
        }
        most
    }

    /// Whether none of the places that cross is in use too often.
    pub(crate) fn has_room(&self, used: &[u32]) -> bool {
        self.crossings.iter().all(|crossing| (crossing.place as usize) < used.len()
            && used[crossing.place as usize] < MAX_CROSSING)
    }

    /// Counts the places that cross once more.
    pub(crate) fn take_room(&self, used: &mut Vec<u32>) {
        for crossing in &self.crossings {
            let place = crossing.place as usize;
            if place < used.len() {
                used[place] = used[place].saturating_add(1);
            }
        }
    }

    /// The cut that counts so.
    pub(crate) fn cut(
        &self,
        alloc: Global,
        inst: &Instance,
        counting: Counting,
    ) -> Result<Cut, AllocError> {
        Ok(Cut {
            nodes: marks(alloc, inst, self.nodes)?,
            period: counting.period,
            first: counting.first,
            counts_installed: counting.counts_installed,
        })
    }
}
