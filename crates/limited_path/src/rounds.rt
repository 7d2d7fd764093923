//! The search: a round goes on from each way that the round before found, as it was then.

ghost use Rattle.std.specs.Prelude.{◌≡◌, ◌<◌, ◌≤◌, ◌+◌, ◌-◌, ◌*◌, length, min, vec_capacity};
ghost use Rattle.plan_base.specs.Facts.{IsInstance};
ghost use Rattle.least_path.specs.Paths.{AreWeights};
ghost use Rattle.limited_path.specs.Labels.{AreRounds, IsRound, IsSearch};

use crate::label::Label;
use crate::ways::Ways;
use plan_base::{Instance, NodeId};

/// Which ways are asked for.
#[derive(Clone, Copy)]
pub struct Query<'a> {
    pub inst: &'a Instance,
    /// One weight for each arc number; none where the arc may not be used.
    pub weights: &'a [Option<u128>],
    pub source: NodeId,
}

/// A round.
#[derive(Clone, Copy)]
pub struct Round {
    /// The place where its labels begin.
    pub start: usize,
    /// How many arcs the ways have that it finds.
    pub steps: u32,
}

impl Query<'_> {
    /// Offers the ways that go on from the label at this place to each node that a usable arc leads to.
    fn go_on(&self, ways: &mut Ways, round: Round, place: usize)
        requires lawful { IsInstance self.now.inst.now }
        requires weights { AreWeights self.now.inst.now self.now.weights.now }
        requires place { place < round.start }
        requires steps { round.steps < self.now.inst.now.nodes }
        requires memory { self.now.inst.now.nodes * self.now.inst.now.nodes ≤ vec_capacity ways.old.labels }
        requires start { IsRound self.now.inst.now self.now.weights.now self.now.source ways.old.labels.items ways.old.latest.items round.start round.steps place }
        ensures round { IsRound self.now.inst.now self.now.weights.now self.now.source ways.new.labels.items ways.new.latest.items round.start round.steps (place + 1) }
        ensures label_memory { vec_capacity ways.new.labels ≡ vec_capacity ways.old.labels }
        ensures node_memory { vec_capacity ways.new.latest ≡ vec_capacity ways.old.latest }
    {
        let here = ways.labels[place];
        for arc in self.inst.leaving(here.node) {
            if let Some(weight) = self.weights[arc.0 as usize] {
                let label = Label {
                    node: self.inst.head(*arc),
                    length: here.length + weight,
                    steps: round.steps,
                    via: *arc,
                    parent: place,
                };
                ways.offer(round.start, label);
            }
        }
    }

    /// The round that finds ways of so many arcs, from the labels from this place on.
    fn round(&self, ways: &mut Ways, from: usize, steps: u32)
        requires lawful { IsInstance self.now.inst.now }
        requires weights { AreWeights self.now.inst.now self.now.weights.now }
        requires some { 0 < steps }
        requires steps { steps < self.now.inst.now.nodes }
        requires memory { self.now.inst.now.nodes * self.now.inst.now.nodes ≤ vec_capacity ways.old.labels }
        requires start { AreRounds self.now.inst.now self.now.weights.now self.now.source ways.old.labels.items ways.old.latest.items from (steps - 1) }
        ensures rounds { AreRounds self.now.inst.now self.now.weights.now self.now.source ways.new.labels.items ways.new.latest.items (length ways.old.labels.items) steps }
        ensures label_memory { vec_capacity ways.new.labels ≡ vec_capacity ways.old.labels }
        ensures node_memory { vec_capacity ways.new.latest ≡ vec_capacity ways.old.latest }
    {
        let round = Round {
            start: ways.labels.len(),
            steps,
        };
        for place in from..round.start {
            self.go_on(ways, round, place);
        }
    }

    /// So many rounds, or fewer, where one finds nothing.
    pub fn rounds(&self, ways: &mut Ways, limit: u32)
        requires lawful { IsInstance self.now.inst.now }
        requires weights { AreWeights self.now.inst.now self.now.weights.now }
        requires limit { limit < self.now.inst.now.nodes }
        requires memory { self.now.inst.now.nodes * self.now.inst.now.nodes ≤ vec_capacity ways.old.labels }
        requires start { AreRounds self.now.inst.now self.now.weights.now self.now.source ways.old.labels.items ways.old.latest.items 0 0 }
        ensures search { IsSearch self.now.inst.now self.now.weights.now self.now.source ways.new.labels.items ways.new.latest.items limit }
        ensures label_memory { vec_capacity ways.new.labels ≡ vec_capacity ways.old.labels }
        ensures node_memory { vec_capacity ways.new.latest ≡ vec_capacity ways.old.latest }
    {
        let mut from = 0;
        for done in 0..limit {
            let start = ways.labels.len();
            if from == start {
                return;
            }
            self.round(ways, from, done + 1);
            from = start;
        }
    }
}

/// How many rounds are enough: a simple path has fewer arcs than there are nodes.
pub fn enough_rounds(nodes: u32, hops: u64) -> u32
    requires { 0 < nodes }
    ensures { result ≡ min hops (nodes - 1) }
{
    if hops < u64::from(nodes) {
        hops as u32
    } else {
        nodes - 1
    }
}
