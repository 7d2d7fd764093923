//! The ways that a search has found.

ghost use Rattle.std.specs.Prelude.{◌≡◌, ◌<◌, ◌≤◌, ◌*◌, [], length, replicate, None, Some, IsOk, IfOk, OnOk, IfSome, vec_capacity};
ghost use Rattle.plan_base.specs.declared.limits.TheConstants.{MAX_NODES};
ghost use Rattle.limited_path.specs.Labels.{label_at, latest_at, written, place_beside, place_of, labels_with, latest_with, first_labels_of, first_latest_of};

use crate::label::{Label, first_label};
use plan_base::NodeId;
use std::alloc::{AllocError, Global};

/// The ways that were found, each behind the one that it goes on from. Those of one node get shorter.
#[derive(Debug, Drop)]
pub struct Ways {
    pub labels: Vec<Label>,
    /// For each node the place of its latest label, where it is reached.
    pub latest: Vec<Option<usize>>,
}

/// Writes the label at the place, which may be the one behind the last.
#[tactic(auto, unfolding(crate::specs::Labels::written))]
fn write(labels: &mut Vec<Label>, place: usize, label: Label)
    requires memory { length labels.old.items ≤ place → length labels.old.items < vec_capacity labels.old }
    ensures labels { labels.new.items ≡ written labels.old.items place label }
    ensures memory { vec_capacity labels.new ≡ vec_capacity labels.old }
{
    if place < labels.len() {
        labels[place] = label;
    } else {
        labels.push_reserved(label);
    }
}

/// Where the label goes beside the latest one of its node: in its place where that is of this round, else behind all.
/// None where it is not shorter.
fn place_for(labels: &[Label], start: usize, label: &Label, latest: Option<usize>) -> Option<usize>
    requires { IfSome latest (λ place. place < length labels.now) }
    ensures { result ≡ place_beside labels.now start label.now latest }
{
    let Some(latest) = latest else {
        return Some(labels.len());
    };
    if label.length >= labels[latest].length {
        return None;
    }
    if latest < start {
        Some(labels.len())
    } else {
        Some(latest)
    }
}

/// Sets the latest places to those where none of so many nodes is reached.
fn set_unreached(latest: &mut Vec<Option<usize>>, nodes: u32)
    requires memory { nodes ≤ vec_capacity latest.old }
    ensures latest { latest.new.items ≡ replicate nodes None }
    ensures memory { vec_capacity latest.new ≡ vec_capacity latest.old }
{
    latest.clear();
    while latest.len() < nodes as usize {
        latest.push_reserved(None);
    }
}

/// How many labels a search among so many nodes writes at most.
fn most_labels(nodes: u32) -> usize
    requires { nodes ≤ MAX_NODES }
    ensures { result ≡ nodes * nodes }
{
    nodes as usize * nodes as usize
}

impl Ways {
    /// No ways, and memory for those that a search among so many nodes finds.
    pub fn with_room(alloc: Global, nodes: u32) -> Result<Ways, AllocError>
        requires { nodes ≤ MAX_NODES }
        ensures labels { IfOk result (λ ways. nodes * nodes ≤ vec_capacity ways.labels) }
        ensures latest { IfOk result (λ ways. nodes ≤ vec_capacity ways.latest) }
    {
        Ok(Ways {
            labels: Vec::with_capacity(alloc, most_labels(nodes))?,
            latest: Vec::with_capacity(alloc, nodes as usize)?,
        })
    }

    /// Takes memory where there is too little for a search among so many nodes.
    pub fn make_room(&mut self, nodes: u32) -> Result<(), AllocError>
        requires { nodes ≤ MAX_NODES }
        ensures labels { OnOk result (nodes * nodes ≤ vec_capacity self.new.labels) }
        ensures latest { OnOk result (nodes ≤ vec_capacity self.new.latest) }
        ensures memory { nodes * nodes ≤ vec_capacity self.old.labels → nodes ≤ vec_capacity self.old.latest → IsOk result }
    {
        self.labels.clear();
        self.labels.reserve(most_labels(nodes))?;
        self.latest.clear();
        self.latest.reserve(nodes as usize)?;
        Ok(())
    }

    /// Sets the ways to those before the first round: the source alone is reached.
    pub fn begin(&mut self, nodes: u32, source: NodeId)
        requires source { source.0 < nodes }
        requires label_memory { 0 < vec_capacity self.old.labels }
        requires node_memory { nodes ≤ vec_capacity self.old.latest }
        ensures labels { self.new.labels.items ≡ first_labels_of source }
        ensures latest { self.new.latest.items ≡ first_latest_of nodes source }
        ensures label_memory { vec_capacity self.new.labels ≡ vec_capacity self.old.labels }
        ensures node_memory { vec_capacity self.new.latest ≡ vec_capacity self.old.latest }
    {
        self.labels.clear();
        self.labels.push_reserved(first_label(source));
        set_unreached(&mut self.latest, nodes);
        self.latest[source.0 as usize] = Some(0);
    }

    /// Takes the label in a round whose labels begin at this place, where it is shorter than what is known of its node.
    #[tactic(auto, unfolding(crate::specs::Labels::place_of))]
    pub fn offer(&mut self, start: usize, label: Label)
        requires node { label.node.0 < length self.old.latest.items }
        requires latest { IfSome (latest_at self.old.latest.items label.node.0) (λ place. place < length self.old.labels.items) }
        requires memory { place_of self.old.labels.items self.old.latest.items start label ≡ Some (length self.old.labels.items) → length self.old.labels.items < vec_capacity self.old.labels }
        ensures labels { self.new.labels.items ≡ labels_with self.old.labels.items label (place_of self.old.labels.items self.old.latest.items start label) }
        ensures latest { self.new.latest.items ≡ latest_with self.old.latest.items label (place_of self.old.labels.items self.old.latest.items start label) }
        ensures label_memory { vec_capacity self.new.labels ≡ vec_capacity self.old.labels }
        ensures node_memory { vec_capacity self.new.latest ≡ vec_capacity self.old.latest }
    {
        let latest = self.latest[label.node.0 as usize];
        let Some(place) = place_for(&self.labels, start, &label, latest) else {
            return;
        };
        write(&mut self.labels, place, label);
        self.latest[label.node.0 as usize] = Some(place);
    }
}
