//! What a search knows of each node.

ghost use Rattle.std.specs.Prelude.{◌≡◌, ◌<◌, ◌≤◌, length, MatchOption};
ghost use Rattle.plan_base.specs.declared.limits.TheConstants.{MAX_NODES};
ghost use Rattle.least_path.specs.Labels.{label_at, is_better, offered, is_nearer_than, nearer_of, HasNoOpen, IsNearest};

use plan_base::{ArcId, NodeId};

/// A way from the source to a node.
#[derive(Clone, Copy, Debug)]
pub struct Label {
    /// The sum of its weights.
    pub length: u128,
    /// How many arcs it has.
    pub steps: u32,
    /// Its last arc, where it has one.
    pub via: ArcId,
    /// Whether the search has gone on from the node, so that no shorter way is to come.
    pub settled: bool,
}

/// A node and its label.
#[derive(Clone, Copy, Debug)]
pub struct Stop {
    pub node: NodeId,
    pub label: Label,
}

/// Whether the label is not settled, and nearer than what was found.
fn is_nearer(label: &Label, found: Option<Stop>) -> bool
    ensures { result ≡ is_nearer_than label.now found }
{
    match found {
        Some(stop) => !label.settled && label.length < stop.label.length,
        None => !label.settled,
    }
}

/// The nearer of what was found and this node, where it is not settled.
#[tactic(auto, unfolding(crate::specs::Labels::nearer_with))]
fn nearer(found: Option<Stop>, node: NodeId, known: Option<Label>) -> Option<Stop>
    ensures { result ≡ nearer_of found node known }
{
    let Some(label) = known else {
        return found;
    };
    if is_nearer(&label, found) {
        Some(Stop { node, label })
    } else {
        found
    }
}

/// The node of least length that is not settled.
pub fn nearest(labels: &[Option<Label>]) -> Option<Stop>
    requires { length labels.now ≤ MAX_NODES }
    ensures { MatchOption result (HasNoOpen labels.now) (λ stop. IsNearest labels.now stop) }
{
    let mut found = None;
    for (place, known) in labels.iter().enumerate() {
        found = nearer(found, NodeId(place as u32), *known);
    }
    found
}

/// The label of the node, where it is reached.
pub fn known_label(labels: &[Option<Label>], node: NodeId) -> Option<Label>
    ensures { result ≡ label_at labels.now node.0 }
{
    match labels.get(node.0 as usize) {
        Some(known) => *known,
        None => None,
    }
}

/// Whether the label is shorter than what is known.
pub fn is_better(label: &Label, known: Option<Label>) -> bool
    ensures { result ≡ is_better label.now known }
{
    match known {
        Some(old) => label.length < old.length,
        None => true,
    }
}

/// Takes the label for the node where it is shorter than what is known.
pub fn offer(labels: &mut Vec<Option<Label>>, node: NodeId, label: Label)
    requires { node.0 < length labels.old.items }
    ensures { labels.new.items ≡ offered labels.old.items node.0 label }
{
    if is_better(&label, labels[node.0 as usize]) {
        labels[node.0 as usize] = Some(label);
    }
}
