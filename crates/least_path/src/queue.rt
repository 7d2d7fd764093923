//! The nodes that wait to be settled, the nearest first.

ghost use Rattle.std.specs.Prelude.{◌≡◌, ◌<◌, ◌≤◌, ◌∷◌, [], length, All, IfOk, OnOk, IfSome, IfNone, OnSome, MatchOption, IsPermutation};
ghost use Rattle.least_path.specs.Labels.{HasNoOpen, IsNearest, offered};
ghost use Rattle.least_path.specs.Waits.{waits, AllWait, OthersWait, IsFresh, IsStale};

use crate::label::{Label, Stop, is_better};
use plan_base::NodeId;
use std::alloc::{AllocError, Global};
use std::cmp::Reverse;
use std::collections::BinaryHeap;
use std::marker::Model;

/// A node that waits, with the length of a way to it.
#[derive(Clone, Copy, Debug, PartialEq, Eq, PartialOrd, Ord)]
pub struct Waiting {
    pub length: u128,
    pub node: NodeId,
}

/// The nodes that wait, each as often as a shorter way to it was found.
#[derive(Debug, Drop)]
pub struct Queue {
    heap: BinaryHeap<Reverse<Waiting>>,
}

impl Model for Queue {
    ghost use Rattle.std.specs.Prelude.{List};
    ghost use Rattle.std.specs.BinaryHeap.{IsHeap, heap_items};
    ghost use Rattle.least_path.specs.Waits.{Waiter, nearer_first};

    ghost Value = { List Waiter };

    ghost view = { λ a. heap_items a.heap };

    ghost invariant = { λ a. IsHeap nearer_first (heap_items a.heap) };
}

impl Queue {
    /// No node waits; there is room for so many.
    pub fn with_room(alloc: Global, count: usize) -> Result<Queue, AllocError>
        ensures { IfOk result (λ queue. queue ≡ []) }
    {
        Ok(Queue {
            heap: BinaryHeap::with_capacity(alloc, count)?,
        })
    }

    /// No node waits any more.
    pub fn clear(&mut self)
        ensures { self.new ≡ [] }
    {
        self.heap.clear();
    }

    /// The node waits with this length.
    pub fn push(&mut self, length: u128, node: NodeId) -> Result<(), AllocError>
        ensures { OnOk result (IsPermutation (waits node.0 length ∷ self.old) self.new) }
    {
        self.heap.push(Reverse(Waiting { length, node }))?;
        Ok(())
    }

    /// The nearest one stops waiting: of equally near ones the one of lowest number.
    pub fn pop(&mut self) -> Option<Waiting>
        ensures none { IfNone result (self.old ≡ []) }
        ensures taken { IfSome result (λ first. IsPermutation self.old (waits first.node.0 first.length ∷ self.new)) }
        ensures least { IfSome result (λ first. All (λ other. first.length ≤ other.0.length) self.old) }
        ensures fewer { OnSome result (length self.new < length self.old) }
    {
        let Reverse(first) = self.heap.pop()?;
        Some(first)
    }
}

/// The label of a node that waited, where it is not settled and no shorter way was found since.
fn fresh(labels: &[Option<Label>], first: Waiting) -> Option<Label>
    ensures fresh { IfSome result (λ label. IsFresh labels.now first label) }
    ensures stale { IfNone result (IsStale labels.now first) }
{
    let Some(Some(label)) = labels.get(first.node.0 as usize) else {
        return None;
    };
    if label.settled || label.length != first.length {
        return None;
    }
    Some(*label)
}

/// The node of least length that is not settled, which stops waiting. What waited with an older length is passed over.
pub fn next(labels: &[Option<Label>], queue: &mut Queue) -> Option<Stop>
    requires { AllWait labels.now queue.old }
    ensures nearest { MatchOption result (HasNoOpen labels.now) (λ stop. IsNearest labels.now stop) }
    ensures others { IfSome result (λ stop. OthersWait labels.now queue.new stop.node.0) }
{
    while let Some(first) = queue.pop() {
        if let Some(label) = fresh(labels, first) {
            return Some(Stop {
                node: first.node,
                label,
            });
        }
    }
    None
}

/// Takes the label for the node where it is shorter than what is known, and lets the node wait with its length.
pub fn offer(
    labels: &mut Vec<Option<Label>>,
    queue: &mut Queue,
    node: NodeId,
    label: Label,
) -> Result<(), AllocError>
    requires within { node.0 < length labels.old.items }
    requires waits { AllWait labels.old.items queue.old }
    ensures labels { OnOk result (labels.new.items ≡ offered labels.old.items node.0 label) }
    ensures waits { OnOk result (AllWait labels.new.items queue.new) }
{
    if is_better(&label, labels[node.0 as usize]) {
        labels[node.0 as usize] = Some(label);
        queue.push(label.length, node)?;
    }
    Ok(())
}
