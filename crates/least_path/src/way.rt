//! What a search answers, read from its labels.

ghost use Rattle.std.specs.Prelude.{◌≡◌, map, IfOk, Some, IsSome};
ghost use Rattle.plan_base.specs.Facts.{IsInstance};
ghost use Rattle.least_path.specs.Paths.{IsFound};
ghost use Rattle.least_path.specs.Labels.{IsSearch, IsNearest, label_at, way, is_labelled, potential_of};

use crate::answer::Search;
use crate::label::{Label, Stop};
use crate::spread::Query;
use crate::weigher::Weigher;
use plan_base::{ArcId, Items, NodeId, Path};
use std::alloc::{AllocError, Global};

/// The label of a node that has one.
fn label_of(labels: &[Option<Label>], node: NodeId) -> Label
    requires { IsSome (label_at labels.now node.0) }
    ensures { label_at labels.now node.0 ≡ Some result }
{
    labels[node.0 as usize].unwrap()
}

/// The potential of a node with this label, where the target's length is this.
fn potential(known: Option<Label>, length: u128) -> u128
    ensures { result ≡ potential_of length known }
{
    match known {
        Some(label) => label.length.min(length),
        None => length,
    }
}

/// The potentials of all nodes, where the target's length is this.
pub fn potentials(
    alloc: Global,
    labels: &[Option<Label>],
    length: u128,
) -> Result<Items<u128>, AllocError>
    ensures { IfOk result (λ potentials. potentials ≡ map (potential_of length) labels.now) }
{
    let potentials = labels
        .iter()
        .map(|known| potential(*known, length))
        .collect(alloc)?;
    Ok(Items::from_vec(potentials))
}

/// Whether the node of this label is reached.
fn is_reached(known: Option<Label>) -> bool
    ensures { result ≡ is_labelled known }
{
    known.is_some()
}

/// For each node whether it is reached.
pub fn reached_nodes(alloc: Global, labels: &[Option<Label>]) -> Result<Items<bool>, AllocError>
    ensures { IfOk result (λ reached. reached ≡ map is_labelled labels.now) }
{
    let reached = labels
        .iter()
        .map(|known| is_reached(*known))
        .collect(alloc)?;
    Ok(Items::from_vec(reached))
}

impl<W: Weigher> Query<'_, W> {
    /// The way of the label, in the memory of these arcs.
    pub fn way_to(
        &self,
        labels: &[Option<Label>],
        last: &Stop,
        memory: Vec<ArcId>,
    ) -> Result<Path, AllocError>
        requires search { IsSearch self.now.inst.now (W.weights self.now.weigher.now) self.now.limit self.now.source self.now.target labels.now }
        requires last { label_at labels.now last.now.node.0 ≡ Some last.now.label }
        ensures { IfOk result (λ path. path ≡ way self.now.inst.now labels.now last.now.label.steps last.now.label) }
    {
        let mut arcs = memory;
        arcs.clear();
        let mut here = last.label;
        while here.steps > 0 {
            arcs.push(here.via)?;
            here = label_of(labels, self.inst.tail(here.via));
        }
        arcs.reverse();
        Ok(Path::from_vec(arcs))
    }

    /// The answer, where the target is the nearest node.
    pub fn path_found(
        &self,
        alloc: Global,
        labels: &[Option<Label>],
        last: &Stop,
    ) -> Result<Search, AllocError>
        requires lawful { IsInstance self.now.inst.now }
        requires search { IsSearch self.now.inst.now (W.weights self.now.weigher.now) self.now.limit self.now.source self.now.target labels.now }
        requires nearest { IsNearest labels.now last.now }
        requires at_target { last.now.node.0 ≡ self.now.target.0 }
        ensures { IfOk result (IsFound self.now.inst.now (W.weights self.now.weigher.now) self.now.source self.now.target) }
    {
        Ok(Search::Path {
            path: self.way_to(labels, last, Vec::new(alloc))?,
            length: last.label.length,
            potentials: potentials(alloc, labels, last.label.length)?,
        })
    }
}
