//! Ways of least weight from one node to all others.

ghost use Rattle.std.specs.Prelude.{ℕ, ◌≡◌, ◌<◌, ◌≤◌, length, IfOk, IfSome, IfNone};
ghost use Rattle.std.specs.Option.{unwrap_or};
ghost use Rattle.plan_base.specs.declared.ids.NodeId.{NodeId as AnyNode};
ghost use Rattle.plan_base.specs.declared.parts.Parts.{Parts as AnyParts};
ghost use Rattle.plan_base.specs.Facts.{IsInstance};
ghost use Rattle.least_path.specs.Paths.{Weights, AreWeights, IsLeastPath, HasNoUsablePath};
ghost use Rattle.least_path.specs.Labels.{label_at};
ghost use Rattle.least_path.specs.Trees.{IsTree, length_of_label, length_at, label_before, AreLengths, RiseAlong};

use crate::label::{Label, known_label};
use crate::spread::Query;
use crate::way::potentials;
use crate::weigher::Listed;
use plan_base::{Instance, Items, NodeId, Path};
use std::alloc::{AllocError, Global};
use std::marker::Model;

/// A way of least weight from one node, the source, to each node that usable arcs lead to.
///
/// It keeps neither the weights nor the source: its contracts say what holds where it is the tree of these.
#[derive(Debug, Drop)]
pub struct Tree {
    labels: Vec<Option<Label>>,
}

impl Model for Tree {
    ghost use Rattle.std.specs.Prelude.{List, Option};
    ghost use Rattle.least_path.specs.declared.label.Label.{Label};

    ghost Value = { List (Option Label) };

    ghost view = { λ a. a.labels.items };
}

/// The length of the way to a node with this label, 0 where it is not reached.
fn length_of(known: Option<Label>) -> u128
    ensures { result ≡ unwrap_or (length_of_label known) 0 }
{
    match known {
        Some(label) => label.length,
        None => 0,
    }
}

/// The length of the longest of the ways.
#[tactic(auto, using(crate::proofs::TreeLaws::longest_more, crate::proofs::TreeLaws::longest_all))]
fn longest(labels: &[Option<Label>]) -> u128
    ensures { (v : ℕ) → unwrap_or (length_at labels.now v) 0 ≤ result }
{
    let mut most: u128 = 0;
    for known in labels {
        most = most.max(length_of(*known));
    }
    most
}

impl Tree {
    /// The tree of a source.
    ///
    /// - Takes: weights as `search` does.
    /// - Errors: want of memory alone.
    /// - Rule: docs/METHOD.md, "Least paths".
    /// - Time: that of one `search` to the farthest node.
    pub fn grow(
        alloc: Global,
        inst: &Instance,
        weights: &[Option<u128>],
        source: NodeId,
    ) -> Result<Tree, AllocError>
        requires weights { AreWeights inst.now weights.now }
        requires source { source.0 < inst.now.nodes }
        ensures { IfOk result (IsTree inst.now weights.now source) }
    {
        prove!(weights.len() == inst.arcs() as usize);
        // No node has this number: the search goes on until no node is left.
        let outside = NodeId(inst.nodes());
        let query = Query {
            inst,
            weigher: &Listed { weights },
            source,
            target: outside,
            limit: None,
        };
        let (labels, _last) = query.reach(alloc)?;
        Ok(Tree { labels })
    }

    /// The label of the node, where it is reached.
    fn label(&self, node: NodeId) -> Option<Label>
        ensures { result ≡ label_at self.now node.0 }
    {
        known_label(&self.labels, node)
    }

    /// The label of the node that a label's last arc leaves.
    fn before(&self, inst: &Instance, label: &Label) -> Option<Label>
        ensures { result ≡ label_before inst.now self.now label.now }
    {
        if !inst.is_arc(label.via) {
            return None;
        }
        self.label(inst.tail(label.via))
    }

    /// The length of the way to a node; None where it is not reached.
    pub fn length(&self, node: NodeId) -> Option<u128>
        ensures { result ≡ length_at self.now node.0 }
    {
        match self.label(node) {
            Some(label) => Some(label.length),
            None => None,
        }
    }

    /// The lengths of the ways to all nodes: potentials that rise along each usable arc by at most its weight. A node
    /// that is not reached has the length of the longest way.
    ///
    /// - Errors: want of memory alone.
    pub fn lengths(&self, alloc: Global) -> Result<Items<u128>, AllocError>
        ensures count { IfOk result (λ lengths. length lengths ≡ length self.now) }
        ensures reached { IfOk result (AreLengths self.now) }
        ensures along { (p : AnyParts) (ws : Weights) (s : AnyNode) → IsInstance p → IsTree p ws s self.now → IfOk result (RiseAlong p ws) }
    {
        let most = longest(&self.labels);
        let lengths = potentials(alloc, &self.labels, most)?;
        Ok(lengths)
    }

    /// The way to a node; None where it is not reached.
    ///
    /// - Takes: the instance in which the tree was grown.
    /// - Errors: want of memory alone.
    /// - Time: linear in the way's arcs.
    pub fn way(
        &self,
        alloc: Global,
        inst: &Instance,
        node: NodeId,
    ) -> Result<Option<Path>, AllocError>
        ensures least { (ws : Weights) (s : AnyNode) → IsTree inst.now ws s self.now → IfOk result (λ found. IfSome found (λ path. IsLeastPath inst.now ws s node path (unwrap_or (length_at self.now node.0) 0))) }
        ensures none { (ws : Weights) (s : AnyNode) → IsTree inst.now ws s self.now → IfOk result (λ found. IfNone found (HasNoUsablePath inst.now ws s node)) }
    {
        inst.lawful();
        let Some(last) = self.label(node) else {
            return Ok(None);
        };
        let mut arcs = Vec::with_capacity(alloc, last.steps as usize)?;
        let mut here = last;
        for _ in 0..last.steps {
            arcs.push(here.via)?;
            let Some(before) = self.before(inst, &here) else {
                return Ok(None);
            };
            here = before;
        }
        arcs.reverse();
        Ok(Some(Path::from_vec(arcs)))
    }
}
