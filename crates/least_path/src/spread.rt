//! The search: nodes are settled in the order of their lengths, which a heap of those that wait tells.

ghost use Rattle.std.specs.Prelude.{◌≡◌, ◌≢◌, ◌<◌, ◌≤◌, ◌*◌, ◌↔◌, [], length, IfOk, OnOk, IfNone, IfSome, IsTrue, None};
ghost use Rattle.plan_base.specs.Facts.{IsInstance};
ghost use Rattle.plan_base.specs.Arcs.{is_arc, tail_of};
ghost use Rattle.least_path.specs.Paths.{AreWeights, IsBelow, IsFound};
ghost use Rattle.least_path.specs.Labels.{IsWanted, GoesOn, IsIdle, IsSearch, IsNearest, IsSpread, HasNoOpen, open_count, first_label_of, first_labels_of};
ghost use Rattle.least_path.specs.Waits.{AllWait, OthersWait};

use crate::answer::Search;
use crate::label::{Label, Stop, is_better, known_label};
use crate::limits::MAX_WEIGHT;
use crate::queue::{Queue, next, offer};
use crate::way::reached_nodes;
use crate::weigher::{Listed, Weigher};
use plan_base::{ArcId, Instance, NodeId};
use std::alloc::{AllocError, Global};

/// Which path is asked for.
#[derive(Clone, Copy)]
pub struct Query<'a, W> {
    pub inst: &'a Instance,
    pub weigher: &'a W,
    pub source: NodeId,
    pub target: NodeId,
    /// What the path's weight is below, where that is asked for.
    pub limit: Option<u128>,
}

/// Whether the length is below the limit, where there is one.
pub fn is_below(length: u128, limit: Option<u128>) -> bool
    ensures { IsTrue result ↔ IsBelow limit length }
{
    match limit {
        Some(most) => length < most,
        None => true,
    }
}

impl<W: Weigher> Query<'_, W> {
    /// Whether a way of this label may be part of the path that is asked for: it is below the limit, and shorter than the
    /// way that the target has.
    fn is_wanted(&self, labels: &[Option<Label>], label: &Label) -> bool
        ensures { IsTrue result ↔ IsWanted self.now.limit self.now.target labels.now label.now.length }
    {
        is_below(label.length, self.limit) && is_better(label, known_label(labels, self.target))
    }

    /// The label of the way that goes on from a node along an arc that leaves it; None where that asks for no change: the
    /// arc may not be used, its head is no farther than the node, or the way is not wanted.
    pub fn way_along(&self, labels: &[Option<Label>], here: &Stop, arc: ArcId) -> Option<Label>
        requires lawful { IsInstance self.now.inst.now }
        requires fits { W.fits self.now.weigher.now }
        requires count { length (W.weights self.now.weigher.now) ≡ 2 * length self.now.inst.now.links }
        requires labels { length labels.now ≡ self.now.inst.now.nodes }
        requires steps { here.now.label.steps < self.now.inst.now.nodes }
        requires short { here.now.label.length ≤ here.now.label.steps * MAX_WEIGHT }
        requires arc { IsTrue (is_arc self.now.inst.now arc) }
        requires tail { (tail_of self.now.inst.now arc).0 ≡ here.now.node.0 }
        ensures on { IfSome result (GoesOn self.now.inst.now (W.weights self.now.weigher.now) self.now.limit labels.now here.now arc) }
        ensures none { IfNone result (IsIdle self.now.inst.now (W.weights self.now.weigher.now) self.now.limit self.now.target labels.now here.now arc) }
    {
        if !is_better(&here.label, known_label(labels, self.inst.head(arc))) {
            return None;
        }
        let weight = self.weigher.weight(arc)?;
        let label = Label {
            length: here.label.length + weight,
            steps: here.label.steps + 1,
            via: arc,
            settled: false,
        };
        if self.is_wanted(labels, &label) {
            Some(label)
        } else {
            None
        }
    }

    /// Offers the way through a settled node to each node that a usable arc leads to.
    fn relax(
        &self,
        labels: &mut Vec<Option<Label>>,
        queue: &mut Queue,
        here: &Stop,
    ) -> Result<(), AllocError>
        requires lawful { IsInstance self.now.inst.now }
        requires fits { W.fits self.now.weigher.now }
        requires count { length (W.weights self.now.weigher.now) ≡ 2 * length self.now.inst.now.links }
        requires start { IsSpread self.now.inst.now (W.weights self.now.weigher.now) self.now.limit self.now.source self.now.target labels.old.items here.now [] 0 }
        requires waits { AllWait labels.old.items queue.old }
        ensures search { OnOk result (IsSearch self.now.inst.now (W.weights self.now.weigher.now) self.now.limit self.now.source self.now.target labels.new.items) }
        ensures open { OnOk result (open_count labels.new.items ≡ open_count labels.old.items) }
        ensures waits { OnOk result (AllWait labels.new.items queue.new) }
    {
        for arc in self.inst.leaving(here.node) {
            if let Some(label) = self.way_along(labels, here, *arc) {
                offer(labels, queue, self.inst.head(*arc), label)?;
            }
        }
        Ok(())
    }

    /// Settles the nearest node.
    fn settle(
        &self,
        labels: &mut Vec<Option<Label>>,
        queue: &mut Queue,
        here: &Stop,
    ) -> Result<(), AllocError>
        requires lawful { IsInstance self.now.inst.now }
        requires fits { W.fits self.now.weigher.now }
        requires count { length (W.weights self.now.weigher.now) ≡ 2 * length self.now.inst.now.links }
        requires search { IsSearch self.now.inst.now (W.weights self.now.weigher.now) self.now.limit self.now.source self.now.target labels.old.items }
        requires nearest { IsNearest labels.old.items here.now }
        requires other { here.now.node.0 ≢ self.now.target.0 }
        requires wait { OthersWait labels.old.items queue.old here.now.node.0 }
        ensures search { OnOk result (IsSearch self.now.inst.now (W.weights self.now.weigher.now) self.now.limit self.now.source self.now.target labels.new.items) }
        ensures fewer { OnOk result (open_count labels.new.items < open_count labels.old.items) }
        ensures waits { OnOk result (AllWait labels.new.items queue.new) }
    {
        let settled = Stop {
            node: here.node,
            label: Label {
                settled: true,
                ..here.label
            },
        };
        labels[here.node.0 as usize] = Some(settled.label);
        self.relax(labels, queue, &settled)?;
        Ok(())
    }

    /// Settles one node after the other, until the target is the nearest one; None where no node is left before it is.
    pub fn go_out(
        &self,
        labels: &mut Vec<Option<Label>>,
        queue: &mut Queue,
    ) -> Result<Option<Stop>, AllocError>
        requires lawful { IsInstance self.now.inst.now }
        requires fits { W.fits self.now.weigher.now }
        requires count { length (W.weights self.now.weigher.now) ≡ 2 * length self.now.inst.now.links }
        requires search { IsSearch self.now.inst.now (W.weights self.now.weigher.now) self.now.limit self.now.source self.now.target labels.old.items }
        requires waits { AllWait labels.old.items queue.old }
        ensures search { OnOk result (IsSearch self.now.inst.now (W.weights self.now.weigher.now) self.now.limit self.now.source self.now.target labels.new.items) }
        ensures nearest { IfOk result (λ found. IfSome found (IsNearest labels.new.items)) }
        ensures at_target { IfOk result (λ found. IfSome found (λ last. last.node.0 ≡ self.now.target.0)) }
        ensures none { IfOk result (λ found. IfNone found (HasNoOpen labels.new.items)) }
    {
        while let Some(here) = next(labels, queue) {
            if here.node == self.target {
                return Ok(Some(here));
            }
            self.settle(labels, queue, &here)?;
        }
        Ok(None)
    }

    /// The labels of a search that went on until the target was the nearest node, and that node; or until no node was
    /// left, and None.
    pub fn reach(&self, alloc: Global) -> Result<(Vec<Option<Label>>, Option<Stop>), AllocError>
        requires fits { W.fits self.now.weigher.now }
        requires count { length (W.weights self.now.weigher.now) ≡ 2 * length self.now.inst.now.links }
        requires lawful { IsInstance self.now.inst.now }
        requires source { self.now.source.0 < self.now.inst.now.nodes }
        requires unlimited { self.now.limit ≡ None }
        ensures search { IfOk result (λ out. IsSearch self.now.inst.now (W.weights self.now.weigher.now) self.now.limit self.now.source self.now.target out.0.items) }
        ensures nearest { IfOk result (λ out. IfSome out.1 (IsNearest out.0.items)) }
        ensures at_target { IfOk result (λ out. IfSome out.1 (λ last. last.node.0 ≡ self.now.target.0)) }
        ensures none { IfOk result (λ out. IfNone out.1 (HasNoOpen out.0.items)) }
    {
        let mut labels = Vec::new(alloc);
        let mut queue = Queue::with_room(alloc, most_waits(self.inst))?;
        begin(&mut labels, &mut queue, self.inst.nodes(), self.source)?;
        let found = self.go_out(&mut labels, &mut queue)?;
        Ok((labels, found))
    }

    /// The answer, where the target is the nearest node, or no node is left.
    pub fn told(
        &self,
        alloc: Global,
        labels: &[Option<Label>],
        found: Option<Stop>,
    ) -> Result<Search, AllocError>
        requires lawful { IsInstance self.now.inst.now }
        requires target { self.now.target.0 < self.now.inst.now.nodes }
        requires unlimited { self.now.limit ≡ None }
        requires search { IsSearch self.now.inst.now (W.weights self.now.weigher.now) self.now.limit self.now.source self.now.target labels.now }
        requires nearest { IfSome found (IsNearest labels.now) }
        requires at_target { IfSome found (λ last. last.node.0 ≡ self.now.target.0) }
        requires none { IfNone found (HasNoOpen labels.now) }
        ensures { IfOk result (IsFound self.now.inst.now (W.weights self.now.weigher.now) self.now.source self.now.target) }
    {
        match found {
            Some(last) => self.path_found(alloc, labels, &last),
            None => Ok(Search::NoPath {
                reached: reached_nodes(alloc, labels)?,
            }),
        }
    }

    /// The answer.
    fn answer(&self, alloc: Global) -> Result<Search, AllocError>
        requires fits { W.fits self.now.weigher.now }
        requires count { length (W.weights self.now.weigher.now) ≡ 2 * length self.now.inst.now.links }
        requires lawful { IsInstance self.now.inst.now }
        requires source { self.now.source.0 < self.now.inst.now.nodes }
        requires target { self.now.target.0 < self.now.inst.now.nodes }
        requires unlimited { self.now.limit ≡ None }
        ensures { IfOk result (IsFound self.now.inst.now (W.weights self.now.weigher.now) self.now.source self.now.target) }
    {
        let (labels, found) = self.reach(alloc)?;
        self.told(alloc, &labels, found)
    }
}

/// How many nodes wait at most: the source, and one for each arc.
pub fn most_waits(inst: &Instance) -> usize {
    inst.arcs() as usize + 1
}

/// The label of the source.
fn first_label() -> Label
    ensures { result ≡ first_label_of }
{
    Label {
        length: 0,
        steps: 0,
        via: ArcId(0),
        settled: false,
    }
}

/// Sets the labels to those before the first node is settled: the source alone is reached.
pub fn set_first(
    labels: &mut Vec<Option<Label>>,
    nodes: u32,
    source: NodeId,
) -> Result<(), AllocError>
    requires { source.0 < nodes }
    ensures { OnOk result (labels.new.items ≡ first_labels_of nodes source.0) }
{
    labels.clear();
    labels.resize(nodes as usize, None)?;
    labels[source.0 as usize] = Some(first_label());
    Ok(())
}

/// The labels before the first node is settled.
pub fn first_labels(
    alloc: Global,
    nodes: u32,
    source: NodeId,
) -> Result<Vec<Option<Label>>, AllocError>
    requires { source.0 < nodes }
    ensures { IfOk result (λ labels. labels.items ≡ first_labels_of nodes source.0) }
{
    let mut labels = Vec::new(alloc);
    set_first(&mut labels, nodes, source)?;
    Ok(labels)
}

/// Sets labels and queue to those before the first node is settled: the source alone is reached, and waits.
pub fn begin(
    labels: &mut Vec<Option<Label>>,
    queue: &mut Queue,
    nodes: u32,
    source: NodeId,
) -> Result<(), AllocError>
    requires { source.0 < nodes }
    ensures labels { OnOk result (labels.new.items ≡ first_labels_of nodes source.0) }
    ensures waits { OnOk result (AllWait labels.new.items queue.new) }
{
    set_first(labels, nodes, source)?;
    queue.clear();
    queue.push(0, source)?;
    Ok(())
}

/// A path of least weight from the source to the target, or the nodes that are reached.
///
/// - Takes: for each arc number, twice the count of links, the weight of that arc; none where the arc
///   may not be used. Weights have the unit that the caller gives them. An arc that does not exist is not used.
/// - Gives: the path, its weight and potentials that show that none is lighter; or the nodes that are
///   reached, exactly where usable arcs do not lead to the target.
/// - Errors: want of memory alone.
/// - Rule: docs/METHOD.md, "Least paths".
/// - Time: the count of arcs times the logarithm of that count, at most, and linear in nodes.
pub fn search(
    alloc: Global,
    inst: &Instance,
    weights: &[Option<u128>],
    source: NodeId,
    target: NodeId,
) -> Result<Search, AllocError>
    requires weights { AreWeights inst.now weights.now }
    requires source { source.0 < inst.now.nodes }
    requires target { target.0 < inst.now.nodes }
    ensures found { IfOk result (IsFound inst.now weights.now source target) }
{
    prove!(weights.len() == inst.arcs() as usize);
    let query = Query {
        inst,
        weigher: &Listed { weights },
        source,
        target,
        limit: None,
    };
    query.answer(alloc)
}
