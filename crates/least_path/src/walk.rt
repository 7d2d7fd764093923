//! The search by a walk over all nodes for the nearest one: plain, and slower on large networks.

ghost use Rattle.std.specs.Prelude.{◌≡◌, ◌≢◌, ◌<◌, ◌*◌, [], length, IfOk, IfNone, IfSome, None};
ghost use Rattle.plan_base.specs.Facts.{IsInstance};
ghost use Rattle.least_path.specs.Paths.{AreWeights, IsFound};
ghost use Rattle.least_path.specs.Labels.{IsSearch, IsNearest, IsSpread, HasNoOpen, open_count};

use crate::answer::Search;
use crate::label::{Label, Stop, nearest, offer};
use crate::spread::{Query, first_labels};
use crate::weigher::{Listed, Weigher};
use plan_base::{Instance, NodeId};
use std::alloc::{AllocError, Global};

impl<W: Weigher> Query<'_, W> {
    /// Offers the way through a settled node to each node that a usable arc leads to.
    fn relax_slow(&self, labels: &mut Vec<Option<Label>>, here: &Stop)
        requires lawful { IsInstance self.now.inst.now }
        requires fits { W.fits self.now.weigher.now }
        requires count { length (W.weights self.now.weigher.now) ≡ 2 * length self.now.inst.now.links }
        requires start { IsSpread self.now.inst.now (W.weights self.now.weigher.now) self.now.limit self.now.source self.now.target labels.old.items here.now [] 0 }
        ensures search { IsSearch self.now.inst.now (W.weights self.now.weigher.now) self.now.limit self.now.source self.now.target labels.new.items }
        ensures open { open_count labels.new.items ≡ open_count labels.old.items }
    {
        for arc in self.inst.leaving(here.node) {
            if let Some(label) = self.way_along(labels, here, *arc) {
                offer(labels, self.inst.head(*arc), label);
            }
        }
    }

    /// Settles the nearest node.
    fn settle_slow(&self, labels: &mut Vec<Option<Label>>, here: &Stop)
        requires lawful { IsInstance self.now.inst.now }
        requires fits { W.fits self.now.weigher.now }
        requires count { length (W.weights self.now.weigher.now) ≡ 2 * length self.now.inst.now.links }
        requires search { IsSearch self.now.inst.now (W.weights self.now.weigher.now) self.now.limit self.now.source self.now.target labels.old.items }
        requires nearest { IsNearest labels.old.items here.now }
        requires other { here.now.node.0 ≢ self.now.target.0 }
        ensures search { IsSearch self.now.inst.now (W.weights self.now.weigher.now) self.now.limit self.now.source self.now.target labels.new.items }
        ensures fewer { open_count labels.new.items < open_count labels.old.items }
    {
        let settled = Stop {
            node: here.node,
            label: Label {
                settled: true,
                ..here.label
            },
        };
        labels[here.node.0 as usize] = Some(settled.label);
        self.relax_slow(labels, &settled);
    }

    /// Settles one node after the other, until the target is the nearest one; None where no node is left before it is.
    fn go_out_slow(&self, labels: &mut Vec<Option<Label>>) -> Option<Stop>
        requires lawful { IsInstance self.now.inst.now }
        requires fits { W.fits self.now.weigher.now }
        requires count { length (W.weights self.now.weigher.now) ≡ 2 * length self.now.inst.now.links }
        requires search { IsSearch self.now.inst.now (W.weights self.now.weigher.now) self.now.limit self.now.source self.now.target labels.old.items }
        ensures search { IsSearch self.now.inst.now (W.weights self.now.weigher.now) self.now.limit self.now.source self.now.target labels.new.items }
        ensures nearest { IfSome result (IsNearest labels.new.items) }
        ensures at_target { IfSome result (λ last. last.node.0 ≡ self.now.target.0) }
        ensures none { IfNone result (HasNoOpen labels.new.items) }
    {
        while let Some(here) = nearest(labels) {
            if here.node == self.target {
                return Some(here);
            }
            self.settle_slow(labels, &here);
        }
        None
    }

    /// The answer.
    fn answer_slow(&self, alloc: Global) -> Result<Search, AllocError>
        requires fits { W.fits self.now.weigher.now }
        requires count { length (W.weights self.now.weigher.now) ≡ 2 * length self.now.inst.now.links }
        requires lawful { IsInstance self.now.inst.now }
        requires source { self.now.source.0 < self.now.inst.now.nodes }
        requires target { self.now.target.0 < self.now.inst.now.nodes }
        requires unlimited { self.now.limit ≡ None }
        ensures { IfOk result (IsFound self.now.inst.now (W.weights self.now.weigher.now) self.now.source self.now.target) }
    {
        let mut labels = first_labels(alloc, self.inst.nodes(), self.source)?;
        let last = self.go_out_slow(&mut labels);
        self.told(alloc, &labels, last)
    }
}

/// The same as `search`, by a walk over all nodes for each one that is settled.
///
/// - Errors: want of memory alone.
/// - Rule: docs/METHOD.md, "Least paths".
/// - Time: the square of the count of nodes, and linear in arcs.
pub fn search_slow(
    alloc: Global,
    inst: &Instance,
    weights: &[Option<u128>],
    source: NodeId,
    target: NodeId,
) -> Result<Search, AllocError>
    requires weights { AreWeights inst.now weights.now }
    requires source { source.0 < inst.now.nodes }
    requires target { target.0 < inst.now.nodes }
    ensures found { IfOk result (IsFound inst.now weights.now source target) }
{
    prove!(weights.len() == inst.arcs() as usize);
    let query = Query {
        inst,
        weigher: &Listed { weights },
        source,
        target,
        limit: None,
    };
    query.answer_slow(alloc)
}
