//! A search from one node over the arcs that may be taken.

ghost use Rattle.std.specs.Prelude.{◌≡◌, ◌<◌, IsTrue, ℕ, ◌+◌, true, false, Bool, List, [], length, vec_len, slice_set, IfOk, OnOk};
ghost use Rattle.plan_base.specs.declared.ids.NodeId.{NodeId as AnyNode};
ghost use Rattle.plan_base.specs.Arcs.{is_arc};
ghost use Rattle.plan_base.specs.Paths.{arc_at};
ghost use Rattle.arc_restrict.specs.Rows.{forbids};
ghost use Rattle.second_path.specs.Ways.{may_take};
ghost use Rattle.second_path.specs.Others.{holds};
ghost use Rattle.second_path.specs.Searching.{IsArrival, IsVisit, IsSpentTo, IsWhole, HasRoom};

use crate::ways::Ways;
use plan_base::{ArcId, Instance, Items, NodeId};
use std::alloc::{AllocError, Global};

/// A search over nodes, by the arcs that led to them.
#[derive(Drop)]
pub(crate) struct Search {
    /// For each node whether a search may not enter it.
    pub(crate) blocked: Vec<bool>,
    /// For each node whether it is blocked or was met.
    pub(crate) met: Vec<bool>,
    /// The arcs that led to new nodes, in the order of time.
    pub(crate) arrivals: Vec<ArcId>,
}

impl Search {
    /// Room for a search.
    pub(crate) fn new(alloc: Global, inst: &Instance) -> Result<Search, AllocError>
        ensures { IfOk result (HasRoom inst.now.nodes) }
    {
        let nodes = inst.nodes() as usize;
        Ok(Search {
            blocked: vec![in alloc; false; nodes]?,
            met: vec![in alloc; false; nodes]?,
            arrivals: Vec::with_capacity(alloc, nodes)?,
        })
    }

    /// Blocks no node.
    pub(crate) fn unblock(&mut self)
        ensures free { (v : ℕ) → holds self.new.blocked.items v ≡ false }
        ensures len { vec_len self.new.blocked ≡ vec_len self.old.blocked }
        ensures met { self.new.met ≡ self.old.met }
    {
        self.blocked.as_mut_slice().fill(false);
    }

    /// Blocks the node.
    pub(crate) fn block(&mut self, node: NodeId)
        requires { node.0 < vec_len self.old.blocked }
        ensures value { self.new.blocked.items ≡ slice_set self.old.blocked.items node.0 true }
        ensures len { vec_len self.new.blocked ≡ vec_len self.old.blocked }
        ensures met { self.new.met ≡ self.old.met }
    {
        self.blocked[node.0 as usize] = true;
    }

    /// For each node whether the last search met it.
    pub(crate) fn into_met(self) -> Items<bool>
        ensures { result ≡ self.met.items }
    {
        let Search {
            blocked: _,
            met,
            arrivals: _,
        } = self;
        Items::from_vec(met)
    }

    /// Whether the last search met the node.
    pub(crate) fn has_met(&self, node: NodeId) -> bool
        requires { node.0 < vec_len self.now.met }
        ensures { result ≡ holds self.now.met.items node.0 }
    {
        self.met[node.0 as usize]
    }

    /// Goes along the arc where it may be taken and leads to a new node.
    fn arrive(&mut self, ways: &Ways, arc: ArcId) -> Result<(), AllocError>
        requires arc { IsTrue (is_arc ways.now.inst.now arc) }
        requires nodes { vec_len self.old.met ≡ ways.now.inst.now.nodes }
        ensures arrival { OnOk result (IsArrival ways.now.inst.now
            (may_take ways.now.inst.now (forbids ways.now.restriction.now) ways.now.demand.0 ways.now.left_out)
            arc self.old.met.items self.new.met.items self.old.arrivals.items self.new.arrivals.items) }
        ensures nodes { OnOk result (vec_len self.new.met ≡ ways.now.inst.now.nodes) }
        ensures blocked { self.new.blocked ≡ self.old.blocked }
    {
        if !ways.may_take(arc) {
            return Ok(());
        }
        let head = ways.inst.head(arc).0 as usize;
        if self.met[head] {
            return Ok(());
        }
        self.met[head] = true;
        self.arrivals.push(arc)?;
        Ok(())
    }

    /// Goes along each arc that leaves the node.
    #[tactic(auto, using(crate::proofs::Visits::visits))]
    fn visit(&mut self, ways: &Ways, node: NodeId) -> Result<(), AllocError>
        requires node { node.0 < ways.now.inst.now.nodes }
        requires nodes { vec_len self.old.met ≡ ways.now.inst.now.nodes }
        ensures visit { OnOk result (IsVisit ways.now.inst.now
            (may_take ways.now.inst.now (forbids ways.now.restriction.now) ways.now.demand.0 ways.now.left_out)
            node.0 self.old.met.items self.new.met.items self.old.arrivals.items self.new.arrivals.items) }
        ensures nodes { OnOk result (vec_len self.new.met ≡ ways.now.inst.now.nodes) }
        ensures blocked { self.new.blocked ≡ self.old.blocked }
    {
        for arc in ways.inst.leaving(node) {
            self.arrive(ways, *arc)?;
        }
        Ok(())
    }

    /// Takes the blocked nodes for met, and no other.
    fn reset(&mut self)
        requires { vec_len self.old.met ≡ vec_len self.old.blocked }
        ensures met { self.new.met.items ≡ self.old.blocked.items }
        ensures arrivals { self.new.arrivals.items ≡ [] }
        ensures nodes { vec_len self.new.met ≡ vec_len self.old.met }
        ensures blocked { self.new.blocked ≡ self.old.blocked }
    {
        self.met
            .as_mut_slice()
            .copy_from_slice(self.blocked.as_slice());
        self.arrivals.clear();
    }

    /// Begins a search: goes along each arc that leaves the start.
    fn begin(&mut self, ways: &Ways, start: NodeId) -> Result<(), AllocError>
        requires start { start.0 < ways.now.inst.now.nodes }
        requires room { HasRoom ways.now.inst.now.nodes self.old }
        requires start_blocked { holds self.old.blocked.items start.0 ≡ true }
        ensures spent { OnOk result (IsSpentTo ways.now.inst.now
            (may_take ways.now.inst.now (forbids ways.now.restriction.now) ways.now.demand.0 ways.now.left_out)
            self.old.blocked.items start 0 self.new.met.items self.new.arrivals.items) }
        ensures nodes { OnOk result (vec_len self.new.met ≡ ways.now.inst.now.nodes) }
        ensures blocked { self.new.blocked ≡ self.old.blocked }
    {
        self.reset();
        self.visit(ways, start)?;
        Ok(())
    }

    /// Goes along each arc that leaves the node of the arrival at this place.
    fn go_on(&mut self, ways: &Ways, place: usize) -> Result<(), AllocError>
        requires place { place < length self.old.arrivals.items }
        requires arc { IsTrue (is_arc ways.now.inst.now (arc_at self.old.arrivals.items place)) }
        requires nodes { vec_len self.old.met ≡ ways.now.inst.now.nodes }
        ensures spent { OnOk result ((first : List Bool) (start : AnyNode)
            → IsSpentTo ways.now.inst.now
            (may_take ways.now.inst.now (forbids ways.now.restriction.now) ways.now.demand.0 ways.now.left_out)
            first start place self.old.met.items self.old.arrivals.items
            → IsSpentTo ways.now.inst.now
            (may_take ways.now.inst.now (forbids ways.now.restriction.now) ways.now.demand.0 ways.now.left_out)
            first start (place + 1) self.new.met.items self.new.arrivals.items) }
        ensures nodes { OnOk result (vec_len self.new.met ≡ ways.now.inst.now.nodes) }
        ensures blocked { self.new.blocked ≡ self.old.blocked }
    {
        let node = ways.inst.head(self.arrivals[place]);
        self.visit(ways, node)?;
        Ok(())
    }

    /// Searches from the node as far as arcs lead, without entering blocked nodes.
    pub(crate) fn run(&mut self, ways: &Ways, start: NodeId) -> Result<(), AllocError>
        requires start { start.0 < ways.now.inst.now.nodes }
        requires room { HasRoom ways.now.inst.now.nodes self.old }
        requires start_blocked { holds self.old.blocked.items start.0 ≡ true }
        ensures whole { OnOk result (IsWhole ways.now.inst.now
            (may_take ways.now.inst.now (forbids ways.now.restriction.now) ways.now.demand.0 ways.now.left_out)
            self.old.blocked.items start self.new.met.items self.new.arrivals.items) }
        ensures nodes { OnOk result (vec_len self.new.met ≡ ways.now.inst.now.nodes) }
        ensures blocked { self.new.blocked ≡ self.old.blocked }
    {
        ways.inst.lawful();
        self.begin(ways, start)?;
        let mut place = 0;
        while place < self.arrivals.len() {
            self.go_on(ways, place)?;
            place += 1;
        }
        Ok(())
    }
}
