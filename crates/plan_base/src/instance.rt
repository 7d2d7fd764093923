//! An instance: parts that are within all limits.

ghost use Rattle.std.specs.Prelude.{◌≡◌, ◌<◌, ◌≤◌, ◌*◌, length, IfOk, IfErr, IsTrue, All};
ghost use Rattle.std.specs.Result.{result_err};
ghost use Rattle.std.specs.List.{list_any};
ghost use Rattle.plan_base.specs.First.{first_in};
ghost use Rattle.plan_base.specs.Facts.{total_load, total_load as total_load_of_parts, is_useful, greatest_capacity, useful_load, top_load, price_limit, IsLink, IsDemand, IsInstance};
ghost use Rattle.plan_base.specs.Arcs.{link_of, is_arc, link_at, demand_at, tail_of, head_of};
ghost use Rattle.plan_base.specs.Places.{places, place_of, link_of_place};
ghost use Rattle.plan_base.specs.Leaving.{AreLeaving};
ghost use Rattle.plan_base.specs.Faults.{told_of, is_large, has_large_number_of, has_end_outside, size_fault, link_fault, demand_fault, total_fault, routing_fault, build_fault, IsBuildFault};

use crate::build_fault::{BuildFault, End};
use crate::ids::{ArcId, DemandId, LinkId, NodeId};
use crate::leaving::LeavingArcs;
use crate::limits::{
    CAPACITY_BOUND, MAX_DEMANDS, MAX_LINKS, MAX_MODULES, MAX_NODES, MAX_PRICED_LOAD,
    MAX_ROUTING_COST, MAX_TOTAL_LOAD, MODULE_COST_BOUND,
};
use crate::parts::{CountLaw, Demand, Link, Module, Orient, Parts};
use std::alloc::{AllocError, Global};
use std::marker::Model;

/// A count as a fault tells it.
fn told(count: usize) -> u32
    ensures { result ≡ told_of count }
{
    u32::try_from(count).unwrap_or(u32::MAX)
}

/// Whether the counts of nodes, links and demands are within their limits.
fn check_sizes(parts: &Parts) -> Result<(), BuildFault>
    ensures { result_err result ≡ size_fault parts.now }
{
    if parts.nodes > MAX_NODES {
        return Err(BuildFault::OverLimit {
            limit: 3,
            at: parts.nodes,
        });
    }
    let links = parts.links.len();
    if links > MAX_LINKS {
        return Err(BuildFault::OverLimit {
            limit: 4,
            at: told(links),
        });
    }
    let demands = parts.demands.len();
    if demands > MAX_DEMANDS {
        return Err(BuildFault::OverLimit {
            limit: 5,
            at: told(demands),
        });
    }
    Ok(())
}

/// Whether a capacity or a cost of a module is past its bound.
fn has_large_module(modules: &[Module]) -> bool
    ensures { result ≡ list_any is_large modules.now }
{
    modules.iter().any(|module| module.capacity >= CAPACITY_BOUND
        || module.cost >= MODULE_COST_BOUND)
}

/// Whether a capacity or a cost of the link is past its bound.
fn has_large_number(link: &Link) -> bool
    ensures { result ≡ has_large_number_of link.now }
{
    link.pre >= CAPACITY_BOUND
        || link.routing >= CAPACITY_BOUND
        || has_large_module(link.modules.as_slice())
}

/// Whether one of the ends is no node.
fn is_outside(nodes: u32, source: NodeId, target: NodeId) -> bool
    ensures { result ≡ has_end_outside nodes source target }
{
    source.0 >= nodes || target.0 >= nodes
}

/// Whether the link has numbers below their bounds, and two different nodes as its ends.
#[tactic(auto, unfolding(crate::specs::Faults::link_fault))]
fn check_link(nodes: u32, id: LinkId, link: &Link) -> Result<(), BuildFault>
    ensures { result_err result ≡ link_fault nodes id.0 link.now }
{
    if link.modules.len() > MAX_MODULES {
        return Err(BuildFault::OverLimit { limit: 6, at: id.0 });
    }
    if has_large_number(link) {
        return Err(BuildFault::OverLimit {
            limit: 10,
            at: id.0,
        });
    }
    if is_outside(nodes, link.source, link.target) {
        return Err(BuildFault::EndOutOfRange {
            what: End::Link(id),
        });
    }
    if link.source == link.target {
        return Err(BuildFault::LoopLink { link: id });
    }
    Ok(())
}

/// Whether the demand has two different nodes as its ends.
#[tactic(auto, unfolding(crate::specs::Faults::demand_fault))]
fn check_demand(nodes: u32, id: DemandId, demand: &Demand) -> Result<(), BuildFault>
    ensures { result_err result ≡ demand_fault nodes id.0 demand.now }
{
    if is_outside(nodes, demand.source, demand.target) {
        return Err(BuildFault::EndOutOfRange {
            what: End::Demand(id),
        });
    }
    if demand.source == demand.target {
        return Err(BuildFault::LoopDemand { demand: id });
    }
    Ok(())
}

/// The greatest capacity of some modules, in load grains: 0 where there is none.
fn greatest_capacity(modules: &[Module]) -> u64
    ensures { result ≡ greatest_capacity modules.now }
{
    let mut most = 0;
    for module in modules {
        most = most.max(module.capacity);
    }
    most
}

/// The most load that lawful counts of a useful link may carry, up to the total load.
fn useful_load(law: CountLaw, link: &Link, total: u64) -> u64
    ensures { result ≡ useful_load law link.now total }
{
    match law {
        CountLaw::Any => total,
        CountLaw::AtMostOne => {
            let most = greatest_capacity(link.modules.as_slice());
            total.min(link.pre.saturating_add(most))
        }
    }
}

/// Whether no link has a fault.
#[tactic(auto, using(crate::proofs::FirstFault::first_faults))]
fn check_links(parts: &Parts) -> Result<(), BuildFault>
    requires { length parts.now.links ≤ MAX_LINKS }
    ensures { result_err result ≡ first_in (link_fault parts.now.nodes) parts.now.links }
{
    for (place, link) in parts.links.as_slice().iter().enumerate() {
        check_link(parts.nodes, LinkId(place as u32), link)?;
    }
    Ok(())
}

/// Whether no demand has a fault.
#[tactic(auto, using(crate::proofs::FirstFault::first_faults))]
fn check_demands(parts: &Parts) -> Result<(), BuildFault>
    requires { length parts.now.demands ≤ MAX_DEMANDS }
    ensures { result_err result ≡ first_in (demand_fault parts.now.nodes) parts.now.demands }
{
    for (place, demand) in parts.demands.as_slice().iter().enumerate() {
        check_demand(parts.nodes, DemandId(place as u32), demand)?;
    }
    Ok(())
}

/// The sum of all loads.
fn total_load_of(parts: &Parts) -> Result<u64, BuildFault>
    ensures fault { result_err result ≡ total_fault parts.now }
    ensures value { IfOk result (λ total. total ≡ total_load parts.now) }
{
    let mut total: u64 = 0;
    for demand in parts.demands.as_slice() {
        if demand.load > u128::from(MAX_TOTAL_LOAD - total) {
            return Err(BuildFault::OverLimit { limit: 7, at: 0 });
        }
        total += demand.load as u64;
    }
    Ok(total)
}

/// Whether no link costs too much with the total load on it.
#[tactic(auto, using(crate::proofs::FirstFault::first_faults))]
fn check_routing(parts: &Parts, total: u64) -> Result<(), BuildFault>
    requires link_count { length parts.now.links ≤ MAX_LINKS }
    requires total { total ≤ MAX_TOTAL_LOAD }
    requires links { All (λ l. l.routing < CAPACITY_BOUND) parts.now.links }
    ensures { result_err result ≡ first_in (routing_fault total) parts.now.links }
{
    for (place, link) in parts.links.as_slice().iter().enumerate() {
        if u128::from(link.routing) * u128::from(total) > MAX_ROUTING_COST {
            return Err(BuildFault::OverLimit {
                limit: 8,
                at: place as u32,
            });
        }
    }
    Ok(())
}

/// The total load of parts that have no fault.
#[tactic(auto, unfolding(crate::specs::Faults::build_fault))]
fn checked_total_load(parts: &Parts) -> Result<u64, BuildFault>
    ensures fault { result_err result ≡ build_fault parts.now }
    ensures value { IfOk result (λ total. total ≡ total_load parts.now) }
{
    check_sizes(parts)?;
    check_links(parts)?;
    check_demands(parts)?;
    let total = total_load_of(parts)?;
    check_routing(parts, total)?;
    Ok(total)
}

/// Parts that are within all limits.
///
/// Contracts see it as its parts. `build` is the only way to make one.
#[derive(Debug, Drop)]
pub struct Instance {
    parts: Parts,
    total_load: u64,
    leaving: LeavingArcs,
}

impl Model for Instance {
    ghost use Rattle.std.specs.Prelude.{◌≡◌};
    ghost use Rattle.plan_base.specs.declared.parts.Parts.{Parts};
    ghost use Rattle.plan_base.specs.Facts.{total_load as total_load_of_parts, IsInstance};
    ghost use Rattle.plan_base.specs.LeavingRows.{AreRows};

    ghost Value = { Parts };

    ghost view = { λ a. a.parts };

    ghost invariant = { λ a. IsInstance a.parts × (a.total_load ≡ total_load_of_parts a.parts) × AreRows a.parts a.leaving.arcs.items a.leaving.starts.items };
}

impl Instance {
    /// The instance of these parts.
    ///
    /// - Takes: where memory comes from; the parts, with loads in load grains.
    /// - Gives: an instance whose parts are these.
    /// - Errors: the first fault of the parts, in the order nodes, links, demands, each link, each
    ///   demand, total load, each link's routing cost; or want of memory, which may come in place of
    ///   any answer. The parts are spent.
    /// - Rule: docs/DEFINITIONS.md, "Instances".
    /// - Time: linear in nodes, links, modules and demands.
    #[tactic(auto, using(crate::proofs::BuildLaws::build_laws))]
    pub fn build(alloc: Global, parts: Parts) -> Result<Instance, BuildFault>
        ensures ok { IfOk result (λ _. IsInstance parts) }
        ensures value { IfOk result (λ inst. inst ≡ parts) }
        ensures fault { IfErr result (IsBuildFault parts) }
    {
        let total_load = checked_total_load(&parts)?;
        let leaving = LeavingArcs::build(alloc, &parts)?;
        Ok(Instance {
            parts,
            total_load,
            leaving,
        })
    }

    /// The same instance.
    ///
    /// - Errors: want of memory alone.
    /// - Time: linear in nodes, links, modules and demands.
    pub fn copy(&self, alloc: Global) -> Result<Instance, AllocError>
        ensures { IfOk result (λ inst. inst ≡ self.now) }
    {
        let parts = self.parts.copy()?;
        let leaving = LeavingArcs::build(alloc, &parts)?;
        Ok(Instance {
            parts,
            total_load: self.total_load,
            leaving,
        })
    }

    /// That it is an instance, for a proof that needs it. It does nothing.
    pub fn lawful(&self)
        ensures { IsInstance self.now }
    {
        let _nodes = self.parts.nodes;
    }

    /// The count of nodes.
    pub fn nodes(&self) -> u32
        ensures value { result ≡ self.now.nodes }
        ensures within { result ≤ MAX_NODES }
    {
        self.parts.nodes
    }

    /// Whether links and demands have a direction.
    pub fn orient(&self) -> Orient
        ensures { result ≡ self.now.orient }
    {
        self.parts.orient
    }

    /// The count of links.
    pub fn links(&self) -> u32
        ensures value { result ≡ length self.now.links }
        ensures lawful { IsInstance self.now }
    {
        self.parts.links.len() as u32
    }

    /// The count of demands.
    pub fn demands(&self) -> u32
        ensures value { result ≡ length self.now.demands }
        ensures lawful { IsInstance self.now }
    {
        self.parts.demands.len() as u32
    }

    /// The link of this number.
    pub fn link(&self, link: LinkId) -> &Link
        requires { link.0 < length self.now.links }
        ensures value { result.now ≡ link_at self.now link.0 }
        ensures lawful { IsLink self.now.nodes result.now }
    {
        &self.parts.links.as_slice()[link.0 as usize]
    }

    /// The demand of this number, with its load in load grains.
    pub fn demand(&self, demand: DemandId) -> &Demand
        requires { demand.0 < length self.now.demands }
        ensures value { result.now ≡ demand_at self.now demand.0 }
        ensures lawful { IsDemand self.now.nodes result.now }
    {
        &self.parts.demands.as_slice()[demand.0 as usize]
    }

    /// How many numbers of arcs there are: two for each link, of which the odd one is no arc where links may not be
    /// used against their direction.
    ///
    /// - Rule: docs/DEFINITIONS.md, "Arcs".
    pub fn arcs(&self) -> u32
        ensures value { result ≡ 2 * length self.now.links }
        ensures within { result ≤ 2 * MAX_LINKS }
        ensures lawful { IsInstance self.now }
    {
        2 * self.links()
    }

    /// The count of places, which are what has a price: the links, or where each direction has a capacity of its own
    /// twice as many.
    ///
    /// - Rule: docs/DEFINITIONS.md, "Places".
    pub fn places(&self) -> u32
        ensures value { result ≡ places self.now }
        ensures within { result ≤ 2 * MAX_LINKS }
        ensures lawful { IsInstance self.now }
    {
        let links = self.links();
        if self.parts.orient.is_two_way() {
            2 * links
        } else {
            links
        }
    }

    /// The place of an arc: its link, or where each direction has a capacity of its own the arc's number.
    ///
    /// - Rule: docs/DEFINITIONS.md, "Places".
    pub fn place(&self, arc: ArcId) -> u32
        ensures value { result ≡ place_of self.now arc }
        ensures within { link_of arc < length self.now.links → result < places self.now }
    {
        if self.parts.orient.is_two_way() {
            arc.0
        } else {
            arc.link().0
        }
    }

    /// The link of a place.
    ///
    /// - Rule: docs/DEFINITIONS.md, "Places".
    pub fn link_of_place(&self, place: u32) -> LinkId
        requires { place < places self.now }
        ensures value { result.0 ≡ link_of_place self.now place }
        ensures within { result.0 < length self.now.links }
    {
        if self.parts.orient.is_two_way() {
            LinkId(place / 2)
        } else {
            LinkId(place)
        }
    }

    /// Whether the arc exists: its link does, and it is even or links may be used against their direction.
    ///
    /// - Rule: docs/DEFINITIONS.md, "Arcs".
    pub fn is_arc(&self, arc: ArcId) -> bool
        ensures { result ≡ is_arc self.now arc }
    {
        let links = self.parts.links.len();
        ((arc.0 / 2) as usize) < links && (arc.0 % 2 == 0 || self.parts.orient.goes_back())
    }

    /// The node that the arc leaves.
    ///
    /// - Rule: docs/DEFINITIONS.md, "Arcs".
    pub fn tail(&self, arc: ArcId) -> NodeId
        requires { IsTrue (is_arc self.now arc) }
        ensures value { result ≡ tail_of self.now arc }
        ensures within { result.0 < self.now.nodes }
    {
        let link = self.link(arc.link());
        if arc.0 % 2 == 1 {
            link.target
        } else {
            link.source
        }
    }

    /// The node that the arc leads to.
    ///
    /// - Rule: docs/DEFINITIONS.md, "Arcs".
    pub fn head(&self, arc: ArcId) -> NodeId
        requires { IsTrue (is_arc self.now arc) }
        ensures value { result ≡ head_of self.now arc }
        ensures within { result.0 < self.now.nodes }
    {
        let link = self.link(arc.link());
        if arc.0 % 2 == 1 {
            link.source
        } else {
            link.target
        }
    }

    /// The arcs that leave the node, in the order of their numbers.
    ///
    /// - Gives: each of them once; an arc of either direction in an undirected instance.
    /// - Rule: docs/DEFINITIONS.md, "Arcs".
    /// - Time: constant.
    pub fn leaving(&self, node: NodeId) -> &[ArcId]
        requires { node.0 < self.now.nodes }
        ensures value { AreLeaving self.now node.0 result.now }
    {
        self.leaving.of_node(node)
    }

    /// The sum of all loads.
    ///
    /// - Gives: load grains.
    /// - Rule: docs/DEFINITIONS.md, "Instances".
    /// - Time: constant.
    pub fn total_load(&self) -> u64
        ensures value { result ≡ total_load_of_parts self.now }
        ensures within { result ≤ MAX_TOTAL_LOAD }
    {
        self.total_load
    }

    /// Whether a module of the link has capacity.
    ///
    /// - Rule: docs/DEFINITIONS.md, "Instances".
    /// - Time: linear in the link's modules.
    pub fn useful(&self, link: LinkId) -> bool
        requires { link.0 < length self.now.links }
        ensures { result ≡ is_useful (link_at self.now link.0) }
    {
        self.link(link)
            .modules
            .as_slice()
            .iter()
            .any(|module| module.capacity > 0)
    }

    /// Which counts of a link's modules are lawful.
    ///
    /// - Rule: docs/DEFINITIONS.md, "Instances".
    /// - Time: constant.
    pub fn law(&self) -> CountLaw
        ensures { result ≡ self.now.law }
    {
        self.parts.law
    }

    /// The most load that the link may ever carry: where it is useful the total load, or under the law of at most one
    /// module no more than the largest one carries with the pre-installed capacity; else at most that capacity.
    ///
    /// - Gives: load grains.
    /// - Rule: docs/DEFINITIONS.md, "Instances".
    /// - Time: linear in the link's modules.
    pub fn top_load(&self, link: LinkId) -> u64
        requires { link.0 < length self.now.links }
        ensures { result ≡ top_load self.now (link_at self.now link.0) }
    {
        if self.useful(link) {
            useful_load(self.parts.law, self.link(link), self.total_load)
        } else {
            self.total_load.min(self.link(link).pre)
        }
    }

    /// The greatest price that a link may have.
    ///
    /// - Gives: thousandths of a cost grain per load grain.
    /// - Rule: docs/DEFINITIONS.md, "Instances".
    /// - Time: constant.
    pub fn price_limit(&self) -> u128
        ensures { result ≡ price_limit self.now }
    {
        MAX_PRICED_LOAD / u128::from(self.total_load.max(1))
    }
}
