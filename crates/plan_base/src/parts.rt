//! What an instance is built of.

ghost use Rattle.std.specs.Prelude.{◌≡◌, ◌↔◌, IfOk, IsTrue};
ghost use Rattle.plan_base.specs.Arcs.{goes_back};
ghost use Rattle.plan_base.specs.Places.{is_two_way};
ghost use Rattle.plan_base.specs.Designs.{KeepsLimit};

use crate::ids::NodeId;
use base_items::Items;
use std::alloc::AllocError;

/// Whether links and demands have a direction.
#[derive(Clone, Copy, Debug, PartialEq, Eq)]
pub enum Orient {
    /// Flow goes from a link's source to its target only.
    Directed,
    /// Flow goes both ways, and both share one capacity.
    Undirected,
    /// Flow goes both ways, and each way has the link's capacity for itself.
    Bidirected,
}

impl Orient {
    /// Whether links may be used against their direction.
    pub fn goes_back(self) -> bool
        ensures { result ≡ goes_back self }
    {
        match self {
            Orient::Directed => false,
            Orient::Undirected | Orient::Bidirected => true,
        }
    }

    /// Whether each direction of a link has a capacity and a price of its own.
    pub fn is_two_way(self) -> bool
        ensures { result ≡ is_two_way self }
    {
        match self {
            Orient::Directed | Orient::Undirected => false,
            Orient::Bidirected => true,
        }
    }
}

/// Which counts of a link's modules are lawful.
#[derive(Clone, Copy, Debug, PartialEq, Eq)]
pub enum CountLaw {
    /// Any whole counts.
    Any,
    /// Counts of a link that add to at most one: one module of its list, or none.
    AtMostOne,
}

/// A capacity that may be installed as often as the instance's law allows, at a cost each time.
#[derive(Clone, Copy, Debug, PartialEq, Eq)]
pub struct Module {
    /// In load grains.
    pub capacity: u64,
    /// In cost grains.
    pub cost: u128,
}

/// A link between two nodes, and what may be installed on it.
#[derive(Debug, Drop)]
pub struct Link {
    pub source: NodeId,
    pub target: NodeId,
    /// The pre-installed capacity, in load grains.
    pub pre: u64,
    /// The routing cost, in cost grains per load grain.
    pub routing: u64,
    pub modules: Items<Module>,
}

impl Link {
    /// The same link.
    ///
    /// - Errors: want of memory alone.
    /// - Time: linear in the modules.
    pub fn copy(&self) -> Result<Link, AllocError>
        ensures { IfOk result (λ link. link ≡ self.now) }
    {
        Ok(Link {
            source: self.source,
            target: self.target,
            pre: self.pre,
            routing: self.routing,
            modules: self.modules.copy()?,
        })
    }
}

/// A load that goes from one node to another on one path, perhaps of at most so many arcs.
#[derive(Clone, Copy, Debug, PartialEq, Eq)]
pub struct Demand {
    pub source: NodeId,
    pub target: NodeId,
    /// In load grains.
    pub load: u128,
    /// The most arcs that its path may have; None: any number.
    pub hops: Option<u64>,
}

impl Demand {
    /// Whether a path of so many arcs keeps the demand's limit.
    ///
    /// - Rule: docs/DEFINITIONS.md, "Designs".
    /// - Time: constant.
    pub fn keeps_limit(&self, arcs: usize) -> bool
        ensures { IsTrue result ↔ KeepsLimit self.now.hops arcs }
    {
        match self.hops {
            Some(limit) => arcs as u64 <= limit,
            None => true,
        }
    }
}

/// What an instance is built of. Nothing is asked of it.
#[derive(Debug, Drop)]
pub struct Parts {
    pub orient: Orient,
    /// Which counts of modules are lawful.
    pub law: CountLaw,
    /// The count of nodes.
    pub nodes: u32,
    pub links: Items<Link>,
    pub demands: Items<Demand>,
}

impl Parts {
    /// The same parts.
    ///
    /// - Errors: want of memory alone.
    /// - Time: linear in links, modules and demands.
    pub fn copy(&self) -> Result<Parts, AllocError>
        ensures { IfOk result (λ parts. parts ≡ self.now) }
    {
        Ok(Parts {
            orient: self.orient,
            law: self.law,
            nodes: self.nodes,
            links: copy_links(&self.links)?,
            demands: self.demands.copy()?,
        })
    }
}

/// The same links.
fn copy_links(links: &Items<Link>) -> Result<Items<Link>, AllocError>
    ensures { IfOk result (λ copy. copy ≡ links.now) }
{
    let mut copy = links.empty_vec();
    for link in links.as_slice() {
        copy.push(link.copy()?)?;
    }
    Ok(Items::from_vec(copy))
}
