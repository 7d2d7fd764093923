//! A network, in numbers that are easy to add up: loads in tenths of a unit, costs in hundredths.

use std::fmt;

/// Modules of one kind.
#[derive(Clone, Copy)]
pub(crate) struct Module {
    /// Capacity of one module, in tenths of a unit of load.
    pub(crate) capacity: u32,
    /// Cost of one module, in hundredths of a unit of cost.
    pub(crate) cost: u32,
}

/// Where a link or a demand begins and ends.
#[derive(Clone, Copy)]
pub(crate) struct Ends {
    pub(crate) source: u32,
    pub(crate) target: u32,
}

#[derive(Drop)]
pub(crate) struct Link {
    pub(crate) ends: Ends,
    /// Pre-installed capacity, in tenths of a unit of load.
    pub(crate) pre: u32,
    /// Cost of one unit of load, in hundredths of a unit of cost.
    pub(crate) routing: u32,
    pub(crate) modules: Vec<Module>,
}

#[derive(Clone, Copy)]
pub(crate) struct Demand {
    pub(crate) ends: Ends,
    /// By which the value is multiplied.
    pub(crate) unit: u32,
    /// In tenths of a unit of load.
    pub(crate) value: u32,
    /// The most links of its path, where there is a limit.
    pub(crate) hops: Option<u32>,
}

/// Which ways links and demands go.
#[derive(Clone, Copy, PartialEq, Eq)]
pub(crate) enum Kind {
    /// From their source to their target alone.
    Directed,
    /// Both ways, which share a link's capacity.
    Undirected,
    /// Links go both ways, and each way has the link's capacity for itself.
    Bidirected,
}

/// What a network asks for besides.
#[derive(Clone, Copy, PartialEq, Eq)]
pub(crate) enum Extra {
    /// Nothing: any number of each module, and paths of any length.
    Nothing,
    /// Demands may have limits on the links of their paths.
    Limits,
    /// At most one module is installed on a link.
    Explicit,
}

#[derive(Drop)]
pub(crate) struct Network {
    pub(crate) kind: Kind,
    pub(crate) extra: Extra,
    pub(crate) nodes: u32,
    pub(crate) links: Vec<Link>,
    pub(crate) demands: Vec<Demand>,
}

impl fmt::Display for Ends {
    fn fmt<W: fmt::Write>(&self, f: &mut fmt::Formatter<W>) -> fmt::Result {
        write!(f, "( n{} n{} )", self.source, self.target)
    }
}

impl Demand {
    /// In tenths of a unit of load.
    pub(crate) fn load(self) -> u64 {
        u64::from(self.unit) * u64::from(self.value)
    }
}

impl fmt::Display for Network {
    fn fmt<W: fmt::Write>(&self, f: &mut fmt::Formatter<W>) -> fmt::Result {
        let nodes = self.nodes;
        let links = self.links.len();
        let demands = self.demands.len();
        let kind = match self.kind {
            Kind::Directed => "directed",
            Kind::Undirected => "undirected",
            Kind::Bidirected => "bidirected",
        };
        let extra = match self.extra {
            Extra::Nothing => "",
            Extra::Limits => ", hop limits",
            Extra::Explicit => ", explicit capacities",
        };
        write!(
            f,
            "nodes {nodes}, {kind} links {links}, demands {demands}{extra}"
        )
    }
}
