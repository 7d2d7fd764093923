//! The names of a network's nodes, links and demands.

ghost use Rattle.std.specs.Prelude.{◌≡◌};
ghost use Rattle.plan_report.specs.Reports.{node_name, link_name, demand_name};

use plan_base::{DemandId, LinkId, NodeId};
use snd_network::NetworkFile;

/// The name of a node; nothing where there is no such node.
pub fn node_name(net: &NetworkFile, id: NodeId) -> &[u8]
    ensures { result.now ≡ node_name net.now id.0 }
{
    match net.nodes.as_slice().get(id.0 as usize) {
        Some(node) => node.name.as_slice(),
        None => &[],
    }
}

/// The name of a link; nothing where there is no such link.
pub fn link_name(net: &NetworkFile, id: LinkId) -> &[u8]
    ensures { result.now ≡ link_name net.now id.0 }
{
    match net.links.as_slice().get(id.0 as usize) {
        Some(link) => link.name.as_slice(),
        None => &[],
    }
}

/// The name of a demand; nothing where there is no such demand.
pub fn demand_name(net: &NetworkFile, id: DemandId) -> &[u8]
    ensures { result.now ≡ demand_name net.now id.0 }
{
    match net.demands.as_slice().get(id.0 as usize) {
        Some(demand) => demand.name.as_slice(),
        None => &[],
    }
}
