//! Whether the names of a network are in UTF-8.

use snd_network::NetworkFile;

/// Whether these bytes are UTF-8.
fn is_utf8(bytes: &[u8]) -> bool {
    str::from_utf8(bytes).is_ok()
}

/// Whether the names of all nodes are UTF-8.
fn are_nodes_utf8(net: &NetworkFile) -> bool {
    net.nodes
        .as_slice()
        .iter()
        .all(|node| is_utf8(node.name.as_slice()))
}

/// Whether the names of all links are UTF-8.
fn are_links_utf8(net: &NetworkFile) -> bool {
    net.links
        .as_slice()
        .iter()
        .all(|link| is_utf8(link.name.as_slice()))
}

/// Whether the names of all demands are UTF-8.
fn are_demands_utf8(net: &NetworkFile) -> bool {
    net.demands
        .as_slice()
        .iter()
        .all(|demand| is_utf8(demand.name.as_slice()))
}

/// Whether the names of all nodes, links and demands are UTF-8.
pub fn are_utf8(net: &NetworkFile) -> bool {
    are_nodes_utf8(net) && are_links_utf8(net) && are_demands_utf8(net)
}
