//! A region of a search by load splits, and what is known of it.

use link_steps::Ranges;
use plan_base::Prices;

/// A node: for each place the loads that it may carry, and the numbers that an ascent begins with.
#[derive(Debug, Drop)]
pub(crate) struct Node {
    pub(crate) ranges: Ranges,
    pub(crate) numbers: Prices,
    /// The bound of the node above, in cost grains.
    pub(crate) bound: i128,
}

/// The node of least bound, the last of equal ones.
pub(crate) fn next_of(nodes: &[Node]) -> Option<usize> {
    let mut least: Option<i128> = None;
    let mut next = None;
    for (number, node) in nodes.iter().enumerate() {
        if least.is_none_or(|bound| node.bound <= bound) {
            least = Some(node.bound);
            next = Some(number);
        }
    }
    next
}
