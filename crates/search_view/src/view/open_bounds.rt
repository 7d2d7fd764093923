//! The least bound of the open leaves.

ghost use Rattle.std.specs.Prelude.{◌≡◌, slice_get};
ghost use Rattle.search_nodes.specs.Records.{children_by};
ghost use Rattle.search_view.specs.OpenBounds.{lacks_bound, child_lacks_bound, leaf_bound_in, least_bound_of, open_bound_of};

use super::PoolView;
use super::closing::is_open_state;
use plan_base::BranchId;
use search_nodes::{PoolNode, lesser};

impl<'a> PoolView<'a> {
    /// Whether the node is an open leaf of which no bound is recorded.
    fn lacks_bound(&self, node: BranchId) -> bool
        ensures { result ≡ lacks_bound (slice_get self.now.nodes node.0) }
    {
        match self.node(node) {
            Some(node) => is_open_state(node.state()) && node.bound().is_none(),
            None => false,
        }
    }

    /// Whether a child of the node is an open leaf of which no bound is recorded.
    fn child_lacks_bound(&self, node: &PoolNode) -> bool
        ensures { result ≡ child_lacks_bound self.now.nodes (children_by node.now.fate) }
    {
        match node.children() {
            Some((left, right)) => self.lacks_bound(left) || self.lacks_bound(right),
            None => false,
        }
    }

    /// The recorded bound of an open leaf; and that of a divided node, for a child of which none is recorded.
    fn leaf_bound(&self, node: &PoolNode) -> Option<i128>
        ensures { result ≡ leaf_bound_in self.now.nodes node.now }
    {
        if is_open_state(node.state()) || self.child_lacks_bound(node) {
            node.bound()
        } else {
            None
        }
    }

    /// The least bound of the open leaves among some nodes of the pool.
    fn least_bound(&self, nodes: &[PoolNode]) -> Option<i128>
        ensures { result ≡ least_bound_of self.now.nodes nodes.now }
    {
        let mut least = None;
        for node in nodes {
            least = lesser(least, self.leaf_bound(node));
        }
        least
    }

    /// The least bound of the open leaves, in cost grains, where an open leaf of which none is recorded has that of its
    /// parent; None where none is known.
    pub fn open_bound(&self) -> Option<i128>
        ensures { result ≡ open_bound_of self.now }
    {
        self.least_bound(self.state.nodes.as_slice())
    }
}
