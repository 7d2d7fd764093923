//! What the choice of a task asks of a node.

ghost use Rattle.std.specs.Prelude.{◌≡◌, not, ◌&&◌, nat_lt};
ghost use Rattle.search_machine.specs.declared.limits.TheConstants.{MAX_VERSIONS};

use super::PoolNode;
use search_machine::limits::MAX_VERSIONS;

impl PoolNode {
    /// Whether the node is not settled and has room for more complete versions.
    pub fn may_go_on(&self) -> bool
        ensures { result ≡ (not self.now.settled && nat_lt self.now.completed MAX_VERSIONS) }
    {
        !self.settled && self.completed < MAX_VERSIONS
    }
}
