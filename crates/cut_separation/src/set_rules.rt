//! Rules by which sets of nodes are looked at. Any set may have a cut, so no proof rests on which a rule gives. A further rule is
//! a module here with a `SetRule`, and takes effect where `CutSearch::new` names it.

mod connected;
mod single_nodes;

use crate::node_set::NodeSet;
pub use connected::Connected;
use plan_base::Instance;
pub use single_nodes::SingleNodes;
use std::alloc::{AllocError, Global};

/// Which sets of nodes are looked at.
pub trait SetRule {
    /// The sets, each once; want of memory is the only error.
    fn sets(&self, alloc: Global, inst: &Instance) -> Result<Vec<NodeSet>, AllocError>;
}
