//! What threads may share or hand over.

use crate::items::Items;
use crate::met_nodes::MetNodes;

fn is_shared<T: Send + Sync>(_value: &T) {}

fn are_shared(items: &Items<u64>, met: &MetNodes) {
    is_shared(items);
    is_shared(met);
}
