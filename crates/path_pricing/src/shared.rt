//! What threads may share or hand over.

use crate::priced::{Priced, Unfit};
use crate::source_tree::SourceTree;

fn is_shared<T: Send + Sync>(_value: &T) {}

fn are_shared(priced: &Priced, unfit: &Unfit, tree: &SourceTree) {
    is_shared(priced);
    is_shared(unfit);
    is_shared(tree);
}
