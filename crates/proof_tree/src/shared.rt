//! What threads may share or hand over.

use crate::cuts::Cut;
use crate::plan::Plan;
use crate::tree::{Evidence, Tree, TreeNode};

fn is_shared<T: Send + Sync>(_value: &T) {}

fn are_shared(plan: &Plan, tree: &Tree, record: &TreeNode, evidence: &Evidence, cut: &Cut) {
    is_shared(plan);
    is_shared(tree);
    is_shared(record);
    is_shared(evidence);
    is_shared(cut);
}
