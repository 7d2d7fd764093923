//! What threads may share or hand over.

use crate::branch::Branch;

fn is_shared<T: Send + Sync>(_value: &T) {}

fn are_shared(branch: &Branch) {
    is_shared(branch);
}
