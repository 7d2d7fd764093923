//! What threads may share or hand over.

use crate::brief::Brief;
use crate::pool::ColumnPool;
use crate::row::Added;

fn is_shared<T: Send + Sync>(_value: &T) {}

fn are_shared(pool: &ColumnPool, brief: &Brief, added: &Added) {
    is_shared(pool);
    is_shared(brief);
    is_shared(added);
}
