//! What threads may share or hand over.

use crate::pool::Pool;

fn is_shared<T: Send + Sync>(_value: &T) {}

fn are_shared(pool: &Pool) {
    is_shared(pool);
}
