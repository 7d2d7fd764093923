//! What threads may share or hand over.

use crate::search::CutSearch;

fn is_shared<T: Send + Sync>(_value: &T) {}

fn are_shared(search: &CutSearch) {
    is_shared(search);
}
