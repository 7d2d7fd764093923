//! What threads may share or hand over.

use crate::ground::Ground;
use crate::node::PoolNode;
use crate::round::PoolRound;
use crate::search_state::SearchState;

fn is_shared<T: Send + Sync>(_value: &T) {}

fn are_shared(parts: &(PoolNode, PoolRound, Ground, SearchState)) {
    is_shared(parts);
}
