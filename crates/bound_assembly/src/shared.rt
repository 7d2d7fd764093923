//! What threads may share or hand over.

use crate::round::Round;

fn is_shared<T: Send + Sync>(_value: &T) {}

fn is_round_shared(round: &Round) {
    is_shared(round);
}
