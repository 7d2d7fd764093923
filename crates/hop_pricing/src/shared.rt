//! What threads may share or hand over.

use crate::within::Within;

fn is_shared<T: Send + Sync>(_value: &T) {}

fn are_shared(within: &Within) {
    is_shared(within);
}
