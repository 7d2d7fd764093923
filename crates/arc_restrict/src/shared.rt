//! What threads may share or hand over.

use crate::restriction::Restriction;

fn is_shared<T: Send + Sync>(_value: &T) {}

fn are_shared(restriction: &Restriction) {
    is_shared(restriction);
}
