//! What threads may share or hand over.

use crate::guide::Guide;
use crate::known::{Known, KnownAbove};

fn is_shared<T: Send + Sync>(_value: &T) {}

fn are_shared(known: &Known, above: &KnownAbove, guide: &Guide) {
    is_shared(guide);
    is_shared(known);
    is_shared(above);
}
