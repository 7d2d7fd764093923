//! What threads may share or hand over.

use crate::ascending::Ascent;
use crate::rows::Room;
use crate::step::Step;

fn is_shared<T: Send + Sync>(_value: &T) {}

fn are_shared(room: &Room, step: &Step, ascent: &Ascent) {
    is_shared(room);
    is_shared(step);
    is_shared(ascent);
}
