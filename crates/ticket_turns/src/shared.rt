//! What threads may share or hand over.

use crate::meaning::Meaning;
use crate::turns::{Pass, Turns};

fn is_sent<T: Send>(_value: &T) {}

fn is_shared<T: Send + Sync>(_value: &T) {}

fn are_turns_shared<D: Drop + Send, C, M: Meaning<D, C>>(turns: &Turns<D, C, M>) {
    is_shared(turns);
}

fn is_pass_sent<D: Send, C>(pass: &Pass<D, C>) {
    is_sent(pass);
}
