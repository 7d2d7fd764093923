//! What threads may hand over.

use crate::desk::Desk;
use search_worker::Search;
use std::sync::Wait;

fn is_sent<T: Send>(_value: &T) {}

fn is_desk_sent<N: Search + Send + Sync, R: Wait + Sync>(desk: &Desk<N, &R>) {
    is_sent(desk);
}
