//! What threads may share or hand over.

use crate::hub::{LinearHub, LinearSeat};
use crate::naming::Naming;
use std::sync::Wait;

fn is_sent<T: Send>(_value: &T) {}

fn is_shared<T: Send + Sync>(_value: &T) {}

fn is_hub_shared<N: Naming + Send + Sync, R: Wait + Sync>(hub: &LinearHub<N, &R>) {
    is_shared(hub);
}

fn is_seat_sent<N: Naming + Send + Sync, R: Wait + Sync>(seat: &LinearSeat<N, &R>) {
    is_sent(seat);
}
