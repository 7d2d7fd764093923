//! What threads may share or hand over.

use crate::hub::Hub;
use crate::kept::Kept;
use crate::naming::Naming;
use crate::seat::Seat;
use std::sync::Wait;

fn is_sent<T: Send>(_value: &T) {}

fn is_shared<T: Send + Sync>(_value: &T) {}

fn are_sent<N: Naming + Send + Sync, R: Wait + Sync>(kept: &Kept<N, &R>, seat: &Seat<N>) {
    is_sent(kept);
    is_sent(seat);
}

fn is_hub_shared<N: Naming + Send + Sync, R: Wait + Sync>(hub: &Hub<N, &R>) {
    is_shared(hub);
}
