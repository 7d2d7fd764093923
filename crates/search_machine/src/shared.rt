//! What threads may share or hand over.

use crate::answers::{
    Better, Closing, ExamineFault, Examined, Gather, NodeState, Offer, Offered, Opened, Publish,
    RoundFault, Settle,
};
use crate::task::Task;
use crate::tree::{Found, HeldCut, Incumbent};
use branch_tree::Fate;

fn is_shared<T: Send + Sync>(_value: &T) {}

fn are_calls_shared(calls: &(Offer, Task)) {
    is_shared(calls);
}

fn are_round_answers_shared(answers: &(Opened, Offered, Gather, Publish, Settle)) {
    is_shared(answers);
}

fn are_node_answers_shared(answers: &(NodeState, Closing, Examined, Better)) {
    is_shared(answers);
}

fn are_faults_shared(faults: &(RoundFault, ExamineFault)) {
    is_shared(faults);
}

fn are_pieces_shared(pieces: &(Fate, Found, HeldCut, Incumbent)) {
    is_shared(pieces);
}
