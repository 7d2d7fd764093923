//! Calls of a pool in the words of a row, and their answers, with what a file of rows about pools begins with.
//!
//! Lists are those of `gate_networks`. Begin at `offer_of` and `pool_of`. Promises nothing but that a new pool has accepted
//! nothing.

mod answers;
mod cuts;
mod designs;
mod offers;
mod pools;
mod words;

pub(crate) use answers::{tell_answer, tell_gathered, tell_published, tell_restriction};
pub(crate) use designs::design_of;
pub(crate) use offers::offer_of;
pub(crate) use pools::pool_of;
pub(crate) use words::{first_number, node_of, raise_of, round_of};
