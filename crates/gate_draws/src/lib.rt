//! Numbers that look as if drawn by chance, for programs that compare answers on made cases.
//!
//! They are the same in each run. Begin at `Draws::begin`. Serves programs for the gate alone, and promises nothing but
//! that a number is below its limit.
#![tactic(auto)]

mod draws;

pub use draws::Draws;
