//! A line at a terminal that says how far a run is.
//!
//! Promises the words of the line. A gate answers only whether it is told a bound, so that no promise of a run depends on
//! this one. When the line is shown, also while no worker passes, and that it is wiped before the answer is written, no contract
//! says. Begin at `Progress`. Stands on `plan_io`, whose gates workers pass, and on `scaled_numbers` for costs.
#![tactic(auto)]

mod answering;
mod line;
mod progress;
mod told;

pub use answering::Answering;
pub use line::line_of;
pub use progress::Progress;
