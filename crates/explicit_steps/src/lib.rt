//! What it costs to carry a load on a link that may have one of its capacities at most.
//!
//! Promises for each load up to the top the least cost of having no choice and of each single one, with the choice that
//! has that cost. Begin at `choice_steps`, whose words are in `specs/Choices.antt` and `specs/Steps.antt`. Stands on std
//! alone. What is in `specs/Rows.antt` no public contract cites.
#![tactic(auto)]

mod choices;
pub mod limits;
mod reaches;
mod steps;

pub use choices::{Choice, ChoiceStep};
pub use reaches::reach_of;
pub use steps::choice_steps;
