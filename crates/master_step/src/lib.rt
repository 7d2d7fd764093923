//! The master step: prices raised along what the columns and the link values disagree on.
//!
//! Promises the restricted value of prices of places and rates of cuts under ranges of loads and over given columns, exactly,
//! and the step that raises it: which trial is taken, what it gains, and when none gains. Begin at `advance` and `gain`, whose words are in
//! `specs/Outcomes.antt` over those of `specs/Columns.antt`, `specs/Restricted.antt` and `specs/Trials.antt`; that one value,
//! one step and one gain are right is in `laws`. `averaged_step` also looks at ascents, of whose numbers it promises that
//! they fit and what they are worth. Stands on `plan_base`, `arc_restrict`, `link_steps`, `cut_values`, `column_pool`, and on
//! the sums of `proof_tree` and `bound_assembly`. When a step is made is left to the crates above.
#![tactic(auto)]

mod advancing;
mod ascending;
mod averaging;
mod bettering;
mod choice;
mod climbing;
mod counts;
mod crossings;
mod crowding;
mod gaps;
mod hull;
pub mod laws;
mod leaving;
pub mod limits;
mod loads;
mod means;
mod node_master;
mod pace;
mod rating;
mod rows;
mod searching;
mod share;
mod shared;
mod source;
mod step;
mod valuing;
mod work;

pub use advancing::{advance, gain};
pub use ascending::{Ascent, ascend, ascend_from};
pub use averaging::{AveragedAscent, averaged, averaged_seen};
pub use bettering::{AveragedStep, averaged_step, best_step};
pub use crowding::crowd_prices;
pub use means::Averages;
pub use node_master::NodeMaster;
pub use rows::Room;
pub use step::Step;
pub use valuing::value;
