//! Surcharges, which single demands pay on places besides prices, and the worth of loads, which gives them back.
//!
//! Promises that a `Surcharges` is in order with no pair of place and demand twice, and of a `WorthRow` for each load of a
//! place exactly the most that a set of whole demands brings which fits into it, in the measure of the instance. Begin at
//! `Surcharges::none` and `WorthRow::set_to`; the definitions are in `specs/Surcharges.antt`, `specs/Measures.antt` and
//! `specs/Worths.antt`, their laws in `laws`. Stands on `plan_base`. What bounds are made of it is left to the crates above.
#![tactic(auto)]

pub mod laws;
pub mod limits;
mod measuring;
mod shared;
mod surcharges;
mod worth_row;

pub use measuring::measure;
pub use surcharges::{Surcharge, Surcharges};
pub use worth_row::WorthRow;
