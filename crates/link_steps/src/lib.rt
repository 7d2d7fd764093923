//! What it costs to carry a load on a link, and what prices give to links.
//!
//! Promises for each load the least module cost over all lawful counts of the link's modules, with counts that attain
//! it, and for prices the least that they leave of the step costs over ranges of loads, also where counted grains of loads
//! have rates; `Ranges`: the loads that each place may carry; `cost_unit`: what all costs are multiples of. Begin at
//! `StepTable::make`; the definitions are in `specs/Costs.antt`, `specs/Ranges.antt`, `specs/Values.antt` and
//! `specs/Unit.antt`, those with rates in `specs/Tallies.antt` and `specs/WorthValues.antt`, their laws in `laws`. Stands
//! on `plan_base`, and where a link may have one module at most on `explicit_steps`. How a table keeps its steps is in
//! `specs/Steps.antt` and `specs/Choices.antt`, which no public contract cites. Which path a demand takes is left to the
//! crates above.
#![tactic(auto)]

mod batch;
mod choices;
mod ends;
pub mod laws;
pub mod limits;
mod making;
mod range;
mod rated;
mod rated_value;
mod reading;
mod shared;
mod step;
mod step_fault;
mod table;
mod unit;
mod value;

pub use batch::{Batch, tally};
pub use range::{LinkRanges, LoadRange, Ranges};
pub use rated::Rated;
pub use reading::{LinkValue, PlacedCost};
pub use step_fault::StepFault;
pub use table::StepTable;
pub use unit::cost_unit;
