//! The cuts of a search: what numbers, which are prices of places and rates of cuts, give to links.
//!
//! Promises of a `CutTable`, which is made of an instance's step table and a list of cuts, whether numbers are as they have
//! to be, the start numbers, the value of a link with its first loads, the two sums of a bound, and how far a price may move
//! beside the rates. Begin at `CutTable::new`; the definitions are in `specs/Numbers.antt` and `specs/LinkValues.antt`, their
//! laws in `laws`. Stands on `plan_base`, `link_steps`, `arc_restrict` and `proof_tree`. How a table keeps the cuts that each
//! place crosses is in `specs/Crossings.antt`. `SeenLoads` keeps which loads gave links their values, without a promise. Which
//! cuts there are, and which numbers are good, is left to the crates above.
#![tactic(auto)]

mod crossing;
pub mod laws;
mod numbers;
mod rated_rows;
mod seen;
mod shared;
mod table;

pub use crossing::Crossing;
pub use rated_rows::RatedRows;
pub use seen::SeenLoads;
pub use table::{CutTable, PriceBounds};
