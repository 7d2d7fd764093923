//! Restrictions: which arcs are forbidden to which demand, and where two paths part.
//!
//! Promises that a restriction forbids exactly what it was told to, and that the node where two
//! simple paths first part is found, and what a path costs under prices. Begin at `Restriction`; the words for permitted paths, prices
//! of paths and least prices stand in `specs/Restrictions.antt` and `specs/Prices.antt`. Stands on
//! `plan_base`. How a least price or a second path is found is left to the crates above.
#![tactic(auto)]

pub mod laws;
mod parting;
mod prices;
mod restriction;
mod shared;

pub use parting::divergence;
pub use prices::price_along;
pub use restriction::Restriction;
