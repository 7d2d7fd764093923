//! Designs that are found: a cheaper one by other paths, and when such are searched for.
//!
//! Promises that `improve` gives a feasible design that is never dearer. Begin at `improve`; the search is in
//! `rounds.rt`. Stands on `plan_base`, `link_steps`, `least_path`, `limited_path`, `completions`, whose calls stand here
//! too, and `demand_routing`. How much cheaper a design of `improve` is, and how often `negotiated` finds paths that the
//! links can carry, no contract says: it is measured.
#![tactic(auto)]

mod cooling;
mod dealing;
mod draws;
mod group;
mod held;
mod improving;
mod laying;
mod negotiating;
mod ration;
mod rounds;
mod tolls;

pub use completions::{complete, overfull_link};
pub use improving::{improve, improve_seeded};
pub use laying::lay_all;
pub use negotiating::negotiated;
pub use ration::DesignSearch;
