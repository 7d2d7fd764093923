//! Instances of the network design problem, and designs of them.
//!
//! Promises that an `Instance` is within all limits, and that `check_design` accepts exactly the
//! feasible designs in shape, with their cost. Begin at `Instance::build` and `check_design`, whose
//! words are in `specs/Facts.antt` and `specs/Designs.antt`; what is claimed of designs is in
//! `specs/Claims.antt`. Stands on `base_items`, and on one lemma of `std_collections`. Finding
//! designs, prices and bounds is left to the crates above.
#![tactic(auto)]

mod both;
mod build_fault;
mod check;
mod design_fault;
mod ids;
mod instance;
pub mod laws;
mod leaving;
pub mod limits;
mod loads;
mod parts;
mod path;
mod prices;
mod shared;
mod walks;

pub use base_items::Items;
pub use build_fault::{BuildFault, End};
pub use check::{capacity_with, check_design, module_cost_with};
pub use design_fault::DesignFault;
pub use ids::{ArcId, BranchId, DemandId, LinkId, NodeId};
pub use instance::Instance;
pub use loads::{LinkLoads, add_load, loads_of};
pub use parts::{CountLaw, Demand, Link, Module, Orient, Parts};
pub use path::{Design, Path};
pub use prices::{LinkPrices, Prices};
pub use walks::is_simple_path;
