//! Proof trees and plans: what a plan claims, and what makes it valid.
//!
//! Promises that each design lies in a leaf of a valid tree, that no price gives a leaf a bound
//! above the cost of a feasible design in it, and that what a valid plan claims is so: the laws of
//! `laws`. Begin at `Plan`; valid plans stand in `specs/Plans.antt`. Stands on `plan_base`,
//! `link_steps` and `arc_restrict`. How a tree is found, and how a plan is checked, is left to the
//! crates above.
#![tactic(auto)]

mod cuts;
mod fitting;
pub mod laws;
pub mod limits;
mod plan;
mod rated_numbers;
mod rates;
mod rooms;
mod shared;
mod totals;
mod tree;

pub use cuts::{Cut, is_cut_list, is_new};
pub use plan::{Plan, PlanStatus};
pub use rated_numbers::RatedNumbers;
pub use rates::{are_rated_prices, are_within_limit, rests_of};
pub use rooms::{is_cut_short, room_at};
pub use totals::{cut_total, rated_total};
pub use tree::{Evidence, ShapeFault, Tree, TreeNode};
