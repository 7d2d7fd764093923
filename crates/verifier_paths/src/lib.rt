//! What the verifier finds of paths: least prices, fewest arcs, and whether each demand has one path alone.
//!
//! Promises the least price of a permitted path of each demand and its fewest arcs, or that there is none, and for all
//! demands together that one has no path, that one has a second path, or the only path of each. Begin at
//! `prices_of_demands` and `only_paths`, whose words are in `specs/Sources.antt` and `specs/OnlyPaths.antt`;
//! `Forbidden` is the restriction that they look at, in marks that can be taken back. Stands on `plan_base` and
//! `arc_restrict` alone: least prices are found here by rounds of relaxing, and second paths by leaving out one arc
//! after the other, so that nothing of the search is read. What a leaf claims with them is left to `cert_verifier`.
#![tactic(auto)]

pub mod limits;
mod marks;
mod rounds;
mod sources;
mod uniqueness;

pub use marks::Forbidden;
pub use rounds::{fewest_arcs, least_price};
pub use sources::prices_of_demands;
pub use uniqueness::{OnlyPaths, only_paths};
