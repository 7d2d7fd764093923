//! Pictures of valid plans: an SVG text with a mark for each node and each link of a network.
//!
//! Promises that a picture has exactly one mark and one name for each node and each link, in their order, with names
//! escaped and with the load and the capacity of each link; where a mark stands is drawn, and not promised. Begin at
//! `picture_text`, whose words are in `specs/Pictures.antt`. Stands on `picture_marks`, `plan_report` and what is below
//! them; nothing here reads a text.
#![tactic(auto)]

mod coordinates;
mod drawing;
mod lit;
mod lit_plan;
mod names;
mod picture;
mod sites;

pub use picture::picture_text;
