//! The marks of a picture: nodes, links and names as lines of an SVG text.
//!
//! Promises exactly the text of each mark: the name escaped, the places that its look tells, and of a link how full it
//! is, its loads and its capacity. Begin at `push_link`, whose words are in `specs/Marks.antt`. Stands on `picture_layout`,
//! whose looks tell where marks stand; whole pictures are left to the crate above.
#![tactic(auto)]

mod escapes;
mod marks;

pub use escapes::push_escaped;
pub use marks::{Light, Traffic, push_figures, push_label, push_link, push_node, traffic_on};
