//! Lines, words and numbers of texts that have one spelling.
//!
//! Promises that a number, a row of numbers and a decimal of cost are read exactly where the bytes are the one spelling
//! of them, and that a text is cut into its lines exactly. Begin at `row`; what the words say is in `specs/Words.antt`
//! and `specs/Lines.antt`. Stands on `scaled_numbers`.
#![tactic(auto)]

mod lines;
mod stop;
mod words;

pub use lines::{cut, first_line};
pub use stop::Stop;
pub use words::{are_same, before, behind, grains, numbers, row};
