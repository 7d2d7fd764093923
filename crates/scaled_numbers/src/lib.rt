//! Exact decimals: numbers in texts, as whole numbers of grains.
//!
//! Promises that a number of any length and exponent is read as the very value that it spells, or told
//! for its fault, and that a value is written as its one canonical decimal. Begin at `read_decimal`,
//! whose words are in `specs/Decimal.antt`, and at `write_grains`, whose words are in
//! `specs/Canonical.antt`. Stands on `itoa` alone. Signs in front, and words that stand for numbers,
//! are left to the readers above.
#![tactic(auto)]

mod decimal;
mod digits;
mod fault;
mod grains;
pub mod laws;
pub mod limits;
mod scan;

pub use decimal::read_decimal;
pub use fault::NumberFault;
pub use grains::{up_to_grain, write_grains};
