//! What the values of links go by.

use crate::cuts::Cut;
use link_steps::{Ranges, StepTable};

/// Ranges, prices of places and rates of cuts of an instance: what the values of its links go by.
#[derive(Clone, Copy)]
pub struct RatedNumbers<'a> {
    /// The instance and the steps of its links.
    pub table: &'a StepTable,
    /// One for each place.
    pub ranges: &'a Ranges,
    pub cuts: &'a [Cut],
    /// What crosses each cut beyond what it leaves out, as `rests_of` gives it, in load grains.
    pub rests: &'a [u64],
    /// One for each place, in thousandths of a cost grain per load grain. Other numbers may stand behind them.
    pub prices: &'a [u128],
    /// One for each cut, in thousandths of a cost grain per counted grain.
    pub rates: &'a [u128],
}
