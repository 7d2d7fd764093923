//! What the price of one place brings in.

use std::alloc::{AllocError, Global};

/// A load that a place carries up to a price, in thousandths of a cost grain per load grain; beyond it the load goes
/// another way.
#[derive(Clone, Copy)]
struct Tie {
    price: u128,
    load: u128,
}

/// The least that a demand's columns cost beside a place, in thousandths of a cost grain per load grain: of those over the
/// place, and of the others.
#[derive(Clone, Copy)]
pub(crate) struct Ways {
    pub over: Option<u128>,
    pub around: Option<u128>,
}

/// What the price of one place brings in from the demands that may use it.
#[derive(Drop)]
pub(crate) struct Share {
    /// The load that has no other way, in load grains.
    held: u128,
    ties: Vec<Tie>,
}

impl Share {
    /// No demand uses the place.
    pub(crate) fn new(alloc: Global) -> Share {
        Share {
            held: 0,
            ties: Vec::new(alloc),
        }
    }

    /// Forgets all demands.
    pub(crate) fn clear(&mut self) {
        self.held = 0;
        self.ties.clear();
    }

    /// Adds what a demand of this load does with the place.
    pub(crate) fn add(&mut self, ways: Ways, load: u128) -> Result<(), AllocError> {
        match (ways.over, ways.around) {
            (Some(_), None) => self.held = self.held.saturating_add(load),
            (Some(over), Some(around)) if over < around => {
                self.ties.push(Tie {
                    price: around - over,
                    load,
                })?;
            }
            _ => {}
        }
        Ok(())
    }

    /// By how much one more than this price brings in more, in thousandths of a cost grain.
    pub(crate) fn rise(&self, price: u128) -> i128 {
        let mut total = self.held;
        for tie in &self.ties {
            if tie.price > price {
                total = total.saturating_add(tie.load);
            }
        }
        i128::try_from(total).unwrap_or(i128::MAX)
    }

    /// What the price brings in, up to the greatest number, in thousandths of a cost grain.
    pub(crate) fn income(&self, price: u128) -> i128 {
        let mut total = self.held.saturating_mul(price);
        for tie in &self.ties {
            total = total.saturating_add(tie.load.saturating_mul(tie.price.min(price)));
        }
        i128::try_from(total).unwrap_or(i128::MAX)
    }
}
