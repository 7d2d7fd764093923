//! What cuts count of the loads of a turn, and on average.

ghost use Rattle.std.specs.Prelude.{◌<◌};

use crate::choice::number_at;
use crate::means::{FINE, moved_mean, whole_load};
use cut_values::{Crossing, CutTable};
use link_steps::Batch;
use std::alloc::{AllocError, Global};

/// What the gaps of cuts are multiplied by beside those of places.
const CUT_WEIGHT: u64 = 4;

/// How many grains of a load are counted.
pub(crate) fn counted(batch: Batch, load: u64) -> u64 {
    let past = load.saturating_sub(batch.before).min(batch.rest);
    let period = batch.period.max(1);
    let whole = batch.first.wrapping_mul(past / period);
    whole.wrapping_add(batch.first.min(past % period))
}

/// The least load of which as many grains are counted as of this one.
pub(crate) fn least_counted(batch: Batch, load: u64) -> u64 {
    match counted(batch, load).checked_sub(1) {
        Some(last) => {
            let first = batch.first.max(1);
            let whole = batch.period.wrapping_mul(last / first);
            let past = whole.wrapping_add(last % first).wrapping_add(1);
            batch.before.wrapping_add(past)
        }
        None => 0,
    }
}

/// The rates of the cuts of a row together, in thousandths of a cost grain per counted grain.
pub(crate) fn rates_on(row: &[Crossing], rates: &[u128]) -> u128 {
    let mut total: u128 = 0;
    for crossing in row {
        total = total.saturating_add(number_at(rates, crossing.number as usize));
    }
    total
}

/// What a cut counts, in load grains.
#[derive(Clone, Copy, Debug)]
pub(crate) struct Count {
    /// At least.
    least: u64,
    /// Of the loads that the places have now.
    newest: u128,
    /// The average of that, in so many parts of a load grain.
    mean: u128,
}

impl Count {
    /// Whether it counts less on average than at least, so that a greater rate is asked for.
    pub(crate) fn is_short(self) -> bool {
        whole_load(self.mean) < self.least
    }

    /// How far the two are apart, where the rate may follow them, times the weight of cuts.
    pub(crate) fn gap(self, rate: u128) -> u64 {
        if rate > 0 || self.is_short() {
            whole_load(self.mean)
                .abs_diff(self.least)
                .saturating_mul(CUT_WEIGHT)
        } else {
            0
        }
    }
}

/// What all cuts count, in the order of the list. No contract rests on it.
#[derive(Drop)]
pub(crate) struct Counts {
    rows: Vec<Count>,
    /// For each place the load that is counted, in load grains; empty where there are no cuts.
    loads: Vec<u64>,
}

impl Counts {
    /// Nothing is counted yet.
    ///
    /// - Errors: want of memory alone.
    pub(crate) fn new(alloc: Global, table: &CutTable) -> Result<Counts, AllocError> {
        let mut rows = Vec::new(alloc);
        for number in 0..table.count() {
            rows.push(Count {
                least: table.least_count(number),
                newest: 0,
                mean: 0,
            })?;
        }
        let places = if table.count() == 0 {
            0
        } else {
            table.instance().places() as usize
        };
        Ok(Counts {
            rows,
            loads: vec![in alloc; 0; places]?,
        })
    }

    /// What the cut of this number counts.
    pub(crate) fn at(&self, number: usize) -> Count {
        self.rows.get(number).copied().unwrap_or(Count {
            least: 0,
            newest: 0,
            mean: 0,
        })
    }

    /// Counts this load of a place that these cuts cross in place of the one before.
    pub(crate) fn put(&mut self, place: usize, row: &[Crossing], load: u64) {
        let Some(held) = self.loads.get_mut(place) else {
            return;
        };
        let before = *held;
        *held = load;
        if before == load {
            return;
        }
        for crossing in row {
            if let Some(count) = self.rows.get_mut(crossing.number as usize) {
                let added = u128::from(counted(crossing.batch, load));
                let taken = u128::from(counted(crossing.batch, before));
                count.newest = count.newest.wrapping_add(added).wrapping_sub(taken);
            }
        }
    }

    /// Moves the averages by so many 256ths towards what is counted now.
    pub(crate) fn move_means(&mut self, part: u128) {
        for count in self.rows.iter_mut() {
            count.mean = moved_mean(count.mean, count.newest.wrapping_mul(FINE), part);
        }
    }

    /// The widest gap of a cut whose rate may follow its average, times the weight of cuts.
    pub(crate) fn widest(&self, rates: &[u128]) -> u64 {
        let mut widest = 0;
        for (number, count) in self.rows.iter().enumerate() {
            widest = count.gap(number_at(rates, number)).max(widest);
        }
        widest
    }

    /// The sum of the squares of these gaps, each without its last bits.
    pub(crate) fn squares(&self, rates: &[u128], shift: u32) -> u64
        requires { shift < 64 }
    {
        let mut total: u64 = 0;
        for (number, count) in self.rows.iter().enumerate() {
            let gap = count.gap(number_at(rates, number)) >> shift;
            total = total.wrapping_add(gap.wrapping_mul(gap));
        }
        total
    }
}
