//! Averages of what the columns and the values put on the places.

ghost use Rattle.std.specs.Prelude.{◌≡◌, length, IfOk};
ghost use Rattle.plan_base.specs.Places.{places};

use plan_base::{Instance, Items};
use std::alloc::{AllocError, Global};

/// What the averages of an ascent are; no contract tells more of them than their counts.
#[derive(Debug, Drop)]
pub struct Averages {
    /// For each place the load that gives its link its value, in load grains.
    pub loads: Items<u64>,
    /// For each link the module cost of such loads, in cost grains.
    pub costs: Items<u128>,
}

/// The average, moved towards the newest number by so many 256ths, rounded down. Numbers are below 2^120, so nothing passes
/// 128 bits.
pub(crate) fn moved_mean(mean: u128, newest: u128, part: u128) -> u128 {
    let rest = 256u128.wrapping_sub(part);
    let sum = newest
        .wrapping_mul(part)
        .wrapping_add(mean.wrapping_mul(rest));
    sum / 256
}

/// What the averages of loads are multiplied by.
pub(crate) const FINE: u128 = 1 << 20;

/// An average in load grains, rounded down.
pub(crate) fn whole_load(average: u128) -> u64 {
    u64::try_from(average / FINE).unwrap_or(u64::MAX)
}

/// The averages of a place, in so many parts of a load grain; loads are below 2^60.
#[derive(Clone, Copy, Debug)]
pub(crate) struct Mean {
    columns: u128,
    values: u128,
    /// That of the values over fewer turns.
    recent: u128,
}

impl Mean {
    /// No loads.
    pub(crate) fn none() -> Mean {
        Mean {
            columns: 0,
            values: 0,
            recent: 0,
        }
    }

    /// The averages moved towards these loads.
    pub(crate) fn moved(self, columns: u128, values: u128, part: u128, recent: u128) -> Mean {
        let newest = values.wrapping_mul(FINE);
        Mean {
            columns: moved_mean(self.columns, columns.wrapping_mul(FINE), part),
            values: moved_mean(self.values, newest, part),
            recent: moved_mean(self.recent, newest, recent),
        }
    }

    /// What the columns put on the place, in load grains.
    pub(crate) fn column_load(self) -> u64 {
        whole_load(self.columns)
    }

    /// What gives the link its value, in load grains.
    pub(crate) fn value_load(self) -> u64 {
        whole_load(self.values)
    }

    /// The same over fewer turns.
    pub(crate) fn recent_load(self) -> u64 {
        whole_load(self.recent)
    }

    /// How far the two are apart, where the price may follow them: it may not fall below 0.
    pub(crate) fn gap(self, price: u128) -> u64 {
        let columns = self.column_load();
        let values = self.value_load();
        if price > 0 || columns > values {
            columns.abs_diff(values)
        } else {
            0
        }
    }
}

/// The averages of the place of this number, and those of no loads where there is none.
pub(crate) fn mean_at(means: &[Mean], place: usize) -> Mean {
    means.get(place).copied().unwrap_or(Mean::none())
}

/// The recent loads of all places, in load grains.
pub(crate) fn recent_loads(
    alloc: Global,
    inst: &Instance,
    means: &[Mean],
) -> Result<Items<u64>, AllocError>
    ensures { IfOk result (λ loads. length loads ≡ places inst.now) }
{
    let mut loads = Vec::new(alloc);
    for place in 0..inst.places() {
        let mean = mean_at(means, place as usize);
        loads.push(mean.recent_load())?;
    }
    Ok(Items::from_vec(loads))
}
