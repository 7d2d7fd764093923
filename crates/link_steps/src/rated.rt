//! What loads are worth where counted grains have rates.

ghost use Rattle.std.specs.Prelude.{◌≡◌, ◌<◌, ◌≤◌, ◌+◌, ◌*◌, length};
ghost use Rattle.link_steps.specs.Candidates.{IsLeastCounted, IsCountedLoad};
ghost use Rattle.link_steps.specs.Tallies.{AreTallies, rate_total, worth, IsTally};

use crate::batch::Batch;
use plan_base::limits::MAX_PRICED_LOAD;

/// What each counted grain of a place's load is worth.
#[derive(Clone, Copy, Debug, PartialEq, Eq)]
pub struct Rated {
    /// Which grains are counted.
    pub batch: Batch,
    /// In thousandths of a cost grain per counted grain.
    pub rate: u128,
}

/// What a load is worth, in thousandths of a cost grain: its price, and for each batch the rate of its counted grains.
pub fn worth(price: u128, rated: &[Rated], load: u64) -> u128
    requires tallies { AreTallies rated.now }
    requires small { (price + rate_total rated.now) * load ≤ MAX_PRICED_LOAD }
    ensures value { result ≡ worth price rated.now load }
    ensures within { result ≤ MAX_PRICED_LOAD }
{
    let mut total = price * u128::from(load);
    for item in rated {
        total += item.rate * u128::from(item.batch.part(load));
    }
    total
}

/// The least load of which a batch counts as many grains as of this one, both in load grains.
fn least_counted(batch: Batch, load: u64) -> u64
    requires { IsTally batch.period batch.first }
    ensures { IsLeastCounted batch load result }
{
    let count = batch.part(load);
    if count == 0 {
        return 0;
    }
    let last = count - 1;
    batch.before + last / batch.first * batch.period + last % batch.first + 1
}

/// The least load of which as many grains are counted as of this one, and 0 where they are worth nothing.
fn least_rated(item: Rated, load: u64) -> u64
    requires { IsTally item.batch.period item.batch.first }
    ensures none { item.rate ≡ 0 → result ≡ 0 }
    ensures some { 0 < item.rate → IsLeastCounted item.batch load result }
{
    if item.rate == 0 {
        0
    } else {
        least_counted(item.batch, load)
    }
}

/// Of the loads from one to another, the least of which each rate counts as many grains as of the greatest.
pub fn counted_load(rated: &[Rated], least: u64, most: u64) -> u64
    requires tallies { AreTallies rated.now }
    requires some { least ≤ most }
    ensures { IsCountedLoad rated.now least most (length rated.now) result }
{
    let mut load = least;
    for item in rated {
        load = load.max(least_rated(*item, most));
    }
    load
}
