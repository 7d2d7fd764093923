//! The pass over the rates: each in turn to where the restricted value is greatest.

ghost use Rattle.std.specs.Prelude.{◌≡◌, ◌<◌, length, IfOk};
ghost use Rattle.plan_base.specs.Places.{places};
ghost use Rattle.master_step.specs.Restricted.{AreRanges, AreNumbers};

use crate::averaging::RATE_SHARE;
use crate::choice::number_at;
use crate::counts::rates_on;
use crate::gaps::greatest_price;
use crate::hull::Hull;
use crate::leaving::Ends;
use crate::searching::first_not_rising;
use crate::work::parted;
use cut_values::{Crossing, CutTable};
use link_steps::{Batch, Ranges};
use plan_base::{Instance, Prices};
use std::alloc::{AllocError, Global};

/// How many times the greatest price a rate may become.
const MOST_TIMES: u128 = 16;

/// A cut of a place's row.
#[derive(Clone, Copy)]
struct Placed {
    /// Its place in the row.
    at: usize,
    crossing: Crossing,
}

/// The cut of this number in a place's row.
fn placed_in(row: &[Crossing], number: u32) -> Option<Placed> {
    for (at, crossing) in row.iter().enumerate() {
        if crossing.number == number {
            return Some(Placed {
                at,
                crossing: *crossing,
            });
        }
    }
    None
}

/// Weighs the counted grains of all places after the rate of a cut moved.
fn weigh_moved(
    table: &CutTable,
    ranges: &Ranges,
    ends: &mut Ends,
    number: u32,
    old: u128,
    new: u128,
)
    requires ranges { length ranges.now ≡ places table.now.problem }
{
    if old == new {
        return;
    }
    for place in 0..table.instance().places() {
        if let Some(Placed { at, crossing }) = placed_in(table.crossings(place), number) {
            ends.move_rate(ranges.at(place), place, at, crossing, old, new);
        }
    }
}

/// What the rate of a cut leaves of the costs of the places that cross it. No contract rests on it.
#[derive(Drop)]
struct RateHulls {
    hulls: Vec<Hull>,
    /// How many of the hulls are those of a place.
    count: usize,
    /// How many grains the cut counts at least.
    least: u64,
}

impl RateHulls {
    /// Those of no cut.
    fn new(alloc: Global) -> RateHulls {
        RateHulls {
            hulls: Vec::new(alloc),
            count: 0,
            least: 0,
        }
    }

    /// Adds the hull of a place.
    fn add(
        &mut self,
        alloc: Global,
        inst: &Instance,
        ranges: &Ranges,
        ends: &Ends,
        numbers: &Prices,
        place: u32,
        batch: Batch,
    ) -> Result<(), AllocError>
        requires place { place < places inst.now }
        requires ranges { length ranges.now ≡ places inst.now }
    {
        if self.count >= self.hulls.len() {
            self.hulls.push(Hull::new(alloc))?;
        }
        if let Some(hull) = self.hulls.get_mut(self.count) {
            ends.fill_hull(inst, ranges, numbers.as_slice(), place, Some(batch), hull)?;
            self.count = self.count.saturating_add(1);
        }
        Ok(())
    }

    /// Writes the hulls of a cut, whose rate was weighed as 0.
    fn fill(
        &mut self,
        alloc: Global,
        table: &CutTable,
        ranges: &Ranges,
        ends: &Ends,
        numbers: &Prices,
        number: u32,
    ) -> Result<(), AllocError>
        requires ranges { length ranges.now ≡ places table.now.problem }
        requires number { number < length table.now.cuts }
    {
        let inst = table.instance();
        self.count = 0;
        self.least = table.least_count(number);
        for place in 0..inst.places() {
            if let Some(placed) = placed_in(table.crossings(place), number) {
                let batch = placed.crossing.batch;
                self.add(alloc, inst, ranges, ends, numbers, place, batch)?;
            }
        }
        Ok(())
    }

    /// The part of the restricted value that a rate decides.
    fn worth(&self, rate: u128) -> i128 {
        let gained = rate.saturating_mul(u128::from(self.least));
        let mut total = i128::try_from(gained).unwrap_or(i128::MAX);
        for (place, hull) in self.hulls.iter().enumerate() {
            if place < self.count {
                total = total.saturating_add(hull.least(rate).cost);
            }
        }
        total
    }

    /// The rate up to a most that is worth most, the rate itself where none is worth more.
    fn best(&self, rate: u128, most: u128) -> u128 {
        let rises = |rate: u128| self.worth(rate) < self.worth(rate.saturating_add(1));
        let best = first_not_rising(0, most, rate, rises);
        if self.worth(best) > self.worth(rate) {
            best
        } else {
            rate
        }
    }
}

/// The most that the rate of a cut may become beside the prices of the places that cross it and their other rates, where it
/// is 0 in the numbers; none where one of these prices is below a thousand routing costs.
fn room_of(table: &CutTable, numbers: &[u128], number: u32, most: u128) -> Option<u128> {
    let inst = table.instance();
    let limit = inst.price_limit();
    let (prices, rates) = parted(numbers, inst.places() as usize);
    let mut room = most;
    for place in 0..inst.places() {
        let row = table.crossings(place);
        if placed_in(row, number).is_some() {
            let price = number_at(prices, place as usize);
            if price < 1000 * u128::from(inst.link(inst.link_of_place(place)).routing) {
                return None;
            }
            let left = limit.saturating_sub(price);
            room = room.min(left.saturating_sub(rates_on(row, rates)));
        }
    }
    Some(room)
}

/// Puts a number, where there is one.
fn put_number(numbers: &mut Prices, place: u32, number: u128) {
    if (place as usize) < numbers.as_slice().len() {
        numbers.put(place, number);
    }
}

/// Moves the rate of a cut to where it is worth most.
fn move_rate(
    alloc: Global,
    table: &CutTable,
    ranges: &Ranges,
    ends: &mut Ends,
    number: u32,
    most: u128,
    hulls: &mut RateHulls,
    moved: &mut Prices,
) -> Result<(), AllocError>
    requires ranges { length ranges.now ≡ places table.now.problem }
    requires number { number < length table.now.cuts }
{
    let at = table.instance().places().saturating_add(number);
    let rate = number_at(moved.as_slice(), at as usize);
    put_number(moved, at, 0);
    let best = match room_of(table, moved.as_slice(), number, most) {
        Some(room) => {
            weigh_moved(table, ranges, ends, number, rate, 0);
            hulls.fill(alloc, table, ranges, ends, moved, number)?;
            let best = hulls.best(rate, room);
            weigh_moved(table, ranges, ends, number, 0, best);
            best
        }
        None => rate,
    };
    put_number(moved, at, best);
    Ok(())
}

/// The numbers after each rate was moved once, in the order of the list.
///
/// - Takes: a table; ranges of its instance's places, and the ends under these, weighed at the rates of the numbers;
///   numbers that fit the instance.
/// - Errors: want of memory alone.
/// - Rule: docs/METHOD.md, "Restricted value".
pub(crate) fn moved_rates(
    alloc: Global,
    table: &CutTable,
    ranges: &Ranges,
    ends: &mut Ends,
    from: &Prices,
) -> Result<Prices, AllocError>
    requires ranges { AreRanges table.now.problem ranges.now }
    requires from { AreNumbers table.now.problem table.now.cuts from.now }
    ensures { IfOk result (AreNumbers table.now.problem table.now.cuts) }
{
    let inst = table.instance();
    let greatest = greatest_price(inst, from).saturating_mul(MOST_TIMES);
    let most = greatest.min(inst.price_limit() / RATE_SHARE);
    let mut moved = from.copy()?;
    let mut hulls = RateHulls::new(alloc);
    for number in 0..table.count() {
        move_rate(
            alloc, table, ranges, ends, number, most, &mut hulls, &mut moved,
        )?;
    }
    if table.are_numbers(&moved) {
        Ok(moved)
    } else {
        from.copy()
    }
}
