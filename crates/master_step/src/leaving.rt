//! What prices and rates leave of the costs of links, at the ends of the steps that their ranges meet.

ghost use Rattle.std.specs.Prelude.{◌≡◌, ◌<◌, ◌≤◌, true, length, IfSome};
ghost use Rattle.plan_base.specs.Facts.{total_load};
ghost use Rattle.plan_base.specs.Places.{is_two_way, places};

use crate::choice::number_at;
use crate::counts::{counted, least_counted};
use crate::hull::{Hull, Point};
use crate::node_master::NodeMaster;
use crate::work::parted;
use cut_values::{Crossing, CutTable};
use link_steps::limits::MAX_STEPS;
use link_steps::{Batch, LinkValue, LoadRange, Ranges, StepTable};
use plan_base::{Instance, LinkId};
use std::alloc::{AllocError, Global};

/// The most counts that are kept; where there are more, the others are found anew each time.
const MOST_COUNTS: usize = 1 << 20;

/// The end of a step.
#[derive(Clone, Copy)]
struct End {
    /// In load grains.
    load: u64,
    /// The cost of the step, in thousandths of a cost grain.
    cost: i128,
}

/// The end of the step that a load is of.
fn end_at(steps: &StepTable, link: LinkId, load: u64) -> End
    requires link { link.0 < length steps.now.links }
    requires load { load ≤ total_load steps.now }
{
    let cost = steps.at(link, load).unwrap_or(0);
    End {
        load,
        cost: i128::try_from(cost.saturating_mul(1000)).unwrap_or(i128::MAX),
    }
}

/// The other place of a place's link, if it has one.
pub(crate) fn other_place(inst: &Instance, place: u32) -> Option<u32>
    requires { place < places inst.now }
    ensures within { IfSome result (λ other. other < places inst.now) }
    ensures two_way { IfSome result (λ other. is_two_way inst.now.orient ≡ true) }
{
    let _places = inst.places();
    if !inst.orient().is_two_way() {
        None
    } else if place % 2 == 1 {
        Some(place - 1)
    } else {
        Some(place + 1)
    }
}

/// The first place of a link.
fn first_place(inst: &Instance, link: LinkId) -> u32
    requires { link.0 < length inst.now.links }
    ensures { result < places inst.now }
{
    let _places = inst.places();
    if inst.orient().is_two_way() {
        2 * link.0
    } else {
        link.0
    }
}

/// Whether a cut crosses a place or the other place of its link.
fn is_crossed(table: &CutTable, place: u32) -> bool
    requires place { place < places table.now.problem }
{
    let inst = table.instance();
    if !table.crossings(place).is_empty() {
        return true;
    }
    match other_place(inst, place) {
        Some(other) => !table.crossings(other).is_empty(),
        None => false,
    }
}

/// What gives a link its value.
#[derive(Clone, Copy, Debug)]
pub(crate) struct Found {
    pub value: LinkValue,
    /// Its module cost, in thousandths of a cost grain.
    pub cost: u128,
}

/// What the loads of a place are worth.
#[derive(Clone, Copy)]
struct Side<'a> {
    range: LoadRange,
    /// Its price less a thousand routing costs, in thousandths of a cost grain per load grain.
    above: i128,
    has_rate: bool,
    /// What the counted grains are worth at each end, in thousandths of a cost grain.
    worths: &'a [u128],
}

impl Side<'_> {
    /// What the best loads of the place up to the end of this number leave. Prices times loads are far within 128 bits.
    fn left(self, number: usize, end: End) -> i128 {
        if self.above < 0 && !self.has_rate {
            return self
                .above
                .wrapping_mul(i128::from(self.range.least))
                .wrapping_neg();
        }
        let load = i128::from(end.load.min(self.range.most));
        let worth = i128::try_from(number_at(self.worths, number)).unwrap_or(i128::MAX);
        self.above
            .wrapping_mul(load)
            .wrapping_add(worth)
            .wrapping_neg()
    }

    /// The load of the place there: where its price is not above the routing costs, as little as leaves all grains that are
    /// counted at some rate.
    fn load_at(self, end: End, row: &[Crossing], rates: &[u128]) -> u64 {
        let most = end.load.min(self.range.most);
        if self.above > 0 {
            return most;
        }
        let mut load = self.range.least;
        for crossing in row {
            if number_at(rates, crossing.number as usize) > 0 {
                load = load.max(least_counted(crossing.batch, most));
            }
        }
        load
    }
}

/// What is left at an end.
fn left_at(number: usize, end: End, there: Side<'_>, back: Option<Side<'_>>) -> i128 {
    let left = end.cost.saturating_add(there.left(number, end));
    match back {
        Some(back) => left.saturating_add(back.left(number, end)),
        None => left,
    }
}

/// The first of the ends at which the least is left, and what that is.
fn best_end(ends: &[End], there: Side<'_>, back: Option<Side<'_>>) -> Option<(End, i128)> {
    let mut best: Option<(End, i128)> = None;
    for (number, end) in ends.iter().enumerate() {
        let left = left_at(number, *end, there, back);
        match best {
            Some((_, least)) if least <= left => {}
            _ => best = Some((*end, left)),
        }
    }
    best
}

/// The ends of the steps that the ranges of a place's link meet, and what the counted grains of the place are worth there.
#[derive(Drop)]
struct PlaceEnds {
    /// None where no cut crosses the link.
    ends: Vec<End>,
    /// What the cuts count at each end, those of one cut behind those of another; empty where there was no room for them.
    counts: Vec<u64>,
    /// What the counted grains are worth at each end, in thousandths of a cost grain.
    worths: Vec<u128>,
    /// How many cuts of the place's row have a rate.
    rated: usize,
}

impl PlaceEnds {
    /// No end.
    fn new(alloc: Global) -> PlaceEnds {
        PlaceEnds {
            ends: Vec::new(alloc),
            counts: Vec::new(alloc),
            worths: Vec::new(alloc),
            rated: 0,
        }
    }

    /// Adds the ends of the steps that the ranges of a place's link meet.
    fn meet(&mut self, node: &NodeMaster<'_>, place: u32) -> Result<(), AllocError>
        requires { place < places node.now.table.now.problem }
    {
        let (inst, ranges) = (node.table.instance(), &node.brief.ranges);
        let LoadRange {
            mut least,
            mut most,
        } = ranges.at(place);
        if let Some(other) = other_place(inst, place) {
            least = least.max(ranges.at(other).least);
            most = most.max(ranges.at(other).most);
        }
        let most = most.min(inst.total_load());
        let link = inst.link_of_place(place);
        self.fill(node.table.steps(), link, LoadRange { least, most })?;
        self.worths.resize(self.ends.len(), 0)?;
        Ok(())
    }

    /// Adds the ends from one load to another, of which the last is that other load.
    fn fill(&mut self, steps: &StepTable, link: LinkId, range: LoadRange) -> Result<(), AllocError>
        requires link { link.0 < length steps.now.links }
        requires range { range.most ≤ total_load steps.now }
    {
        let LoadRange { mut least, most } = range;
        for _step in 0..MAX_STEPS {
            match steps.first_step_end(link, LoadRange { least, most }) {
                Some(load) => {
                    self.ends.push(end_at(steps, link, load))?;
                    least = load + 1;
                }
                None => break,
            }
        }
        self.ends.push(end_at(steps, link, most))?;
        Ok(())
    }

    /// Keeps what the cuts of the place's row count, and gives how many counts that are; where there are more than so many,
    /// none.
    fn keep_counts(
        &mut self,
        range: LoadRange,
        row: &[Crossing],
        most: usize,
    ) -> Result<usize, AllocError> {
        if self.ends.len().saturating_mul(row.len()) > most {
            return Ok(0);
        }
        for crossing in row {
            for end in &self.ends {
                let load = end.load.min(range.most);
                self.counts.push(counted(crossing.batch, load))?;
            }
        }
        Ok(self.counts.len())
    }

    /// Adds to what the counted grains are worth what the cut at this place of the row counts, at a rate: modulo 2^128, so
    /// that a rate can be taken off again.
    fn add_worth(&mut self, range: LoadRange, at: usize, crossing: Crossing, rate: u128) {
        if self.counts.is_empty() {
            for (worth, end) in self.worths.iter_mut().zip(&self.ends) {
                let count = counted(crossing.batch, end.load.min(range.most));
                *worth = worth.wrapping_add(rate.wrapping_mul(u128::from(count)));
            }
        } else {
            let from = at.saturating_mul(self.ends.len()).min(self.counts.len());
            let (_, counts) = self.counts.split_at(from);
            for (worth, count) in self.worths.iter_mut().zip(counts) {
                *worth = worth.wrapping_add(rate.wrapping_mul(u128::from(*count)));
            }
        }
    }

    /// Weighs the counted grains at these rates.
    fn weigh(&mut self, range: LoadRange, row: &[Crossing], rates: &[u128]) {
        for worth in self.worths.iter_mut() {
            *worth = 0;
        }
        self.rated = 0;
        for (at, crossing) in row.iter().enumerate() {
            let rate = number_at(rates, crossing.number as usize);
            if rate > 0 {
                self.add_worth(range, at, *crossing, rate);
                self.rated = self.rated.saturating_add(1);
            }
        }
    }
}

/// The ends of all places, where there are cuts. No contract rests on it.
#[derive(Drop)]
pub(crate) struct Ends {
    places: Vec<PlaceEnds>,
}

impl Ends {
    /// Those under the ranges of a node; nothing is weighed yet.
    ///
    /// - Errors: want of memory alone.
    /// - Time: for each place the ends times the cuts that cross it.
    pub(crate) fn new(alloc: Global, node: &NodeMaster<'_>) -> Result<Ends, AllocError> {
        let (table, ranges) = (node.table, &node.brief.ranges);
        let mut places = Vec::new(alloc);
        let mut room = MOST_COUNTS;
        if table.count() > 0 {
            for place in 0..table.instance().places() {
                let mut ends = PlaceEnds::new(alloc);
                if is_crossed(table, place) {
                    ends.meet(node, place)?;
                }
                let row = table.crossings(place);
                let kept = ends.keep_counts(ranges.at(place), row, room)?;
                room = room.saturating_sub(kept);
                places.push(ends)?;
            }
        }
        Ok(Ends { places })
    }

    /// Weighs the counted grains of a place at these rates.
    fn weigh(&mut self, table: &CutTable, ranges: &Ranges, rates: &[u128], place: u32)
        requires place { place < places table.now.problem }
        requires ranges { length ranges.now ≡ places table.now.problem }
    {
        if let Some(ends) = self.places.get_mut(place as usize) {
            ends.weigh(ranges.at(place), table.crossings(place), rates);
        }
    }

    /// Weighs the counted grains of all places at the rates of these numbers.
    pub(crate) fn weigh_all(&mut self, table: &CutTable, ranges: &Ranges, numbers: &[u128])
        requires ranges { length ranges.now ≡ places table.now.problem }
    {
        let inst = table.instance();
        let (_, rates) = parted(numbers, inst.places() as usize);
        for place in 0..inst.places() {
            self.weigh(table, ranges, rates, place);
        }
    }

    /// Weighs the counted grains of a place after the rate of the cut at this place of its row moved.
    pub(crate) fn move_rate(
        &mut self,
        range: LoadRange,
        place: u32,
        at: usize,
        crossing: Crossing,
        old: u128,
        new: u128,
    ) {
        if let Some(ends) = self.places.get_mut(place as usize) {
            ends.add_worth(range, at, crossing, new.wrapping_sub(old));
            if old > 0 {
                ends.rated = ends.rated.saturating_sub(1);
            }
            if new > 0 {
                ends.rated = ends.rated.saturating_add(1);
            }
        }
    }

    /// The ends of a place.
    fn ends_at(&self, place: u32) -> &[End] {
        match self.places.get(place as usize) {
            Some(ends) => ends.ends.as_slice(),
            None => &[],
        }
    }

    /// Whether a cut that crosses a place had a rate when it was weighed.
    fn has_rate(&self, place: u32) -> bool {
        match self.places.get(place as usize) {
            Some(ends) => ends.rated > 0,
            None => false,
        }
    }

    /// The same of a place or the other place of its link.
    pub(crate) fn is_rated(&self, place: u32, other: Option<u32>) -> bool {
        self.has_rate(place) || other.is_some_and(|other| self.has_rate(other))
    }

    /// What the loads of a place are worth at these prices, with counted grains as they were weighed.
    fn side<'a>(&'a self, inst: &Instance, ranges: &Ranges, prices: &[u128], place: u32) -> Side<'a>
        requires place { place < places inst.now }
        requires ranges { length ranges.now ≡ places inst.now }
    {
        let price = number_at(prices, place as usize);
        let routing = inst.link(inst.link_of_place(place)).routing;
        let worths = match self.places.get(place as usize) {
            Some(ends) => ends.worths.as_slice(),
            None => &[],
        };
        Side {
            range: ranges.at(place),
            above: i128::try_from(price).unwrap_or(i128::MAX) - 1000 * i128::from(routing),
            has_rate: self.has_rate(place),
            worths,
        }
    }

    /// The same of the other place of a link, if it has one.
    fn other_side<'a>(
        &'a self,
        inst: &Instance,
        ranges: &Ranges,
        prices: &[u128],
        other: Option<u32>,
    ) -> Option<Side<'a>>
        requires other { IfSome other (λ other. other < places inst.now) }
        requires ranges { length ranges.now ≡ places inst.now }
    {
        match other {
            Some(other) => Some(self.side(inst, ranges, prices, other)),
            None => None,
        }
    }

    /// What gives a link its value at these numbers, which are weighed for it; None where no cut that crosses it has a rate.
    pub(crate) fn found(
        &mut self,
        table: &CutTable,
        ranges: &Ranges,
        numbers: &[u128],
        link: LinkId,
    ) -> Option<Found>
        requires ranges { length ranges.now ≡ places table.now.problem }
        requires link { link.0 < length table.now.problem.links }
    {
        let inst = table.instance();
        let place = first_place(inst, link);
        let other = other_place(inst, place);
        let (prices, rates) = parted(numbers, inst.places() as usize);
        self.weigh(table, ranges, rates, place);
        if let Some(other) = other {
            self.weigh(table, ranges, rates, other);
        }
        if !self.is_rated(place, other) {
            return None;
        }
        let there = self.side(inst, ranges, prices, place);
        let back = self.other_side(inst, ranges, prices, other);
        let (end, value) = best_end(self.ends_at(place), there, back)?;
        let back = match (other, back) {
            (Some(other), Some(back)) => back.load_at(end, table.crossings(other), rates),
            _ => 0,
        };
        let load = there.load_at(end, table.crossings(place), rates);
        Some(Found {
            value: LinkValue { value, load, back },
            cost: u128::try_from(end.cost).unwrap_or(0),
        })
    }

    /// Writes for each end of a place an amount there, and what is left beside what is asked for it: what a batch counts,
    /// beside the rate of its cut, which was weighed as 0; without a batch the load, beside the price of the place less
    /// routing costs.
    ///
    /// - Errors: want of memory alone.
    pub(crate) fn fill_hull(
        &self,
        inst: &Instance,
        ranges: &Ranges,
        numbers: &[u128],
        place: u32,
        batch: Option<Batch>,
        hull: &mut Hull,
    ) -> Result<(), AllocError>
        requires place { place < places inst.now }
        requires ranges { length ranges.now ≡ places inst.now }
    {
        let mut here = self.side(inst, ranges, numbers, place);
        if batch.is_none() {
            here.above = 0;
        }
        let other = self.other_side(inst, ranges, numbers, other_place(inst, place));
        hull.clear();
        for (number, end) in self.ends_at(place).iter().enumerate() {
            let load = end.load.min(here.range.most);
            let amount = match batch {
                Some(batch) => counted(batch, load),
                None => load,
            };
            let cost = left_at(number, *end, here, other);
            hull.add(Point { amount, cost })?;
        }
        Ok(())
    }
}
