//! What the turns of an averaged ascent work on.

ghost use Rattle.std.specs.Prelude.{◌≡◌, ◌<◌, length, IfOk};
ghost use Rattle.cut_values.specs.Numbers.{AreNumbers};
ghost use Rattle.master_step.specs.Ascents.{HaveSizes};

use crate::choice::{Choices, number_at, put_at};
use crate::counts::Counts;
use crate::leaving::{Ends, Found};
use crate::means::{Averages, Mean, moved_mean, recent_loads};
use crate::node_master::NodeMaster;
use cut_values::{CutTable, RatedRows, SeenLoads};
use link_steps::LinkValue;
use plan_base::{Instance, Items, LinkId, LinkPrices, Prices};
use std::alloc::{AllocError, Global};

/// By how many 256ths averages move in a turn.
#[derive(Clone, Copy)]
pub(crate) struct Parts {
    /// Those that moves follow.
    pub part: u128,
    /// Those that a division reads.
    pub recent: u128,
}

/// What the turns of an ascent work on. No contract rests on it.
#[derive(Drop)]
pub(crate) struct Work {
    pub choices: Choices,
    /// What the least columns put on each place, in load grains.
    pub column_loads: Vec<u128>,
    /// What gives each link its value, in load grains.
    pub value_loads: Vec<u128>,
    /// The averages of each place.
    pub means: Vec<Mean>,
    /// What each cut counts.
    pub counts: Counts,
    /// For each link the average module cost of the loads that give it its value, in thousandths of a cost grain.
    pub costs: Vec<u128>,
    /// The ends of steps, and what counted grains are worth there.
    pub ends: Ends,
    /// Room for the rates of a link's places.
    pub rows: RatedRows,
}

/// The prices of places, and the rates of cuts behind them.
pub(crate) fn parted(numbers: &[u128], places: usize) -> (&[u128], &[u128]) {
    numbers.split_at(places.min(numbers.len()))
}

/// The prices of the places of the link of this number, the second 0 where it has one place.
fn prices_of(prices: &[u128], is_two_way: bool, number: usize) -> LinkPrices {
    if is_two_way {
        let place = number.saturating_mul(2);
        LinkPrices {
            there: number_at(prices, place),
            back: number_at(prices, place.saturating_add(1)),
        }
    } else {
        LinkPrices {
            there: number_at(prices, number),
            back: 0,
        }
    }
}

/// The module cost of the loads that give a link its value, in thousandths of a cost grain: what prices ask of the loads and
/// the value together, less the routing costs. None of these passes 128 bits.
fn module_cost(found: LinkValue, priced: LinkPrices, routing: u64) -> u128 {
    let load = u128::from(found.load);
    let back = u128::from(found.back);
    let there = priced.there.wrapping_mul(load);
    let both = there.wrapping_add(priced.back.wrapping_mul(back));
    let whole = i128::try_from(both).unwrap_or(i128::MAX);
    let cost = u128::try_from(whole.saturating_add(found.value)).unwrap_or(0);
    let routed = u128::from(routing).wrapping_mul(load.wrapping_add(back));
    cost.saturating_sub(routed.wrapping_mul(1000))
}

impl Work {
    /// The work of an ascent over the columns of a node.
    ///
    /// - Errors: want of memory alone.
    pub(crate) fn new(alloc: Global, node: &NodeMaster<'_>) -> Result<Work, AllocError> {
        let table = node.table;
        let inst = table.instance();
        let places = inst.places() as usize;
        Ok(Work {
            choices: Choices::new(alloc, inst, node.brief.columns.as_slice())?,
            column_loads: vec![in alloc; 0; places]?,
            value_loads: vec![in alloc; 0; places]?,
            means: vec![in alloc; Mean::none(); places]?,
            counts: Counts::new(alloc, table)?,
            costs: vec![in alloc; 0; inst.links() as usize]?,
            ends: Ends::new(alloc, node)?,
            rows: table.rated_rows(),
        })
    }

    /// Writes the loads that give a link its value, and moves the average of their module cost.
    fn put_value(&mut self, is_two_way: bool, number: usize, found: Found, recent: u128) {
        let Found { value, cost } = found;
        let loads = self.value_loads.as_mut_slice();
        if is_two_way {
            put_at(loads, number.saturating_mul(2), u128::from(value.load));
            put_at(
                loads,
                number.saturating_mul(2).saturating_add(1),
                u128::from(value.back),
            );
        } else {
            put_at(loads, number, u128::from(value.load));
        }
        let held = number_at(self.costs.as_slice(), number);
        put_at(
            self.costs.as_mut_slice(),
            number,
            moved_mean(held, cost, recent),
        );
    }

    /// Counts the loads that give the links their values.
    fn count_values(&mut self, table: &CutTable) {
        let inst = table.instance();
        for place in 0..inst.places() {
            let load = number_at(self.value_loads.as_slice(), place as usize);
            let load = u64::try_from(load).unwrap_or(u64::MAX);
            self.counts
                .put(place as usize, table.crossings(place), load);
        }
    }

    /// Notes the loads that give the links their values, as far as there is room for them.
    pub(crate) fn note_values(&self, inst: &Instance, seen: &mut SeenLoads) {
        seen.begin_turn();
        if seen.turns() == 0 {
            return;
        }
        for place in 0..inst.places() {
            let load = number_at(self.value_loads.as_slice(), place as usize);
            seen.note(place, u64::try_from(load).unwrap_or(u64::MAX));
        }
    }

    /// Moves the averages of all places and cuts towards the loads of a turn.
    fn move_means(&mut self, parts: Parts) {
        for (place, mean) in self.means.iter_mut().enumerate() {
            let columns = number_at(self.column_loads.as_slice(), place);
            let values = number_at(self.value_loads.as_slice(), place);
            *mean = mean.moved(columns, values, parts.part, parts.recent);
        }
        self.counts.move_means(parts.part);
    }

    /// The widest gap between the averages of a place or a cut whose number may follow them, in load grains.
    pub(crate) fn widest(&self, numbers: &[u128]) -> u64 {
        let (prices, rates) = parted(numbers, self.means.len());
        let mut widest = self.counts.widest(rates);
        for (place, mean) in self.means.iter().enumerate() {
            widest = mean.gap(number_at(prices, place)).max(widest);
        }
        widest
    }

    /// The sum of the squares of these gaps, each without its last bits, so that 16 bits are left of the widest.
    fn squares(&self, numbers: &[u128], shift: u32) -> u64
        requires { shift < 64 }
    {
        let (prices, rates) = parted(numbers, self.means.len());
        let mut total = self.counts.squares(rates, shift);
        for (place, mean) in self.means.iter().enumerate() {
            let gap = mean.gap(number_at(prices, place)) >> shift;
            total = total.wrapping_add(gap.wrapping_mul(gap));
        }
        total
    }

    /// How far the number with the widest gap moves, so that the move asks for so many 64ths of thousandths of a cost grain.
    pub(crate) fn move_of(&self, numbers: &[u128], widest: u64, asked: u128) -> u128 {
        let shift = 48u32.saturating_sub(widest.leading_zeros());
        let squares = u128::from(self.squares(numbers, shift));
        let share = (squares << shift) / u128::from((widest >> shift).max(1));
        (asked / 64 / share.max(1)).max(1)
    }

    /// The average costs of all links, in cost grains.
    fn link_costs(&self, alloc: Global, inst: &Instance) -> Result<Items<u128>, AllocError>
        ensures { IfOk result (λ costs. length costs ≡ length inst.now.links) }
    {
        let mut costs = Vec::new(alloc);
        for number in 0..inst.links() {
            costs.push(number_at(self.costs.as_slice(), number as usize) / 1000)?;
        }
        Ok(Items::from_vec(costs))
    }

    /// What the averages come to.
    ///
    /// - Errors: want of memory alone.
    pub(crate) fn averages(&self, alloc: Global, inst: &Instance) -> Result<Averages, AllocError>
        ensures { IfOk result (HaveSizes inst.now) }
    {
        Ok(Averages {
            loads: recent_loads(alloc, inst, self.means.as_slice())?,
            costs: self.link_costs(alloc, inst)?,
        })
    }
}

/// What gives a link its value at these numbers, where no cut that crosses it has a rate.
fn unrated(node: &NodeMaster<'_>, numbers: &Prices, link: LinkId, rows: &mut RatedRows) -> Found
    requires numbers { AreNumbers node.now.table.now.problem node.now.table.now.cuts numbers.now }
    requires link { link.0 < length node.now.table.now.problem.links }
{
    let inst = node.table.instance();
    let is_two_way = inst.orient().is_two_way();
    let ranged = node.brief.ranges.of_link(inst, link);
    let value = node.table.link_value(link, ranged, numbers, rows);
    let priced = prices_of(numbers.as_slice(), is_two_way, link.0 as usize);
    Found {
        value,
        cost: module_cost(value, priced, inst.link(link).routing),
    }
}

/// Writes the loads that give the links their values at these numbers, and gives the sum of the values, in thousandths of a
/// cost grain.
fn fill_values(node: &NodeMaster<'_>, numbers: &Prices, recent: u128, work: &mut Work) -> i128
    requires { AreNumbers node.now.table.now.problem node.now.table.now.cuts numbers.now }
{
    let (table, ranges) = (node.table, &node.brief.ranges);
    let inst = table.instance();
    let is_two_way = inst.orient().is_two_way();
    let has_cuts = table.count() > 0;
    let mut total: i128 = 0;
    for number in 0..inst.links() {
        let link = LinkId(number);
        let rated = if has_cuts {
            work.ends.found(table, ranges, numbers.as_slice(), link)
        } else {
            None
        };
        let found = match rated {
            Some(found) => found,
            None => unrated(node, numbers, link, &mut work.rows),
        };
        work.put_value(is_two_way, number as usize, found, recent);
        total = total.saturating_add(found.value.value);
    }
    total
}

/// Moves the averages towards what columns and values put on the places at these numbers, and towards what the cuts count of
/// it, and gives the restricted value, in thousandths of a cost grain.
pub(crate) fn take_turn(
    node: &NodeMaster<'_>,
    numbers: &Prices,
    parts: Parts,
    work: &mut Work,
) -> i128
    requires { AreNumbers node.now.table.now.problem node.now.table.now.cuts numbers.now }
{
    let table = node.table;
    let values = fill_values(node, numbers, parts.recent, work);
    if table.count() > 0 {
        work.count_values(table);
    }
    let loads = work.column_loads.as_mut_slice();
    let priced = work.choices.fill(numbers.as_slice(), loads);
    work.move_means(parts);
    let sums = priced.saturating_add(table.cut_total(numbers));
    i128::try_from(sums)
        .unwrap_or(i128::MAX)
        .saturating_add(values)
}
