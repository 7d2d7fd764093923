//! The ascent: each place's own price in turn, to the best that it can be.

ghost use Rattle.std.specs.Prelude.{◌≡◌, ◌<◌, ◌≤◌, false, length, IfOk};
ghost use Rattle.plan_base.specs.Facts.{price_limit};
ghost use Rattle.plan_base.specs.Places.{is_two_way, places};
ghost use Rattle.master_step.specs.Columns.{columns_at, HasColumns};
ghost use Rattle.master_step.specs.Restricted.{AreRanges, AreNumbers};
ghost use Rattle.cut_values.specs.Numbers.{IsPriceWithin};
ghost use Rattle.master_step.specs.Ascents.{IsAscent};
ghost use Rattle.master_step.specs.Climbing.{IsTurn};

use crate::crossings::Crossings;
use crate::gaps::greatest_price;
use crate::hull::{Hull, Point};
use crate::leaving::{Ends, other_place};
use crate::node_master::NodeMaster;
use crate::rating::moved_rates;
use crate::searching::first_not_rising;
use crate::share::Share;
use crate::source::Source;
use crate::valuing::value_of;
use cut_values::{CutTable, PriceBounds};
use link_steps::{LinkRanges, LinkValue, Ranges, StepTable};
use plan_base::{Instance, LinkId, Prices};
use std::alloc::{AllocError, Global};

/// How many times the greatest price a price may become.
const MOST_TIMES: u128 = 4096;

/// A link of which one place's price is moved.
#[derive(Clone, Copy)]
pub struct Turn {
    pub link: LinkId,
    /// The ranges of its places.
    pub ranges: LinkRanges,
    /// Whether the place is that of its arc back, where it has two.
    pub is_back: bool,
    /// The price of its other place, in thousandths of a cost grain per load grain, and 0 where it has none.
    pub other: u128,
    /// From where to where a price is looked for.
    pub bounds: PriceBounds,
}

/// A place on whose link a rate is above 0.
#[derive(Clone, Copy)]
struct RatedPlace<'a> {
    /// What is left of the link's costs beside the price of the place less routing costs.
    hull: &'a Hull,
    /// A thousand routing costs, in thousandths of a cost grain per load grain.
    routing: u128,
    /// The least load of the place.
    least: u64,
}

impl RatedPlace<'_> {
    /// What the link has at this price of the place; the load is given for both places.
    fn found_at(self, price: u128) -> LinkValue {
        let Point { amount, cost } = self.hull.least(price.saturating_sub(self.routing));
        if price >= self.routing {
            return LinkValue {
                value: cost,
                load: amount,
                back: amount,
            };
        }
        let routed = (self.routing - price).saturating_mul(u128::from(self.least));
        LinkValue {
            value: cost.saturating_add(i128::try_from(routed).unwrap_or(i128::MAX)),
            load: self.least,
            back: self.least,
        }
    }
}

/// What the price of a place is looked for by.
#[derive(Clone, Copy)]
pub struct Seeker<'a> {
    steps: &'a StepTable,
    turn: Turn,
    share: &'a Share,
    /// Where a rate is above 0 on a place of its link.
    rated: Option<RatedPlace<'a>>,
}

impl Seeker<'_> {
    /// What the link has at this price of the place.
    fn found_at(self, price: u128) -> LinkValue
        requires turn { IsTurn self.steps.now self.turn }
        requires price { price ≤ price_limit self.steps.now }
    {
        let turn = self.turn;
        if let Some(rated) = self.rated {
            return rated.found_at(price);
        }
        let (there, back) = if turn.is_back {
            (turn.other, price)
        } else {
            (price, turn.other)
        };
        self.steps.link_value(turn.link, turn.ranges, there, back)
    }

    /// The part of the restricted value that the price of this place decides.
    fn worth(self, price: u128) -> i128
        requires turn { IsTurn self.steps.now self.turn }
        requires price { price ≤ price_limit self.steps.now }
    {
        self.share
            .income(price)
            .saturating_add(self.found_at(price).value)
    }

    /// The load that the place has where the link has this value, in load grains.
    fn load_of(self, found: LinkValue) -> i128 {
        i128::from(if self.turn.is_back {
            found.back
        } else {
            found.load
        })
    }

    /// Whether the next higher price is worth more: it brings in more by the loads that stay, and the value of the link falls
    /// by at least the load that the place has.
    fn rises(self, price: u128) -> bool
        requires turn { IsTurn self.steps.now self.turn }
        requires price { price < price_limit self.steps.now }
    {
        let rise = self.share.rise(price);
        let found = self.found_at(price);
        if rise <= self.load_of(found) {
            return false;
        }
        let next = self.found_at(price + 1);
        found.value.saturating_sub(next.value) < rise
    }

    /// The least price within the bounds from which on a higher one is worth no more.
    fn best_price(self, price: u128) -> u128
        requires { IsTurn self.steps.now self.turn }
        ensures least { self.entry.turn.bounds.least ≤ result }
        ensures most { result ≤ self.entry.turn.bounds.most }
    {
        let PriceBounds { least, most } = self.turn.bounds;
        first_not_rising(least, most, price, |price| self.rises(price))
    }
}

/// Whether the place is that of its link's arc back, where the link has two.
fn is_back(inst: &Instance, place: u32) -> bool
    ensures { is_two_way inst.now.orient ≡ false → result ≡ false }
{
    inst.orient().is_two_way() && place % 2 == 1
}

/// The price of the other place of a place's link, and 0 where it has none.
fn other_price(table: &CutTable, prices: &Prices, place: u32) -> u128
    requires place { place < places table.now.problem }
    requires prices { AreNumbers table.now.problem table.now.cuts prices.now }
    ensures within { result ≤ price_limit table.now.problem }
    ensures one_way { is_two_way table.now.problem.orient ≡ false → result ≡ 0 }
{
    match other_place(table.instance(), place) {
        Some(other) => prices.as_slice()[other as usize],
        None => 0,
    }
}

/// From where to where a price is looked for: as the rates permit, and not above this most.
fn bounds_of(bounds: PriceBounds, most: u128) -> PriceBounds
    requires { bounds.least ≤ bounds.most }
    ensures order { result.least ≤ result.most }
    ensures least { result.least ≡ bounds.least }
    ensures most { result.most ≤ bounds.most }
{
    let PriceBounds { least, .. } = bounds;
    PriceBounds {
        least,
        most: bounds.most.min(most).max(least),
    }
}

/// The turn of a place, whose price becomes at most this.
fn turn_of(table: &CutTable, ranges: &Ranges, prices: &Prices, place: u32, most: u128) -> Turn
    requires place { place < places table.now.problem }
    requires ranges { AreRanges table.now.problem ranges.now }
    requires prices { AreNumbers table.now.problem table.now.cuts prices.now }
    ensures turn { IsTurn table.now.problem result }
    ensures least { IsPriceWithin table.now.problem table.now.cuts prices.now place result.bounds.least }
    ensures most { IsPriceWithin table.now.problem table.now.cuts prices.now place result.bounds.most }
{
    let inst = table.instance();
    let link = inst.link_of_place(place);
    Turn {
        link,
        ranges: ranges.of_link(inst, link),
        is_back: is_back(inst, place),
        other: other_price(table, prices, place),
        bounds: bounds_of(table.price_bounds(prices, place), most),
    }
}

/// Puts the price of a place.
pub(crate) fn put_price(table: &CutTable, prices: &mut Prices, place: u32, price: u128)
    requires place { place < places table.now.problem }
    requires prices { AreNumbers table.now.problem table.now.cuts prices.old }
    requires price { IsPriceWithin table.now.problem table.now.cuts prices.old place price }
    ensures { AreNumbers table.now.problem table.now.cuts prices.new }
{
    prices.put(place, price);
}

/// What a pass over the prices works on.
#[derive(Drop)]
struct Pass {
    /// The most that a price becomes, in thousandths of a cost grain per load grain.
    most: u128,
    crossings: Crossings,
    share: Share,
    /// That of the place that is moved, where a rate is above 0 on its link.
    hull: Hull,
}

impl Pass {
    /// Writes what a place's price is looked for by, and tells whether a rate is above 0 on its link.
    fn look(
        &mut self,
        inst: &Instance,
        ranges: &Ranges,
        ends: &Ends,
        numbers: &Prices,
        place: u32,
        price: u128,
    ) -> Result<bool, AllocError>
        requires place { place < places inst.now }
        requires ranges { AreRanges inst.now ranges.now }
    {
        self.crossings.fill_share(place, price, &mut self.share)?;
        let is_rated = ends.is_rated(place, other_place(inst, place));
        if is_rated {
            ends.fill_hull(
                inst,
                ranges,
                numbers.as_slice(),
                place,
                None,
                &mut self.hull,
            )?;
        }
        Ok(is_rated)
    }

    /// What the price of a place is looked for by.
    fn seeker<'a>(
        &'a self,
        inst: &Instance,
        steps: &'a StepTable,
        turn: Turn,
        is_rated: bool,
    ) -> Seeker<'a>
        requires link { turn.link.0 < length inst.now.links }
        ensures turn { result.turn ≡ turn }
        ensures steps { result.steps.now ≡ steps.now }
    {
        let ranged = if turn.is_back {
            turn.ranges.back
        } else {
            turn.ranges.there
        };
        let rated = RatedPlace {
            hull: &self.hull,
            routing: 1000 * u128::from(inst.link(turn.link).routing),
            least: ranged.least,
        };
        Seeker {
            steps,
            turn,
            share: &self.share,
            rated: if is_rated { Some(rated) } else { None },
        }
    }
}

/// Moves the price of a place to where it is worth most, if that is more than what it is worth now.
fn move_place(
    table: &CutTable,
    ranges: &Ranges,
    ends: &Ends,
    pass: &mut Pass,
    moved: &mut Prices,
    place: u32,
) -> Result<(), AllocError>
    requires ranges { AreRanges table.now.problem ranges.now }
    requires place { place < places table.now.problem }
    requires prices { AreNumbers table.now.problem table.now.cuts moved.old }
    ensures { AreNumbers table.now.problem table.now.cuts moved.new }
{
    let inst = table.instance();
    let turn = turn_of(table, ranges, moved, place, pass.most);
    let price = moved.as_slice()[place as usize];
    let is_rated = pass.look(inst, ranges, ends, moved, place, price)?;
    let seeker = pass.seeker(inst, table.steps(), turn, is_rated);
    let best = seeker.best_price(price);
    if seeker.worth(best) > seeker.worth(price) {
        pass.crossings.move_price(place, price, best);
        put_price(table, moved, place, best);
    }
    Ok(())
}

/// The numbers after each place whose link may carry load had its own price moved once, in the order of the places.
fn moved_prices(
    alloc: Global,
    node: &NodeMaster<'_>,
    ends: &Ends,
    prices: &Prices,
) -> Result<Prices, AllocError>
    requires { AreNumbers node.now.table.now.problem node.now.table.now.cuts prices.now }
    ensures { IfOk result (AreNumbers node.now.table.now.problem node.now.table.now.cuts) }
{
    let (table, ranges) = (node.table, &node.brief.ranges);
    let inst = table.instance();
    let greatest = greatest_price(inst, prices).saturating_mul(MOST_TIMES);
    let mut moved = prices.copy()?;
    let mut pass = Pass {
        most: inst.price_limit().min(greatest),
        crossings: Crossings::new(
            alloc,
            inst,
            node.brief.columns.as_slice(),
            prices.as_slice(),
        )?,
        share: Share::new(alloc),
        hull: Hull::new(alloc),
    };
    for place in 0..inst.places() {
        if inst.top_load(inst.link_of_place(place)) > 0 {
            move_place(table, ranges, ends, &mut pass, &mut moved, place)?;
        }
    }
    Ok(moved)
}

/// The numbers after one pass over the prices, and where there are cuts one over the rates.
fn moved_numbers(alloc: Global, node: &NodeMaster<'_>, from: &Prices) -> Result<Prices, AllocError>
    requires { AreNumbers node.now.table.now.problem node.now.table.now.cuts from.now }
    ensures { IfOk result (AreNumbers node.now.table.now.problem node.now.table.now.cuts) }
{
    let (table, ranges) = (node.table, &node.brief.ranges);
    let mut ends = Ends::new(alloc, node)?;
    ends.weigh_all(table, ranges, from.as_slice());
    let moved = moved_prices(alloc, node, &ends, from)?;
    if table.count() == 0 {
        Ok(moved)
    } else {
        moved_rates(alloc, table, ranges, &mut ends, &moved)
    }
}

/// Numbers, and what they are worth.
#[derive(Debug, Drop)]
pub struct Ascent {
    /// One price for each place, in thousandths of a cost grain per load grain, and behind them one rate for each cut, in
    /// thousandths of a cost grain per counted grain.
    pub prices: Prices,
    /// The restricted value of the numbers that the ascent began with, in thousandths of a cost grain.
    pub old: i128,
    /// The restricted value of its numbers, in thousandths of a cost grain.
    pub new: i128,
}

/// One pass of ascent from the prices and rates of a brief.
///
/// - Takes: a node whose brief has a column for each demand.
/// - Gives: what `ascend_from` gives.
/// - Errors: want of memory alone.
/// - Rule: docs/METHOD.md, "Restricted value".
/// - Time: that of `ascend_from`.
pub fn ascend(alloc: Global, node: &NodeMaster<'_>) -> Result<Ascent, AllocError>
    requires columns { HasColumns node.now.table.now.problem (columns_at node.now.brief.now.columns) }
    ensures { IfOk result (IsAscent node.now.table.now.problem node.now.table.now.cuts node.now.brief.now.ranges (columns_at node.now.brief.now.columns) node.now.brief.now.prices) }
{
    ascend_from(alloc, node, &node.brief.prices)
}

/// One pass of ascent: moves the price of each place in turn to where the restricted value is greatest under the ranges and
/// over the columns of a brief, with all other numbers as they are by then, and as far as the rates permit.
///
/// - Takes: a node whose brief has a column for each demand; prices and rates that fit it.
/// - Gives: prices and rates that fit the instance; their restricted value is at least that of the given ones.
/// - Errors: want of memory alone.
/// - Rule: docs/METHOD.md, "Restricted value".
/// - Time: linear in the arcs of all columns, and for each place in the columns of the demands that have one over it and in
///   what the search for its price asks of them.
pub fn ascend_from(
    alloc: Global,
    node: &NodeMaster<'_>,
    from: &Prices,
) -> Result<Ascent, AllocError>
    requires columns { HasColumns node.now.table.now.problem (columns_at node.now.brief.now.columns) }
    requires from { AreNumbers node.now.table.now.problem node.now.table.now.cuts from.now }
    ensures { IfOk result (IsAscent node.now.table.now.problem node.now.table.now.cuts node.now.brief.now.ranges (columns_at node.now.brief.now.columns) from.now) }
{
    let (table, ranges) = (node.table, &node.brief.ranges);
    let inst = table.instance();
    let lists = node.brief.columns.as_slice();
    let source = Source::Lists(lists);
    let prices = moved_numbers(alloc, node, from)?;
    let old = value_of(inst, table, ranges, from, &source);
    let new = value_of(inst, table, ranges, &prices, &source);
    if new < old {
        let prices = from.copy()?;
        return Ok(Ascent {
            prices,
            old,
            new: old,
        });
    }
    Ok(Ascent { prices, old, new })
}
