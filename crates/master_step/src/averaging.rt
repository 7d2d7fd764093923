//! The averaged ascent: prices and rates moved towards what averages of columns, values and cuts disagree on.

ghost use Rattle.std.specs.Prelude.{◌≡◌, ◌<◌, ◌≤◌, ◌+◌, length, IfOk};
ghost use Rattle.plan_base.specs.Places.{places};
ghost use Rattle.cut_values.specs.Numbers.{AreNumbers};
ghost use Rattle.master_step.specs.Ascents.{HaveSizes};

use crate::ascending::put_price;
use crate::choice::number_at;
use crate::counts::rates_on;
use crate::limits::{MAX_CUT_TURNS, MAX_TURNS};
use crate::means::{Averages, mean_at};
use crate::node_master::NodeMaster;
use crate::pace::Pace;
use crate::work::{Parts, Work, parted, take_turn};
use cut_values::{CutTable, PriceBounds, SeenLoads};
use plan_base::{Instance, Prices};
use std::alloc::{AllocError, Global};

/// No rate is above this part of the price limit, so that those of as many cuts as there may be are together at most half of
/// it.
pub(crate) const RATE_SHARE: u128 = 512;

/// Keeps the prices of a turn where its value is better than that of all before.
fn keep_better(table: &CutTable, value: i128, trial: &Prices, pace: &mut Pace, best: &mut Prices)
    requires trial { AreNumbers table.now.problem table.now.cuts trial.now }
    requires best { AreNumbers table.now.problem table.now.cuts best.old }
    ensures { AreNumbers table.now.problem table.now.cuts best.new }
{
    if pace.take(value) {
        best.set_to(trial);
    }
}

/// How far the best numbers move: that with the widest gap by the most, others in proportion to their gaps.
#[derive(Clone, Copy)]
struct Move<'a> {
    best: &'a Prices,
    work: &'a Work,
    most: u128,
    widest: u64,
}

impl Move<'_> {
    /// A number moved by its gap.
    fn apply(self, number: u128, gap: u64, rises: bool) -> u128 {
        let step = self.most.saturating_mul(u128::from(gap)) / u128::from(self.widest.max(1));
        if rises {
            number.saturating_add(step)
        } else {
            number.saturating_sub(step)
        }
    }

    /// The best price of a place, moved as its averages ask for.
    fn price(self, place: u32) -> u128 {
        let price = number_at(self.best.as_slice(), place as usize);
        let mean = mean_at(self.work.means.as_slice(), place as usize);
        let rises = mean.column_load() > mean.value_load();
        self.apply(price, mean.gap(price), rises)
    }

    /// The best rate of a cut, which stands there among the numbers, moved as what the cut counts on average asks for.
    fn rate(self, at: u32, number: u32) -> u128 {
        let rate = number_at(self.best.as_slice(), at as usize);
        let count = self.work.counts.at(number as usize);
        self.apply(rate, count.gap(rate), count.is_short())
    }
}

/// A price as far as its bounds permit.
fn bounded(bounds: PriceBounds, price: u128) -> u128
    requires { bounds.least ≤ bounds.most }
    ensures least { bounds.least ≤ result }
    ensures most { result ≤ bounds.most }
{
    price.min(bounds.most).max(bounds.least)
}

/// Writes the best prices, each moved, over those of the last turn, as far as the rates permit.
fn move_prices(table: &CutTable, by: Move<'_>, trial: &mut Prices)
    requires trial { AreNumbers table.now.problem table.now.cuts trial.old }
    ensures { AreNumbers table.now.problem table.now.cuts trial.new }
{
    for place in 0..table.instance().places() {
        let bounds = table.price_bounds(trial, place);
        put_price(table, trial, place, bounded(bounds, by.price(place)));
    }
}

/// Writes the best rates, each moved, over those of the last turn: none above the most.
fn put_rates(table: &CutTable, by: Move<'_>, most: u128, trial: &mut Prices)
    requires { length trial.old ≡ places table.now.problem + length table.now.cuts }
    ensures { length trial.new ≡ length trial.old }
{
    let places = table.instance().places();
    for number in 0..table.count() {
        let at = places + number;
        trial.put(at, by.rate(at, number).min(most));
    }
}

/// A price moved, and beside these rates on its place as much as it has to be and as little as it may be.
fn price_beside(inst: &Instance, place: u32, rates: u128, limit: u128, price: u128) -> u128
    requires { place < places inst.now }
{
    if rates == 0 {
        return price.min(limit);
    }
    let routing = u128::from(inst.link(inst.link_of_place(place)).routing);
    price.max(1000 * routing).min(limit.saturating_sub(rates))
}

/// Writes the best prices, each moved, over those of the last turn, beside the rates that the turn has.
fn put_prices(table: &CutTable, by: Move<'_>, trial: &mut Prices)
    requires trial { length trial.old ≡ places table.now.problem + length table.now.cuts }
    ensures { length trial.new ≡ length trial.old }
{
    let inst = table.instance();
    let limit = inst.price_limit();
    for place in 0..inst.places() {
        let (_, rates) = parted(trial.as_slice(), inst.places() as usize);
        let beside = rates_on(table.crossings(place), rates);
        let price = price_beside(inst, place, beside, limit, by.price(place));
        trial.put(place, price);
    }
}

/// Writes the best numbers, each moved, over those of the last turn; where they are then not as they have to be, the best
/// ones as they are.
fn move_numbers(table: &CutTable, by: Move<'_>, trial: &mut Prices)
    requires best { AreNumbers table.now.problem table.now.cuts by.best.now }
    requires trial { AreNumbers table.now.problem table.now.cuts trial.old }
    ensures { AreNumbers table.now.problem table.now.cuts trial.new }
{
    let most = table.instance().price_limit() / RATE_SHARE;
    put_rates(table, by, most, trial);
    put_prices(table, by, trial);
    if !table.are_numbers(trial) {
        trial.set_to(by.best);
    }
}

/// Moves the numbers, or tells that no move is asked for.
fn move_on(
    table: &CutTable,
    goal: i128,
    pace: &Pace,
    best: &Prices,
    work: &Work,
    trial: &mut Prices,
) -> bool
    requires best { AreNumbers table.now.problem table.now.cuts best.now }
    requires trial { AreNumbers table.now.problem table.now.cuts trial.old }
    ensures { AreNumbers table.now.problem table.now.cuts trial.new }
{
    let widest = work.widest(best.as_slice());
    match pace.asked(goal) {
        Some(asked) if widest > 0 => {
            let most = work.move_of(best.as_slice(), widest, asked);
            let most = most.min(table.instance().price_limit());
            let by = Move {
                best,
                work,
                most,
                widest,
            };
            if table.count() == 0 {
                move_prices(table, by, trial);
            } else {
                move_numbers(table, by, trial);
            }
            true
        }
        _ => false,
    }
}

/// How many turns an averaged ascent makes at most.
fn turns_of(table: &CutTable) -> u32 {
    if table.count() == 0 {
        MAX_TURNS
    } else {
        MAX_CUT_TURNS
    }
}

/// The parts of a turn, all in the first one: with cuts averages are over more turns, and those that a division reads over
/// fewer.
fn parts_of(table: &CutTable, turn: u32) -> Parts {
    let (part, recent) = if table.count() == 0 {
        (40, 64)
    } else {
        (7, 128)
    };
    let mean = (64 / (u128::from(turn) + 1)).saturating_mul(4);
    Parts {
        part: if turn == 0 { 256 } else { part },
        recent: mean.max(recent),
    }
}

/// Puts the best numbers of the ascent over those that it begins with. Loads are noted in the last half of the turns.
fn climb(
    node: &NodeMaster<'_>,
    goal: i128,
    best: &mut Prices,
    trial: &mut Prices,
    seen: &mut SeenLoads,
    work: &mut Work,
)
    requires best { AreNumbers node.now.table.now.problem node.now.table.now.cuts best.old }
    requires trial { AreNumbers node.now.table.now.problem node.now.table.now.cuts trial.old }
    ensures { AreNumbers node.now.table.now.problem node.now.table.now.cuts best.new }
{
    let table = node.table;
    let turns = turns_of(table);
    let mut pace = Pace::new();
    for turn in 0..turns {
        let value = take_turn(node, trial, parts_of(table, turn), work);
        if turn >= turns / 2 {
            work.note_values(table.instance(), seen);
        }
        keep_better(table, value, trial, &mut pace, best);
        if !move_on(table, goal, &pace, best, work, trial) {
            return;
        }
    }
}

/// What an averaged ascent finds.
#[derive(Debug, Drop)]
pub struct AveragedAscent {
    /// One price for each place, in thousandths of a cost grain per load grain, and behind them one rate for each cut, in
    /// thousandths of a cost grain per counted grain.
    pub prices: Prices,
    /// What its turns come to on average.
    pub averages: Averages,
}

/// The averaged ascent: each turn moves the best prices so far up where the columns put more on a place on average than what
/// gives its link its value, and down where they put less, and the best rates up where the cuts count less of it on average
/// than at least, and down where they count more, by as much as would take the restricted value towards the goal.
///
/// - Takes: the goal, in thousandths of a cost grain; room for the loads that give the links their values, which are noted
///   in the last half of the turns that there may be.
/// - Gives: the best prices and rates that it met, those of the brief among them, which fit the instance.
/// - Errors: want of memory alone.
/// - Rule: docs/METHOD.md, "Master step".
/// - Time: at most `MAX_TURNS` times, with cuts `MAX_CUT_TURNS` times, the arcs of the columns of demands with more than one,
///   and as often one link value for each link and a look at the cuts that each place crosses.
pub fn averaged_seen(
    alloc: Global,
    node: &NodeMaster<'_>,
    goal: i128,
    seen: &mut SeenLoads,
) -> Result<AveragedAscent, AllocError>
    ensures prices { IfOk result (λ averaged. AreNumbers node.now.table.now.problem node.now.table.now.cuts averaged.prices) }
    ensures sizes { IfOk result (λ averaged. HaveSizes node.now.table.now.problem averaged.averages) }
{
    let mut work = Work::new(alloc, node)?;
    let mut best = node.brief.prices.copy()?;
    let mut trial = node.brief.prices.copy()?;
    climb(node, goal, &mut best, &mut trial, seen, &mut work);
    Ok(AveragedAscent {
        prices: best,
        averages: work.averages(alloc, node.table.instance())?,
    })
}

/// The averaged ascent, of which no loads are noted.
///
/// - Takes: the goal, in thousandths of a cost grain.
/// - Gives: what `averaged_seen` gives.
/// - Errors: want of memory alone.
/// - Rule: docs/METHOD.md, "Master step".
/// - Time: that of `averaged_seen`.
pub fn averaged(
    alloc: Global,
    node: &NodeMaster<'_>,
    goal: i128,
) -> Result<AveragedAscent, AllocError>
    ensures prices { IfOk result (λ averaged. AreNumbers node.now.table.now.problem node.now.table.now.cuts averaged.prices) }
    ensures sizes { IfOk result (λ averaged. HaveSizes node.now.table.now.problem averaged.averages) }
{
    let mut seen = SeenLoads::new(alloc, node.table.instance(), 0)?;
    averaged_seen(alloc, node, goal, &mut seen)
}
