//! The master step once more, plain and slow, with signed numbers. None stands where memory is wanting.

ghost use Rattle.std.specs.Prelude.{◌<◌, length};

use column_pool::Brief;
use gate_networks::module_costs;
use link_steps::LoadRange;
use plan_base::{ArcId, DemandId, Instance, Items, Link, LinkId, Orient, Path};
use std::alloc::Global;

/// How many trials are made.
const TRIALS: u32 = 24;

/// What the twin finds.
#[derive(Drop)]
pub(crate) struct Found {
    pub(crate) old: i128,
    /// The prices of the best trial; those of the brief where none gains.
    prices: Vec<i128>,
    pub(crate) new: Option<i128>,
}

/// An instance, the range of each place, and the columns of each demand.
#[derive(Clone, Copy)]
struct Asked<'a> {
    alloc: Global,
    inst: &'a Instance,
    ranges: &'a [LoadRange],
    lists: &'a [Items<Path>],
}

impl Found {
    /// Whether these are the prices of the best trial.
    pub(crate) fn has_prices(&self, prices: &[u128]) -> bool {
        for (found, price) in self.prices.iter().zip(prices) {
            if u128::try_from(*found) != Ok(*price) {
                return false;
            }
        }
        self.prices.len() == prices.len()
    }
}

/// The number at a place, 0 past the end.
fn at(numbers: &[i128], place: u32) -> i128 {
    numbers.get(place as usize).copied().unwrap_or(0)
}

/// The loads of a link's places, the second 0 where it has one place, and what they are worth.
#[derive(Clone, Copy)]
struct Worth {
    value: i128,
    loads: [i128; 2],
}

/// A link with what its modules cost for each need, and the prices and ranges of its places: where it has one, the second
/// price is 0, and the second range has the load 0 alone.
#[derive(Clone, Copy)]
struct Priced<'a> {
    link: &'a Link,
    costs: &'a [Option<i128>],
    prices: [i128; 2],
    ranges: [LoadRange; 2],
}

/// Whether the range has the load.
fn has(range: LoadRange, load: u64) -> bool {
    range.least <= load && load <= range.most
}

/// What loads there and back cost on the link, less what the prices give for them. None where it cannot carry them.
fn cost_at(priced: Priced<'_>, loads: [u64; 2]) -> Option<i128> {
    let need = loads[0].max(loads[1]).saturating_sub(priced.link.pre) as usize;
    let modules = priced.costs.get(need).copied().flatten()?;
    let [there, back] = [i128::from(loads[0]), i128::from(loads[1])];
    let routing = i128::from(priced.link.routing).saturating_mul(there.saturating_add(back));
    let cost = routing.saturating_add(modules).saturating_mul(1000);
    let paid = priced.prices[0].saturating_mul(there);
    Some(cost.saturating_sub(paid.saturating_add(priced.prices[1].saturating_mul(back))))
}

/// Whether a value is less than what is found.
fn is_less(value: i128, best: Option<Worth>) -> bool {
    match best {
        Some(best) => value < best.value,
        None => true,
    }
}

/// Takes the loads there and back, where they are in their ranges and their value is less than what is found.
fn take_loads(priced: Priced<'_>, loads: [u64; 2], best: &mut Option<Worth>) {
    if has(priced.ranges[0], loads[0])
        && has(priced.ranges[1], loads[1])
        && let Some(value) = cost_at(priced, loads)
        && is_less(value, *best)
    {
        *best = Some(Worth {
            value,
            loads: [i128::from(loads[0]), i128::from(loads[1])],
        });
    }
}

/// Where the price of the first of a link's places stands.
fn place_there(inst: &Instance, link: LinkId) -> u32 {
    match inst.orient() {
        Orient::Bidirected => link.0.saturating_mul(2),
        Orient::Directed | Orient::Undirected => link.0,
    }
}

/// The prices of a link's places, the second 0 where it has one place.
fn prices_at(inst: &Instance, prices: &[i128], link: LinkId) -> [i128; 2] {
    let place = place_there(inst, link);
    match inst.orient() {
        Orient::Bidirected => [at(prices, place), at(prices, place.saturating_add(1))],
        Orient::Directed | Orient::Undirected => [at(prices, place), 0],
    }
}

/// The range at a place; past the end it has the load 0 alone.
fn range_at(ranges: &[LoadRange], place: u32) -> LoadRange {
    let none = LoadRange { least: 0, most: 0 };
    ranges.get(place as usize).copied().unwrap_or(none)
}

/// The ranges of a link's places; the second has the load 0 alone where it has one place.
fn ranges_at(asked: Asked<'_>, link: LinkId) -> [LoadRange; 2] {
    let place = place_there(asked.inst, link);
    let there = range_at(asked.ranges, place);
    match asked.inst.orient() {
        Orient::Bidirected => [there, range_at(asked.ranges, place.saturating_add(1))],
        Orient::Directed | Orient::Undirected => [there, LoadRange { least: 0, most: 0 }],
    }
}

/// The value of a link at its prices, and of the loads that give it those whose larger one is smallest, and of these the
/// smallest: all loads are tried.
fn slow_value(asked: Asked<'_>, prices: &[i128], link: LinkId) -> Option<Worth>
    requires { link.0 < length asked.inst.now.links }
{
    let total = u64::from(u32::try_from(asked.inst.total_load()).unwrap_or(0));
    let costs = module_costs(asked.alloc, asked.inst.link(link), total)?;
    let priced = Priced {
        link: asked.inst.link(link),
        costs: &costs,
        prices: prices_at(asked.inst, prices, link),
        ranges: ranges_at(asked, link),
    };
    let mut best = None;
    for larger in 0..total.saturating_add(1) {
        if asked.inst.orient() == Orient::Bidirected {
            take_pairs(priced, larger, &mut best);
        } else {
            take_loads(priced, [larger, 0], &mut best);
        }
    }
    best
}

/// Takes the loads whose larger one is this, where their value is less than what is found: smaller loads there first.
fn take_pairs(priced: Priced<'_>, larger: u64, best: &mut Option<Worth>) {
    for load in 0..larger {
        take_loads(priced, [load, larger], best);
    }
    for back in 0..larger.saturating_add(1) {
        take_loads(priced, [larger, back], best);
    }
}

/// Where the price of an arc stands.
fn place_of(inst: &Instance, arc: ArcId) -> u32 {
    match inst.orient() {
        Orient::Bidirected => arc.0,
        Orient::Directed | Orient::Undirected => arc.0 / 2,
    }
}

/// What the path costs.
fn slow_price(inst: &Instance, path: &Path, prices: &[i128]) -> i128 {
    let mut total = 0i128;
    for arc in path.as_slice() {
        total = total.saturating_add(at(prices, place_of(inst, *arc)));
    }
    total
}

/// The place of the first path of least price, and that price.
fn slow_least(inst: &Instance, paths: &[Path], prices: &[i128]) -> (usize, i128) {
    let mut least = (0, i128::MAX);
    for (place, path) in paths.iter().enumerate() {
        let price = slow_price(inst, path, prices);
        if price < least.1 {
            least = (place, price);
        }
    }
    least
}

/// The paths of a demand.
fn list_at(lists: &[Items<Path>], place: u32) -> &[Path] {
    match lists.get(place as usize) {
        Some(list) => list.as_slice(),
        None => &[],
    }
}

/// The load of a demand.
fn load_of(inst: &Instance, demand: DemandId) -> i128
    requires { demand.0 < length inst.now.demands }
{
    i128::try_from(inst.demand(demand).load).unwrap_or(0)
}

/// Whether the first path of least price has an arc whose price stands at the place.
fn takes(inst: &Instance, paths: &[Path], prices: &[i128], place: u32) -> bool {
    let (least, _price) = slow_least(inst, paths, prices);
    match paths.get(least) {
        Some(path) => path
            .as_slice()
            .iter()
            .any(|arc| place_of(inst, *arc) == place),
        None => false,
    }
}

/// What the loads of all demands cost along paths of least price.
fn slow_paths(asked: Asked<'_>, prices: &[i128]) -> i128 {
    let mut total = 0i128;
    for place in 0..asked.inst.demands() {
        let (_place, price) = slow_least(asked.inst, list_at(asked.lists, place), prices);
        let load = load_of(asked.inst, DemandId(place));
        total = total.saturating_add(load.saturating_mul(price));
    }
    total
}

/// The restricted value of prices.
fn slow_restricted(asked: Asked<'_>, prices: &[i128]) -> Option<i128> {
    let mut total = slow_paths(asked, prices);
    for place in 0..asked.inst.links() {
        let worth = slow_value(asked, prices, LinkId(place))?;
        total = total.saturating_add(worth.value);
    }
    Some(total)
}

/// What the least paths put on a place.
fn slow_load(asked: Asked<'_>, prices: &[i128], place: u32) -> i128 {
    let mut total = 0i128;
    for demand in 0..asked.inst.demands() {
        if takes(asked.inst, list_at(asked.lists, demand), prices, place) {
            total = total.saturating_add(load_of(asked.inst, DemandId(demand)));
        }
    }
    total
}

/// For each place what the least paths put on it, less the load of it that gives its link's value.
fn slow_gaps(asked: Asked<'_>, prices: &[i128]) -> Option<Vec<i128>> {
    let mut gaps = Vec::new(asked.alloc);
    for number in 0..asked.inst.links() {
        let worth = slow_value(asked, prices, LinkId(number))?;
        let place = place_there(asked.inst, LinkId(number));
        gaps.push(slow_load(asked, prices, place).saturating_sub(worth.loads[0]))
            .ok()?;
        if asked.inst.orient() == Orient::Bidirected {
            let put = slow_load(asked, prices, place.saturating_add(1));
            gaps.push(put.saturating_sub(worth.loads[1])).ok()?;
        }
    }
    Some(gaps)
}

/// The greatest gap, of whichever sign.
fn widest_of(gaps: &[i128]) -> i128 {
    let mut widest = 0i128;
    for gap in gaps {
        widest = widest.max(*gap).max(0i128.saturating_sub(*gap));
    }
    widest
}

/// The greatest price of a place of a link that may carry load, and at least 1.
fn slow_greatest(inst: &Instance, prices: &[i128]) -> i128 {
    let mut greatest = 1;
    for link in 0..inst.links() {
        if inst.top_load(LinkId(link)) > 0 {
            let [there, back] = prices_at(inst, prices, LinkId(link));
            greatest = greatest.max(there).max(back);
        }
    }
    greatest
}

/// The prices moved by the gaps times the greatest price over a divisor, rounded toward 0.
fn slow_trial(
    asked: Asked<'_>,
    prices: &[i128],
    gaps: &[i128],
    divisor: i128,
) -> Option<Vec<i128>> {
    let limit = i128::try_from(asked.inst.price_limit()).unwrap_or(i128::MAX);
    let greatest = slow_greatest(asked.inst, prices);
    let mut trial = Vec::new(asked.alloc);
    for (price, gap) in prices.iter().zip(gaps) {
        let step = gap
            .saturating_mul(greatest)
            .checked_div(divisor)
            .unwrap_or(0);
        let moved = price.saturating_add(step).min(limit).max(0);
        trial.push(moved).ok()?;
    }
    Some(trial)
}

/// Takes the trial of a divisor, where its value is greater than what is found.
fn take_trial(
    asked: Asked<'_>,
    prices: &[i128],
    gaps: &[i128],
    divisor: i128,
    found: &mut Found,
) -> Option<()> {
    let trial = slow_trial(asked, prices, gaps, divisor)?;
    let value = slow_restricted(asked, &trial)?;
    if value > found.new.unwrap_or(found.old) {
        found.prices = trial;
        found.new = Some(value);
    }
    Some(())
}

/// Makes all trials from prices.
fn take_best(asked: Asked<'_>, prices: &[i128], found: &mut Found) -> Option<()> {
    let gaps = slow_gaps(asked, prices)?;
    let mut divisor = widest_of(&gaps);
    for _ in 0..TRIALS {
        take_trial(asked, prices, &gaps, divisor, found)?;
        divisor = divisor.saturating_mul(2);
    }
    Some(())
}

/// The prices with a sign.
fn signed(alloc: Global, prices: &[u128]) -> Option<Vec<i128>> {
    let mut numbers = Vec::new(alloc);
    for price in prices {
        numbers.push(i128::try_from(*price).unwrap_or(0)).ok()?;
    }
    Some(numbers)
}

/// The ranges of a brief, one for each place. None where they are not those of the instance.
fn ranges_of(alloc: Global, inst: &Instance, brief: &Brief) -> Option<Vec<LoadRange>> {
    if !brief.ranges.fits(inst) {
        return None;
    }
    let mut ranges = Vec::new(alloc);
    for place in 0..inst.places() {
        ranges.push(brief.ranges.at(place)).ok()?;
    }
    Some(ranges)
}

/// What the step of a brief is.
pub(crate) fn slow_step(alloc: Global, inst: &Instance, brief: &Brief) -> Option<Found> {
    let ranges = ranges_of(alloc, inst, brief)?;
    let asked = Asked {
        alloc,
        inst,
        ranges: &ranges,
        lists: brief.columns.as_slice(),
    };
    let prices = signed(alloc, brief.prices.as_slice())?;
    let mut found = Found {
        old: slow_restricted(asked, &prices)?,
        prices: signed(alloc, brief.prices.as_slice())?,
        new: None,
    };
    take_best(asked, &prices, &mut found)?;
    Some(found)
}
