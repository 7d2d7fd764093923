//! The columns of the demands as lists of places, and what the least of them put on each place.

ghost use Rattle.std.specs.Prelude.{◌<◌, length};

use plan_base::{DemandId, Instance, Items, Path};
use std::alloc::{AllocError, Global};

/// The number at a place, and 0 where there is none.
pub(crate) fn number_at(numbers: &[u128], place: usize) -> u128 {
    numbers.get(place).copied().unwrap_or(0)
}

/// Puts a number at a place, where there is one.
pub(crate) fn put_at(numbers: &mut [u128], place: usize, number: u128) {
    if let Some(held) = numbers.get_mut(place) {
        *held = number;
    }
}

/// Adds a load to the number at a place, where there is one.
fn add_at(loads: &mut [u128], place: usize, load: u128) {
    if let Some(held) = loads.get_mut(place) {
        *held = held.wrapping_add(load);
    }
}

/// What a route costs, in thousandths of a cost grain per load grain, or some number above the limit where it costs more;
/// far below 2^128, as prices are within their limit.
fn route_price(prices: &[u128], route: &[u32], limit: u128) -> u128 {
    let mut total: u128 = 0;
    for place in route {
        total = total.wrapping_add(number_at(prices, *place as usize));
        if total > limit {
            return total;
        }
    }
    total
}

/// Adds a load to each place of a route.
fn add_route(loads: &mut [u128], route: &[u32], load: u128) {
    for place in route {
        add_at(loads, *place as usize, load);
    }
}

/// The places from one on to below another, as far as there are some.
fn part_of(places: &[u32], from: usize, to: usize) -> &[u32] {
    let (front, _) = places.split_at(to.min(places.len()));
    let (_, part) = front.split_at(from.min(front.len()));
    part
}

/// Where the places of a column stand among those of all columns: from one on to below another.
#[derive(Clone, Copy)]
struct Span {
    from: usize,
    to: usize,
}

/// What a demand with more than one column chooses among.
#[derive(Clone, Copy)]
struct Choice {
    /// The load of the demand, in load grains.
    load: u128,
    /// The number of its first column.
    start: usize,
    /// The number behind that of its last column.
    end: usize,
    /// The number of the column that was the least at the prices before.
    least: usize,
}

/// The columns of the demands that have more than one.
#[derive(Drop)]
struct Routes {
    spans: Vec<Span>,
    places: Vec<u32>,
}

impl Routes {
    /// Adds a column.
    fn add(&mut self, inst: &Instance, path: &Path) -> Result<(), AllocError> {
        let from = self.places.len();
        for arc in path.as_slice() {
            self.places.push(inst.place(*arc))?;
        }
        let to = self.places.len();
        self.spans.push(Span { from, to })?;
        Ok(())
    }

    /// The places that the column of this number goes along.
    fn at(&self, column: usize) -> &[u32] {
        let span = self
            .spans
            .get(column)
            .copied()
            .unwrap_or(Span { from: 0, to: 0 });
        part_of(self.places.as_slice(), span.from, span.to)
    }

    /// The first column of least price among those of a choice, and that price. The column that was the least before mostly
    /// still is, so others are given up where they cost more.
    fn least(&self, choice: Choice, prices: &[u128]) -> (usize, u128) {
        let mut least = choice.least;
        let mut least_price = route_price(prices, self.at(least), u128::MAX);
        for column in choice.start..choice.end {
            let price = route_price(prices, self.at(column), least_price);
            if price < least_price || price == least_price && column < least {
                least = column;
                least_price = price;
            }
        }
        (least, least_price)
    }

    /// Loads the least column of a choice, keeps its number, and gives what it costs.
    fn take(&self, choice: &mut Choice, prices: &[u128], loads: &mut [u128]) -> u128 {
        let (least, price) = self.least(*choice, prices);
        choice.least = least;
        add_route(loads, self.at(least), choice.load);
        choice.load.saturating_mul(price)
    }
}

/// The columns of all demands. No contract rests on it: what comes of it is valued anew.
#[derive(Drop)]
pub(crate) struct Choices {
    choices: Vec<Choice>,
    routes: Routes,
    /// What the demands with one column put on each place, in load grains.
    held: Vec<u128>,
}

/// Writes what is held over the loads, and gives what it costs.
fn put_held(held: &[u128], prices: &[u128], loads: &mut [u128]) -> u128 {
    let mut total: u128 = 0;
    for (place, load) in held.iter().enumerate() {
        put_at(loads, place, *load);
        total = total.saturating_add(load.saturating_mul(number_at(prices, place)));
    }
    total
}

/// Adds a load to each place that a path goes along.
fn add_path(inst: &Instance, loads: &mut [u128], path: &Path, load: u128) {
    for arc in path.as_slice() {
        add_at(loads, inst.place(*arc) as usize, load);
    }
}

impl Choices {
    /// The columns of the lists.
    ///
    /// - Errors: want of memory alone.
    /// - Time: linear in the places and in the arcs of all columns.
    pub(crate) fn new(
        alloc: Global,
        inst: &Instance,
        lists: &[Items<Path>],
    ) -> Result<Choices, AllocError> {
        let mut choices = Choices {
            choices: Vec::new(alloc),
            routes: Routes {
                spans: Vec::new(alloc),
                places: Vec::new(alloc),
            },
            held: vec![in alloc; 0; inst.places() as usize]?,
        };
        for place in 0..inst.demands() {
            if let Some(list) = lists.get(place as usize) {
                choices.add(inst, DemandId(place), list.as_slice())?;
            }
        }
        Ok(choices)
    }

    /// Adds the columns of the next demand: one alone is held, of more one is chosen.
    fn add(&mut self, inst: &Instance, demand: DemandId, paths: &[Path]) -> Result<(), AllocError>
        requires { demand.0 < length inst.now.demands }
    {
        let load = inst.demand(demand).load;
        match paths {
            [] => Ok(()),
            [path] => {
                add_path(inst, self.held.as_mut_slice(), path, load);
                Ok(())
            }
            _ => self.add_choice(inst, load, paths),
        }
    }

    /// Adds a choice among columns.
    fn add_choice(
        &mut self,
        inst: &Instance,
        load: u128,
        paths: &[Path],
    ) -> Result<(), AllocError> {
        let start = self.routes.spans.len();
        for path in paths {
            self.routes.add(inst, path)?;
        }
        let end = self.routes.spans.len();
        self.choices.push(Choice {
            load,
            start,
            end,
            least: start,
        })?;
        Ok(())
    }

    /// Writes what the least columns put on each place, and gives what they cost, in thousandths of a cost grain.
    ///
    /// - Time: linear in the places and at most in the arcs of the columns of demands with more than one.
    pub(crate) fn fill(&mut self, prices: &[u128], loads: &mut [u128]) -> u128 {
        let mut total = put_held(self.held.as_slice(), prices, loads);
        for choice in self.choices.iter_mut() {
            total = total.saturating_add(self.routes.take(choice, prices, loads));
        }
        total
    }
}
