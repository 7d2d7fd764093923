//! What the columns cost, and which of them go over each place.

ghost use Rattle.std.specs.Prelude.{◌≡◌, length};

use crate::share::{Share, Ways};
use arc_restrict::price_along;
use plan_base::{DemandId, Instance, Items, Path};
use std::alloc::{AllocError, Global};

/// A column over a place.
#[derive(Clone, Copy)]
struct Crossing {
    /// The number of its demand.
    demand: usize,
    /// Its place among the columns of all demands.
    column: usize,
}

/// What a demand chooses among.
#[derive(Clone, Copy)]
struct Choice {
    /// The load of the demand, in load grains.
    load: u128,
    /// The place of its first column among those of all demands.
    start: usize,
    /// The place behind its last column.
    end: usize,
}

/// What the columns cost at some prices, and which of them go over each place. No contract rests on it: what comes of it is
/// valued anew.
#[derive(Drop)]
pub(crate) struct Crossings {
    choices: Vec<Choice>,
    /// What each column costs, in thousandths of a cost grain per load grain; those of one demand behind those of another.
    lengths: Vec<u128>,
    /// For each place the columns over it, in the order of their places.
    over: Vec<Vec<Crossing>>,
}

/// A row for each place, with no column in it.
fn empty_rows(alloc: Global, places: u32) -> Result<Vec<Vec<Crossing>>, AllocError> {
    let mut over = Vec::new(alloc);
    for _place in 0..places {
        over.push(Vec::new(alloc))?;
    }
    Ok(over)
}

/// Writes a column into the rows of the places that its path goes along.
fn write_crossings(
    inst: &Instance,
    over: &mut [Vec<Crossing>],
    path: &Path,
    crossing: Crossing,
) -> Result<(), AllocError> {
    for arc in path.as_slice() {
        if let Some(row) = over.get_mut(inst.place(*arc) as usize) {
            row.push(crossing)?;
        }
    }
    Ok(())
}

/// The smaller one.
fn smaller(held: Option<u128>, length: u128) -> Option<u128> {
    Some(held.map_or(length, |held| held.min(length)))
}

/// The ways of a demand over and around a place of this price; the crossings are the place's, from the demand's first one
/// on.
fn ways_of(lengths: &[u128], choice: Choice, crossings: &[Crossing], price: u128) -> Ways {
    let mut over = None;
    let mut around = None;
    let mut rest = crossings;
    for column in choice.start..choice.end {
        let length = lengths.get(column).copied().unwrap_or(0);
        match rest.split_first() {
            Some((crossing, others)) if crossing.column == column => {
                over = smaller(over, length.saturating_sub(price));
                rest = others;
            }
            _ => around = smaller(around, length),
        }
    }
    Ways { over, around }
}

/// Puts a column's length after the price of one of its places moved.
fn move_length(lengths: &mut [u128], column: usize, old: u128, new: u128) {
    if let Some(length) = lengths.get_mut(column) {
        *length = length.saturating_sub(old).saturating_add(new);
    }
}

/// Puts the lengths of a place's columns after its price moved.
fn move_lengths(lengths: &mut [u128], crossings: &[Crossing], old: u128, new: u128) {
    for crossing in crossings {
        move_length(lengths, crossing.column, old, new);
    }
}

impl Crossings {
    /// The columns of the lists at these prices.
    ///
    /// - Takes: a list of columns for each demand, and a price for each place.
    /// - Errors: want of memory alone.
    /// - Time: linear in the places and in the arcs of all columns.
    pub(crate) fn new(
        alloc: Global,
        inst: &Instance,
        lists: &[Items<Path>],
        prices: &[u128],
    ) -> Result<Crossings, AllocError>
        requires { length lists.now ≡ length inst.now.demands }
    {
        let mut crossings = Crossings {
            choices: Vec::new(alloc),
            lengths: Vec::new(alloc),
            over: empty_rows(alloc, inst.places())?,
        };
        for place in 0..inst.demands() {
            let load = inst.demand(DemandId(place)).load;
            crossings.add(inst, load, lists[place as usize].as_slice(), prices)?;
        }
        Ok(crossings)
    }

    /// Adds the columns of the next demand.
    fn add(
        &mut self,
        inst: &Instance,
        load: u128,
        paths: &[Path],
        prices: &[u128],
    ) -> Result<(), AllocError> {
        let demand = self.choices.len();
        let start = self.lengths.len();
        for path in paths {
            let column = self.lengths.len();
            write_crossings(inst, &mut self.over, path, Crossing { demand, column })?;
            self.lengths
                .push(price_along(inst, prices, path.as_slice()))?;
        }
        let end = self.lengths.len();
        self.choices.push(Choice { load, start, end })?;
        Ok(())
    }

    /// Writes what all demands do with a place of this price. Demands without a column over it are not looked at.
    ///
    /// - Errors: want of memory alone.
    /// - Time: linear in the columns of the demands that have one over the place.
    pub(crate) fn fill_share(
        &self,
        place: u32,
        price: u128,
        share: &mut Share,
    ) -> Result<(), AllocError> {
        share.clear();
        match self.over.get(place as usize) {
            Some(row) => self.add_row(row.as_slice(), price, share),
            None => Ok(()),
        }
    }

    /// Adds what the demands with these crossings do with their place.
    fn add_row(
        &self,
        crossings: &[Crossing],
        price: u128,
        share: &mut Share,
    ) -> Result<(), AllocError> {
        let mut last = None;
        for (place, crossing) in crossings.iter().enumerate() {
            if last != Some(crossing.demand) {
                self.add_demand(crossing.demand, &crossings[place..], price, share)?;
                last = Some(crossing.demand);
            }
        }
        Ok(())
    }

    /// Adds what a demand does with a place, of whose crossings those from the demand's first one on are given.
    fn add_demand(
        &self,
        demand: usize,
        crossings: &[Crossing],
        price: u128,
        share: &mut Share,
    ) -> Result<(), AllocError> {
        match self.choices.get(demand) {
            Some(choice) => {
                let ways = ways_of(self.lengths.as_slice(), *choice, crossings, price);
                share.add(ways, choice.load)
            }
            None => Ok(()),
        }
    }

    /// Puts the lengths after the price of a place moved.
    ///
    /// - Time: linear in the columns over the place.
    pub(crate) fn move_price(&mut self, place: u32, old: u128, new: u128) {
        if let Some(row) = self.over.get(place as usize) {
            move_lengths(self.lengths.as_mut_slice(), row.as_slice(), old, new);
        }
    }
}
