//! The worths of the loads of a place, in one row.

ghost use Rattle.std.specs.Prelude.{ℕ, ◌≡◌, ◌<◌, ◌≤◌, ◌+◌, ◌*◌, ◌^◌, length, slice_index, IfOk};
ghost use Rattle.plan_base.specs.Sums.{sum_below};
ghost use Rattle.plan_base.specs.Facts.{price_limit};
ghost use Rattle.demand_worth.specs.Measures.{measure};
ghost use Rattle.demand_worth.specs.Surcharges.{on_place, greatest_of};
ghost use Rattle.demand_worth.specs.Worths.{load_of, weight_at, with_one, best_of, worth_in, AreWorths};

use crate::limits::{MAX_MEASURES, MAX_SURCHARGES};
use crate::measuring::measure;
use crate::surcharges::{Surcharge, Surcharges};
use plan_base::Instance;
use plan_base::limits::MAX_PRICED_LOAD;
use std::alloc::{AllocError, Global};
use std::marker::Model;

/// The load of a surcharge's demand, in load grains; 0 where there is no such demand.
fn load_of(inst: &Instance, surcharge: &Surcharge) -> u64
    ensures { result ≡ load_of inst.now surcharge.now }
{
    if surcharge.demand.0 < inst.demands() {
        inst.demand(surcharge.demand).load as u64
    } else {
        0
    }
}

/// Puts one demand more into the cells before a count: each capacity, from the greatest down, takes it where that brings
/// more.
fn put_one(cells: &mut [u128], count: usize, weight: usize, gain: u128)
    requires count { count ≤ length cells.old }
    requires gain { (c : ℕ) → c < count → slice_index cells.old c + gain < 2 ^ 128 }
    ensures { (c : ℕ) → c < count → slice_index cells.new c ≡ with_one (slice_index cells.old) weight gain c }
{
    let mut capacity = count;
    while capacity > weight {
        capacity -= 1;
        let with = cells[capacity - weight] + gain;
        cells[capacity] = cells[capacity].max(with);
    }
}

/// Empties the cells before a count.
fn empty(cells: &mut [u128], count: usize)
    requires { count ≤ length cells.old }
    ensures { (c : ℕ) → c < count → slice_index cells.new c ≡ 0 }
{
    for capacity in 0..count {
        cells[capacity] = 0;
    }
}

/// What a demand brings by its surcharge, in thousandths of a cost grain.
fn gain_of(surcharge: &Surcharge, load: u64) -> u128
    requires { surcharge.now.number * load ≤ MAX_PRICED_LOAD }
    ensures { result ≡ surcharge.now.number * load }
{
    surcharge.number * u128::from(load)
}

/// Puts into each cell before a count the most that demands with these surcharges bring to its capacity.
fn fill(inst: &Instance, unit: u64, here: &[Surcharge], cells: &mut [u128], count: usize)
    requires unit { 1 ≤ unit }
    requires few { length here.now ≤ MAX_SURCHARGES }
    requires limit { greatest_of here.now ≤ price_limit inst.now }
    requires count { count ≤ length cells.old }
    ensures { (c : ℕ) → c < count → slice_index cells.new c ≡ best_of inst.now unit here.now (length here.now) c }
{
    empty(cells, count);
    for surcharge in here {
        let load = load_of(inst, surcharge);
        put_one(
            cells,
            count,
            (load / unit) as usize,
            gain_of(surcharge, load),
        );
    }
}

/// The weights of the demands of these surcharges together.
fn weight_total(inst: &Instance, unit: u64, here: &[Surcharge]) -> usize
    requires unit { 1 ≤ unit }
    requires few { (n : ℕ) → n ≤ length here.now → sum_below (weight_at inst.now unit here.now) n ≤ MAX_MEASURES }
    ensures { result ≡ sum_below (weight_at inst.now unit here.now) (length here.now) }
{
    let mut total = 0;
    for surcharge in here {
        total += (load_of(inst, surcharge) / unit) as usize;
    }
    total
}

/// Puts the worths at a place of loads up to the most into the cells, and tells the last one that is in use: the capacity
/// that the most load has, or that holds all demands with surcharges on the place.
fn lay_row(
    inst: &Instance,
    unit: u64,
    surcharges: &Surcharges,
    place: u32,
    most: u64,
    cells: &mut [u128],
) -> usize
    requires unit { unit ≡ measure inst.now }
    requires room { length cells.old ≡ MAX_MEASURES + 1 }
    requires limit { greatest_of (on_place surcharges.now place) ≤ price_limit inst.now }
    ensures within { result ≤ MAX_MEASURES }
    ensures worths { AreWorths inst.now surcharges.now place most (record { unit = unit; last = result; cells = cells.new }) }
{
    let here = surcharges.on_place(place);
    let last = weight_total(inst, unit, here).min((most / unit) as usize);
    fill(inst, unit, here, cells, last + 1);
    last
}

/// The worths of the loads of one place at a time, in room that is taken once.
///
/// Contracts see its cells: what each capacity up to the last brings at most, in measures of an instance.
#[derive(Debug, Drop)]
pub struct WorthRow {
    unit: u64,
    last: usize,
    cells: Vec<u128>,
}

impl Model for WorthRow {
    ghost use Rattle.demand_worth.specs.Worths.{WorthCells, AreCells};

    ghost Value = { WorthCells };

    ghost view = { λ a. record { unit = a.unit; last = a.last; cells = a.cells.items } };

    ghost invariant = { λ a. AreCells (record { unit = a.unit; last = a.last; cells = a.cells.items }) };
}

impl WorthRow {
    /// Room for the worths of any place of an instance.
    ///
    /// - Errors: want of memory alone.
    /// - Time: linear in the demands and `MAX_MEASURES`.
    pub fn new(alloc: Global, inst: &Instance) -> Result<WorthRow, AllocError>
        ensures { IfOk result (λ row. row.unit ≡ measure inst.now) }
    {
        Ok(WorthRow {
            unit: measure(inst),
            last: 0,
            cells: vec![in alloc; 0; MAX_MEASURES + 1]?,
        })
    }

    /// Makes it the worths at a place of loads up to the most. Takes no memory.
    ///
    /// - Takes: the instance that it was made for; surcharges of which none on the place is above the price limit; a load in
    ///   load grains.
    /// - Rule: docs/DEFINITIONS.md, "Worth of a load".
    /// - Time: at most `MAX_MEASURES` steps for each surcharge on the place.
    pub fn set_to(&mut self, inst: &Instance, surcharges: &Surcharges, place: u32, most: u64)
        requires measure { self.old.unit ≡ measure inst.now }
        requires limit { greatest_of (on_place surcharges.now place) ≤ price_limit inst.now }
        ensures worths { AreWorths inst.now surcharges.now place most self.new }
        ensures measure { self.new.unit ≡ self.old.unit }
    {
        let cells = self.cells.as_mut_slice();
        self.last = lay_row(inst, self.unit, surcharges, place, most, cells);
    }

    /// The worth of a load.
    ///
    /// - Takes: load grains.
    /// - Gives: thousandths of a cost grain.
    /// - Time: constant.
    pub fn at(&self, load: u64) -> u128
        ensures { result ≡ worth_in self.now load }
    {
        self.cells[((load / self.unit) as usize).min(self.last)]
    }
}
