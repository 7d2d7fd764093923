//! The search among the trials.

ghost use Rattle.std.specs.Prelude.{◌≡◌, ◌<◌, ◌≤◌, ◌+◌, length, slice_index, Option, Some, None, IfSome, IfNone};
ghost use Rattle.plan_base.specs.declared.limits.TheConstants.{MAX_TOTAL_LOAD};
ghost use Rattle.plan_base.specs.Facts.{price_limit};
ghost use Rattle.plan_base.specs.Places.{places};
ghost use Rattle.master_step.specs.Restricted.{IsRestrictedValue};
ghost use Rattle.master_step.specs.Trials.{widest_gap as widest_of, greatest_price as greatest_of};
ghost use Rattle.master_step.specs.Outcomes.{IsRaise, IsStalled};
ghost use Rattle.master_step.specs.Choosing.{allowed_of};
ghost use Rattle.master_step.specs.Climbing.{HasRoom, AreLow, HasLoads, AreMoved, IsMaster, better_of, AreTried};

use crate::gaps::{greatest_price, set_trial, widest_gap};
use crate::limits::MAX_TRIALS;
use crate::loads::{fill_column_loads, fill_value_loads};
use crate::rows::Rows;
use crate::source::Source;
use crate::valuing::value_of;
use cut_values::CutTable;
use link_steps::Ranges;
use plan_base::{Instance, Prices};

/// The best trial so far.
#[derive(Clone, Copy)]
pub struct Best {
    /// By which its moves are divided, in load grains.
    pub divisor: u128,
    /// Its restricted value, in thousandths of a cost grain.
    pub value: i128,
}

/// The trial, where its value is above that of the best one so far, or above the old value where there is none.
fn better(old: i128, best: Option<Best>, trial: Best) -> Option<Best>
    ensures { result ≡ better_of old best trial }
{
    match best {
        Some(held) => Some(if trial.value > held.value {
            trial
        } else {
            held
        }),
        None if trial.value > old => Some(trial),
        None => None,
    }
}

/// What a step is made of.
#[derive(Clone, Copy)]
pub struct Master<'a> {
    pub inst: &'a Instance,
    pub table: &'a CutTable,
    pub ranges: &'a Ranges,
    pub prices: &'a Prices,
    pub source: Source<'a>,
}

impl Master<'_> {
    /// Writes the loads of the columns and of the values into the rows.
    fn fill_loads(&self, rows: &mut Rows)
        requires master { IsMaster self.now }
        requires room { HasRoom (places self.now.inst.now + length self.now.table.now.cuts) rows.old }
        ensures room { HasRoom (places self.now.inst.now + length self.now.table.now.cuts) rows.new }
        ensures loads { HasLoads self.now.inst.now self.now.table.now.cuts self.now.ranges.now (allowed_of self.now.source) self.now.prices.now rows.new }
        ensures low { AreLow self.now.inst.now rows.new }
    {
        let _places = self.inst.places();
        let columns = rows.column_loads.as_mut_slice();
        fill_column_loads(self.inst, self.prices, &self.source, columns);
        let values = rows.value_loads.as_mut_slice();
        fill_value_loads(self.inst, self.table, self.ranges, self.prices, values);
    }

    /// The value of a trial, whose numbers it writes into the rows.
    fn try_one(&self, greatest: u128, divisor: u128, rows: &mut Rows) -> i128
        requires master { IsMaster self.now }
        requires room { HasRoom (places self.now.inst.now + length self.now.table.now.cuts) rows.old }
        requires low { AreLow self.now.inst.now rows.old }
        requires greatest { greatest ≤ price_limit self.now.inst.now }
        requires divisor { 0 < divisor }
        ensures value { IsRestrictedValue self.now.inst.now self.now.table.now.cuts self.now.ranges.now (allowed_of self.now.source) rows.new.trial result }
        ensures trial { AreMoved self.now.inst.now self.now.table.now.cuts self.now.prices.now greatest divisor rows.old rows.new.trial }
        ensures columns { rows.new.column_loads ≡ rows.old.column_loads }
        ensures values { rows.new.value_loads ≡ rows.old.value_loads }
    {
        set_trial(self.inst, self.table, self.prices, greatest, divisor, rows);
        value_of(
            self.inst,
            self.table,
            self.ranges,
            &rows.trial,
            &self.source,
        )
    }

    /// The best of all trials, if one is better than the old value.
    fn best_trial(&self, old: i128, greatest: u128, widest: u128, rows: &mut Rows) -> Option<Best>
        requires master { IsMaster self.now }
        requires room { HasRoom (places self.now.inst.now + length self.now.table.now.cuts) rows.old }
        requires low { AreLow self.now.inst.now rows.old }
        requires loads { HasLoads self.now.inst.now self.now.table.now.cuts self.now.ranges.now (allowed_of self.now.source) self.now.prices.now rows.old }
        requires greatest { greatest ≡ greatest_of self.now.inst.now self.now.prices.now }
        requires limit { greatest ≤ price_limit self.now.inst.now }
        requires widest { widest ≡ widest_of self.now.inst.now (slice_index rows.old.column_loads.items) (slice_index rows.old.value_loads.items) }
        requires some_gap { 0 < widest }
        requires narrow { widest ≤ MAX_TOTAL_LOAD }
        ensures best { AreTried self.now.inst.now self.now.table.now.cuts self.now.ranges.now (allowed_of self.now.source) self.now.prices.now old widest MAX_TRIALS result }
        ensures columns { rows.new.column_loads ≡ rows.old.column_loads }
        ensures values { rows.new.value_loads ≡ rows.old.value_loads }
        ensures room { HasRoom (places self.now.inst.now + length self.now.table.now.cuts) rows.new }
    {
        let mut best = None;
        let mut divisor = widest;
        for _trial in 0..MAX_TRIALS {
            let value = self.try_one(greatest, divisor, rows);
            best = better(old, best, Best { divisor, value });
            divisor *= 2;
        }
        best
    }

    /// The restricted value of the numbers, and of the first trial of greatest value where that is more. The rows then hold
    /// that trial.
    pub fn climb(&self, rows: &mut Rows) -> (i128, Option<i128>)
        requires master { IsMaster self.now }
        requires room { HasRoom (places self.now.inst.now + length self.now.table.now.cuts) rows.old }
        ensures raised { IfSome result.1 (IsRaise self.now.inst.now self.now.table.now.cuts self.now.ranges.now (allowed_of self.now.source) self.now.prices.now result.0 rows.new.trial) }
        ensures stalled { IfNone result.1 (IsStalled self.now.inst.now self.now.table.now.cuts self.now.ranges.now (allowed_of self.now.source) self.now.prices.now result.0) }
        ensures room { HasRoom (places self.now.inst.now + length self.now.table.now.cuts) rows.new }
    {
        let _total = self.inst.total_load();
        let old = value_of(
            self.inst,
            self.table,
            self.ranges,
            self.prices,
            &self.source,
        );
        self.fill_loads(rows);
        let widest = widest_gap(self.inst, rows);
        if widest == 0 {
            return (old, None);
        }
        let greatest = greatest_price(self.inst, self.prices);
        match self.best_trial(old, greatest, widest, rows) {
            None => (old, None),
            Some(best) => {
                set_trial(
                    self.inst,
                    self.table,
                    self.prices,
                    greatest,
                    best.divisor,
                    rows,
                );
                (old, Some(best.value))
            }
        }
    }
}
