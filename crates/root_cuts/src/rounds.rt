//! Rounds at the whole region: prices and rates rise, and cuts are found that the loads seen violate.

ghost use Rattle.std.specs.Prelude.{◌≡◌, length, OnOk};
ghost use Rattle.cut_values.specs.Numbers.{AreNumbers};

use crate::bounding::bound_at;
use crate::limits::{FOUND_IN_ROUND, IDLE_ROUNDS, LEAST_GAIN, TRUSTED_ROUNDS};
use crate::lists::{is_marked, marked, marked_numbers, put_list, rate_at, tested, widened};
use crate::rising::{Risen, rise};
use crate::seeker::{Ground, Sight};
use cut_values::CutTable;
use plan_base::Prices;
use proof_tree::Cut;
use std::alloc::AllocError;

/// Where the rounds stand.
#[derive(Drop)]
pub(crate) struct Standing {
    /// The numbers that the next round begins with.
    numbers: Prices,
    /// Those of the greatest bound.
    pub(crate) best: Prices,
    /// The greatest bound, in cost grains.
    bound: i128,
    /// The bound at the start prices, in cost grains.
    plain: i128,
    /// For each cut for how many rounds it has had no rate.
    idle: Vec<u32>,
    /// The greatest restricted value that an ascent came to, in cost grains.
    value: i128,
    /// How many rounds have gone.
    rounds: u32,
}

/// Nine tenths of each price, or as much as the rates beside it ask for, and the rates as they are.
fn lowered(ground: Ground<'_>, table: &CutTable, numbers: &Prices) -> Result<Prices, AllocError>
    requires table { table.now.problem ≡ ground.inst.now }
    requires numbers { AreNumbers ground.inst.now table.now.cuts numbers.now }
{
    let mut lower = numbers.copy()?;
    for place in 0..ground.inst.places() {
        let bounds = table.price_bounds(numbers, place);
        let price = numbers.as_slice()[place as usize] / 10 * 9;
        lower.put(place, price.max(bounds.least));
    }
    Ok(lower)
}

/// The prices and the rates of the marked cuts, with a rate of 0 for each cut that they have none for.
fn renewed(
    ground: Ground<'_>,
    numbers: &Prices,
    marks: &[bool],
    count: u32,
) -> Result<Prices, AllocError> {
    let kept = marked_numbers(ground.alloc, ground.inst, numbers, marks)?;
    widened(ground.alloc, ground.inst, &kept, count)
}

impl Standing {
    /// Before the first round, at numbers of this bound.
    pub(crate) fn at(
        ground: Ground<'_>,
        numbers: Prices,
        bound: i128,
    ) -> Result<Standing, AllocError> {
        Ok(Standing {
            best: numbers.copy()?,
            numbers,
            bound,
            plain: bound,
            idle: Vec::new(ground.alloc),
            value: bound,
            rounds: 0,
        })
    }

    /// Whether a bound is so much above that at the start prices that cuts are worth the time that they take.
    fn is_worthwhile(&self, bound: i128) -> bool {
        bound.saturating_sub(self.plain) >= self.plain / LEAST_GAIN
    }

    /// Whether further rounds may make cuts worth their time: values rise early if they rise at all.
    fn is_promising(&self) -> bool {
        self.rounds < TRUSTED_ROUNDS || self.is_worthwhile(self.value)
    }

    /// Takes in what an ascent came to.
    fn rise(&mut self, numbers: Prices, value: i128) {
        self.numbers = numbers;
        self.value = self.value.max(value / 1000);
        self.rounds = self.rounds.saturating_add(1);
    }

    /// Takes the bound of the numbers in, where it is the greatest.
    fn take(&mut self, bound: i128) -> Result<(), AllocError> {
        if bound > self.bound {
            self.bound = bound;
            self.best = self.numbers.copy()?;
        }
        Ok(())
    }

    /// Counts for how many rounds each cut has had no rate, and marks those that stay: which have had one lately, or have one
    /// where the bound is greatest.
    fn marks(&mut self, ground: Ground<'_>, count: u32) -> Result<Vec<bool>, AllocError> {
        let mut marks = Vec::new(ground.alloc);
        for number in 0..count as usize {
            let before = self.idle.get(number).copied().unwrap_or(0);
            let is_used = rate_at(ground.inst, &self.numbers, number) > 0;
            let idle = if is_used { 0 } else { before.saturating_add(1) };
            if let Some(entry) = self.idle.get_mut(number) {
                *entry = idle;
            }
            marks.push(idle < IDLE_ROUNDS || rate_at(ground.inst, &self.best, number) > 0)?;
        }
        Ok(marks)
    }

    /// Marks the cuts that have a rate where the bound is greatest, or none where they raise it by little.
    fn last_marks(&self, ground: Ground<'_>, count: u32) -> Result<Vec<bool>, AllocError> {
        let is_worthwhile = self.is_worthwhile(self.bound);
        let mut marks = Vec::new(ground.alloc);
        for number in 0..count as usize {
            marks.push(is_worthwhile && rate_at(ground.inst, &self.best, number) > 0)?;
        }
        Ok(marks)
    }

    /// For how many rounds each marked cut has had no rate, and 0 for each cut that is new.
    fn renewed_idle(
        &self,
        ground: Ground<'_>,
        marks: &[bool],
        count: u32,
    ) -> Result<Vec<u32>, AllocError> {
        let mut kept = Vec::new(ground.alloc);
        for (number, rounds) in self.idle.iter().enumerate() {
            if is_marked(marks, number) {
                kept.push(*rounds)?;
            }
        }
        kept.resize(count as usize, 0)?;
        Ok(kept)
    }

    /// Lets go of what is known of the cuts that are not marked, and makes room for as many as there are now.
    fn renew(&mut self, ground: Ground<'_>, marks: &[bool], count: u32) -> Result<(), AllocError> {
        self.numbers = renewed(ground, &self.numbers, marks, count)?;
        self.best = renewed(ground, &self.best, marks, count)?;
        self.idle = self.renewed_idle(ground, marks, count)?;
        Ok(())
    }
}

/// One round: the bound at the numbers, and an ascent from lower prices. False where the rounds are to end.
fn go_round(
    ground: Ground<'_>,
    table: &CutTable,
    sight: &mut Sight,
    standing: &mut Standing,
) -> Result<bool, AllocError>
    requires table { table.now.problem ≡ ground.inst.now }
    requires count { length sight.old.columns ≡ length ground.inst.now.demands }
    ensures { OnOk result (length sight.new.columns ≡ length ground.entry.inst.now.demands) }
{
    let Some(bound) = bound_at(
        ground,
        table,
        ground.whole,
        &standing.numbers,
        &mut sight.columns,
    )?
    else {
        return Ok(false);
    };
    standing.take(bound)?;
    if standing.bound >= sight.aim.bound() || !standing.is_promising() {
        return Ok(false);
    }
    if !table.are_numbers(&standing.numbers) {
        return Ok(false);
    }
    let start = lowered(ground, table, &standing.numbers)?;
    match rise(
        ground,
        table,
        sight,
        ground.whole,
        &start,
        &standing.numbers,
    )? {
        Some(
            Risen {
                numbers,
                value,
                averages: _averages,
            },
        ) => {
            standing.rise(numbers, value);
            Ok(true)
        }
        None => Ok(false),
    }
}

/// The cuts of the table that are marked, and those that the loads seen violate.
fn next_cuts(
    ground: Ground<'_>,
    table: &CutTable,
    sight: &Sight,
    marks: &[bool],
) -> Result<Vec<Cut>, AllocError> {
    let stay = marked(ground.alloc, table.cuts(), marks)?;
    let mut cuts = tested(ground.alloc, ground.inst, stay).into_vec();
    sight.search.extend(
        ground.alloc,
        ground.inst,
        &sight.seen,
        FOUND_IN_ROUND,
        &mut cuts,
    )?;
    Ok(cuts)
}

/// Leaves the table the cuts that stay, and puts those in that the loads seen violate.
fn renew_table(
    ground: Ground<'_>,
    table: &mut CutTable,
    sight: &Sight,
    standing: &mut Standing,
) -> Result<(), AllocError>
    requires { table.old.problem ≡ ground.inst.now }
    ensures { table.new.problem ≡ table.old.problem }
{
    let marks = standing.marks(ground, table.count())?;
    let cuts = next_cuts(ground, table, sight, &marks)?;
    put_list(ground.alloc, ground.inst, table, cuts)?;
    standing.renew(ground, &marks, table.count())
}

/// Leaves the table the cuts that have a rate where the bound is greatest, or none where they raise it by little.
fn narrow_table(
    ground: Ground<'_>,
    table: &mut CutTable,
    standing: &mut Standing,
) -> Result<(), AllocError>
    requires { table.old.problem ≡ ground.inst.now }
    ensures { table.new.problem ≡ table.old.problem }
{
    let marks = standing.last_marks(ground, table.count())?;
    let stay = marked(ground.alloc, table.cuts(), &marks)?;
    put_list(ground.alloc, ground.inst, table, stay)?;
    standing.renew(ground, &marks, table.count())
}

/// Goes so many rounds, and leaves the table the cuts that have a rate where the bound is greatest.
pub(crate) fn go_rounds(
    ground: Ground<'_>,
    table: &mut CutTable,
    most: u32,
    sight: &mut Sight,
    standing: &mut Standing,
) -> Result<(), AllocError>
    requires table { table.old.problem ≡ ground.inst.now }
    requires count { length sight.old.columns ≡ length ground.inst.now.demands }
    ensures table { table.new.problem ≡ table.old.problem }
    ensures count { OnOk result (length sight.new.columns ≡ length ground.entry.inst.now.demands) }
{
    for _round in 0..most {
        if !go_round(ground, table, sight, standing)? {
            return narrow_table(ground, table, standing);
        }
        renew_table(ground, table, sight, standing)?;
    }
    if let Some(bound) = bound_at(
        ground,
        table,
        ground.whole,
        &standing.numbers,
        &mut sight.columns,
    )? {
        standing.take(bound)?;
    }
    narrow_table(ground, table, standing)
}
