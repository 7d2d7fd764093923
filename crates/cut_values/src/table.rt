//! The cut table: a step table, a list of cuts, and for each place the cuts that it crosses.

ghost use Rattle.std.specs.Prelude.{ℕ, false, ◌≡◌, ◌<◌, ◌≤◌, ◌-◌, ◌*◌, ◌+◌, ◌↔◌, ◌-ℤ◌, ◌≤ℤ◌, pos, length, slice_index, IfOk, OnOk, IsTrue};
ghost use Rattle.plan_base.specs.declared.limits.TheConstants.{MAX_PRICED_LOAD};
ghost use Rattle.plan_base.specs.Facts.{price_limit};
ghost use Rattle.plan_base.specs.Places.{is_two_way, places, there_of, back_of};
ghost use Rattle.link_steps.specs.Ranges.{AreRanges};
ghost use Rattle.link_steps.specs.Values.{AreLinkRanges};
ghost use Rattle.arc_restrict.specs.Prices.{AreWithinLimit};
ghost use Rattle.proof_tree.specs.declared.limits.TheConstants.{MAX_CUTS};
ghost use Rattle.proof_tree.specs.Cuts.{least_count, cut_at, IsCutList};
ghost use Rattle.proof_tree.specs.RatedBounds.{crossing_rates, cut_total, IsRatedPrice, IsRatedTotal};
ghost use Rattle.proof_tree.specs.RatedEvidence.{rates_in};
ghost use Rattle.cut_values.specs.Numbers.{AreNumbers, AreStartNumbers, least_price_at, most_price_at};
ghost use Rattle.cut_values.specs.LinkValues.{IsNumbersValue, AreFirstNumbersLoads};
ghost use Rattle.cut_values.specs.Crossings.{crossings_on, crossings_there, crossings_back, used, AreNumbered};

use crate::crossing::{Crossing, crossing_rows};
use crate::numbers::{least_price, rates_of, rates_on, with_no_rates};
use crate::rated_rows::{RatedRows, empty_rows, put_used};
use link_steps::{LinkRanges, LinkValue, Ranges, StepTable, tally};
use plan_base::{Instance, Items, LinkId, LinkPrices, Prices};
use proof_tree::{Cut, are_within_limit, cut_total, rests_of};
use std::alloc::{AllocError, Global};
use std::marker::Model;

/// What the price of a place may be beside the rates of the cuts that the place crosses.
#[derive(Clone, Copy, Debug, PartialEq, Eq)]
pub struct PriceBounds {
    /// The least, in thousandths of a cost grain per load grain.
    pub least: u128,
    /// The most, in the same unit.
    pub most: u128,
}

/// An instance's step table with a list of cuts.
///
/// Contracts see it as the instance and the list. It keeps for each place the cuts that the place crosses, so that a link
/// value takes time in them alone.
#[derive(Debug, Drop)]
pub struct CutTable {
    steps: StepTable,
    /// The price limit of the instance.
    limit: u128,
    cuts: Items<Cut>,
    /// What crosses each cut beyond what it leaves out, in load grains.
    rests: Vec<u64>,
    /// For each place the cuts that it crosses.
    rows: Vec<Items<Crossing>>,
}

impl Model for CutTable {
    ghost use Rattle.cut_values.specs.Numbers.{CutProblem};
    ghost use Rattle.cut_values.specs.Crossings.{IsKept};

    ghost Value = { CutProblem };

    ghost view = { λ a. record { problem = a.steps; cuts = a.cuts } };

    ghost invariant = { λ a. IsKept a.steps a.limit a.cuts a.rests.items a.rows.items };
}

impl CutTable {
    /// The table of an instance and a list of cuts.
    ///
    /// - Takes: the step table of the instance; cuts of the instance, as `is_cut_list` of `proof_tree` wants them.
    /// - Errors: want of memory alone.
    /// - Rule: docs/DEFINITIONS.md, "Cuts".
    /// - Time: for each cut linear in the demands and the places.
    pub fn new(alloc: Global, steps: StepTable, cuts: Items<Cut>) -> Result<CutTable, AllocError>
        requires { IsCutList steps cuts }
        ensures { IfOk result (λ table. table ≡ record { problem = steps; cuts = cuts }) }
    {
        let inst = steps.instance();
        let limit = inst.price_limit();
        let rests = rests_of(alloc, inst, cuts.as_slice())?;
        let rows = crossing_rows(alloc, inst, cuts.as_slice(), &rests)?;
        Ok(CutTable {
            steps,
            limit,
            cuts,
            rests,
            rows,
        })
    }

    /// Puts another list of cuts in the place of these, over the same steps.
    ///
    /// - Takes: cuts of the instance, as `new` wants them.
    /// - Errors: want of memory alone; the table is then as it was.
    /// - Rule: docs/DEFINITIONS.md, "Cuts".
    /// - Time: for each cut linear in the demands and the places.
    pub fn put_cuts(&mut self, alloc: Global, cuts: Items<Cut>) -> Result<(), AllocError>
        requires { IsCutList self.old.problem cuts }
        ensures problem { self.new.problem ≡ self.old.problem }
        ensures cuts { OnOk result (self.new.cuts ≡ cuts) }
    {
        let inst = self.steps.instance();
        let rests = rests_of(alloc, inst, cuts.as_slice())?;
        let rows = crossing_rows(alloc, inst, cuts.as_slice(), &rests)?;
        self.cuts = cuts;
        self.rests = rests;
        self.rows = rows;
        Ok(())
    }

    /// The instance.
    pub fn instance(&self) -> &Instance
        ensures inst { result.now ≡ self.now.problem }
    {
        self.steps.instance()
    }

    /// The step table of the instance.
    pub fn steps(&self) -> &StepTable
        ensures { result.now ≡ self.now.problem }
    {
        &self.steps
    }

    /// The step table of the instance, for a table with another list. Takes no memory.
    pub fn into_steps(self) -> StepTable
        ensures { result ≡ self.problem }
    {
        self.steps
    }

    /// The cuts.
    pub fn cuts(&self) -> &[Cut]
        ensures value { result.now ≡ self.now.cuts }
        ensures list { IsCutList self.now.problem self.now.cuts }
    {
        self.cuts.as_slice()
    }

    /// How many cuts there are.
    pub fn count(&self) -> u32
        ensures value { result ≡ length self.now.cuts }
        ensures few { result ≤ MAX_CUTS }
    {
        self.cuts.len() as u32
    }

    /// The row of a place.
    fn row_of(&self, place: u32) -> &[Crossing]
        requires { place < places self.now.problem }
        ensures { result.now ≡ crossings_on self.now.problem self.now.cuts place }
    {
        self.rows[place as usize].as_slice()
    }

    /// The cuts that a place crosses, in the order of the list, each as the place sees it. Takes no memory.
    ///
    /// - Rule: docs/DEFINITIONS.md, "Cuts".
    /// - Time: constant.
    pub fn crossings(&self, place: u32) -> &[Crossing]
        requires { place < places self.now.problem }
        ensures value { result.now ≡ crossings_on self.now.problem self.now.cuts place }
        ensures few { length result.now ≤ MAX_CUTS }
        ensures numbered { AreNumbered (length self.now.cuts) result.now }
    {
        let _cuts = self.cuts();
        self.row_of(place)
    }

    /// How many grains the cut of this number counts at least. Takes no memory.
    ///
    /// - Gives: load grains.
    /// - Rule: docs/DEFINITIONS.md, "Cuts".
    /// - Time: constant.
    pub fn least_count(&self, number: u32) -> u64
        requires { number < length self.now.cuts }
        ensures { result ≡ least_count self.now.problem (cut_at self.now.cuts number) }
    {
        let cut = &self.cuts.as_slice()[number as usize];
        tally(cut.period, cut.first, self.rests[number as usize])
    }

    /// The rates of the cuts that a place crosses together, in thousandths of a cost grain per counted grain.
    fn crossing_rate(&self, rates: &[u128], place: u32) -> u128
        requires place { place < places self.now.problem }
        requires rates { length rates.now ≡ length self.now.cuts }
        requires within { AreWithinLimit self.now.problem rates.now }
        ensures value { result ≡ crossing_rates self.now.problem self.now.cuts rates.now place }
        ensures within { result ≤ MAX_CUTS * MAX_PRICED_LOAD }
    {
        rates_on(self.instance(), self.crossings(place), rates)
    }

    /// Whether a place may have this price with these rates.
    fn is_lawful_at(&self, price: u128, rates: &[u128], place: u32) -> bool
        requires place { place < places self.now.problem }
        requires rates { length rates.now ≡ length self.now.cuts }
        requires within { AreWithinLimit self.now.problem rates.now }
        requires price { price ≤ price_limit self.now.problem }
        ensures { IsTrue result ↔ IsRatedPrice self.now.problem self.now.cuts price rates.now place }
    {
        let rate = self.crossing_rate(rates, place);
        price + rate <= self.limit && least_price(self.instance(), rate, place) <= price
    }

    /// Whether each place may have its price with these rates.
    fn are_lawful(&self, prices: &[u128], rates: &[u128]) -> bool
        requires prices { places self.now.problem ≤ length prices.now }
        requires rates { length rates.now ≡ length self.now.cuts }
        requires prices_within { AreWithinLimit self.now.problem prices.now }
        requires rates_within { AreWithinLimit self.now.problem rates.now }
        ensures { IsTrue result ↔ ((q : ℕ) → q < places self.now.problem → IsRatedPrice self.now.problem self.now.cuts (slice_index prices.now q) rates.now q) }
    {
        let inst = self.instance();
        for place in 0..inst.places() {
            if !self.is_lawful_at(prices[place as usize], rates, place) {
                return false;
            }
        }
        true
    }

    /// Whether there is one price for each place and one rate for each cut, and they are as they have to be: none is above
    /// the price limit, nor a price with the rates of the cuts that its place crosses, and where such a rate is above 0 the
    /// price is at least a thousand routing costs. Takes no memory.
    ///
    /// - Rule: docs/DEFINITIONS.md, "Prices and rates".
    /// - Time: for each place the cuts that cross it.
    pub fn are_numbers(&self, numbers: &Prices) -> bool
        ensures { IsTrue result ↔ AreNumbers self.now.problem self.now.cuts numbers.now }
    {
        let inst = self.instance();
        let list = numbers.as_slice();
        if list.len() != inst.places() as usize + self.cuts.len() {
            return false;
        }
        if !are_within_limit(inst, list) {
            return false;
        }
        self.are_lawful(list, rates_of(inst, list))
    }

    /// The start prices of the places, and a rate of 0 for each cut.
    ///
    /// - Errors: want of memory alone.
    /// - Rule: docs/DEFINITIONS.md, "Start prices".
    /// - Time: the number of steps of all links.
    pub fn start_numbers(&self, alloc: Global) -> Result<Prices, AllocError>
        ensures start { IfOk result (AreStartNumbers self.now.problem self.now.cuts) }
        ensures numbers { IfOk result (AreNumbers self.now.problem self.now.cuts) }
    {
        let prices = self.steps().start_prices(alloc)?;
        let numbers = with_no_rates(prices, self.cuts().len())?;
        Ok(numbers)
    }

    /// Room for the rates of the places of one link, made once for a loop over links. Takes no memory.
    pub fn rated_rows(&self) -> RatedRows {
        empty_rows()
    }

    /// The rates of the cuts.
    fn rates_of<'a>(&self, numbers: &'a Prices) -> &'a [u128]
        requires { AreNumbers self.now.problem self.now.cuts numbers.now }
        ensures value { result.now ≡ rates_in self.now.problem numbers.now }
        ensures len { length result.now ≡ length self.now.cuts }
    {
        rates_of(self.instance(), numbers.as_slice())
    }

    /// The prices of the places of a link.
    fn prices_of_link(&self, numbers: &Prices, link: LinkId) -> LinkPrices
        requires link { link.0 < length self.now.problem.links }
        requires numbers { AreNumbers self.now.problem self.now.cuts numbers.now }
        ensures there { result.there ≡ there_of self.now.problem (slice_index numbers.now) link.0 }
        ensures back { result.back ≡ back_of self.now.problem (slice_index numbers.now) link.0 }
        ensures one_way { is_two_way self.now.problem.orient ≡ false → result.back ≡ 0 }
    {
        LinkPrices::of_link(self.instance(), numbers.as_slice(), link)
    }

    /// Puts the cuts that the places of a link cross and whose rate is above 0, each with its rate, over what rows have.
    fn put_rates(&self, link: LinkId, numbers: &Prices, rows: &mut RatedRows)
        requires link { link.0 < length self.now.problem.links }
        requires numbers { AreNumbers self.now.problem self.now.cuts numbers.now }
        ensures there { rows.new.there ≡ used (rates_in self.now.problem numbers.now) (crossings_there self.now.problem self.now.cuts link.0) }
        ensures back { rows.new.back ≡ used (rates_in self.now.problem numbers.now) (crossings_back self.now.problem self.now.cuts link.0) }
    {
        let inst = self.instance();
        let _places = inst.places();
        let rates = self.rates_of(numbers);
        if inst.orient().is_two_way() {
            put_used(&mut rows.there, self.crossings(2 * link.0), rates);
            put_used(&mut rows.back, self.crossings(2 * link.0 + 1), rates);
        } else {
            put_used(&mut rows.there, self.crossings(link.0), rates);
            rows.back.clear();
        }
    }

    /// The least that prices and rates leave of the step costs of a link, over the loads of its places in their ranges.
    /// Takes no memory.
    ///
    /// - Takes: a link of the instance; the ranges of its places; prices and rates; room of `rated_rows`, whose content
    ///   tells nothing.
    /// - Gives: that value, in thousandths of a cost grain, and of the loads that give it those whose larger one is
    ///   smallest, and then each as small as possible, in load grains.
    /// - Rule: docs/DEFINITIONS.md, "Link value".
    /// - Time: that of `rated_value` of the step table, where cuts with a rate of 0 do not count; where no other cut crosses
    ///   the link, that of its `link_value`.
    pub fn link_value(
        &self,
        link: LinkId,
        ranges: LinkRanges,
        numbers: &Prices,
        rows: &mut RatedRows,
    ) -> LinkValue
        requires link { link.0 < length self.now.problem.links }
        requires ranges { AreLinkRanges self.now.problem link.0 ranges }
        requires numbers { AreNumbers self.now.problem self.now.cuts numbers.now }
        ensures value { IsNumbersValue self.now.problem self.now.cuts link.0 ranges numbers.now result.value }
        ensures loads { AreFirstNumbersLoads self.now.problem self.now.cuts link.0 ranges numbers.now result.value result.load result.back }
        ensures not_above { result.value ≤ℤ pos MAX_PRICED_LOAD }
        ensures bounded { (pos 0 -ℤ pos (2 * MAX_PRICED_LOAD)) ≤ℤ result.value }
    {
        let _cuts = self.cuts();
        self.put_rates(link, numbers, rows);
        let prices = self.prices_of_link(numbers, link);
        let there = rows.there.as_slice();
        let back = rows.back.as_slice();
        self.steps()
            .rated_value(link, ranges, prices.there, there, prices.back, back)
    }

    /// The sum of the values of all links. Takes no memory.
    ///
    /// - Takes: one range for each place; prices and rates.
    /// - Gives: thousandths of a cost grain.
    /// - Rule: docs/DEFINITIONS.md, "Link value".
    /// - Time: one link value for each link.
    pub fn value_total(&self, ranges: &Ranges, numbers: &Prices) -> i128
        requires ranges { AreRanges self.now.problem ranges.now }
        requires numbers { AreNumbers self.now.problem self.now.cuts numbers.now }
        ensures { IsRatedTotal self.now.problem self.now.cuts ranges.now numbers.now (rates_in self.now.problem numbers.now) (length self.now.problem.links) result }
    {
        let inst = self.instance();
        let mut rows = self.rated_rows();
        let mut total = 0;
        for place in 0..inst.links() {
            let link = LinkId(place);
            let ranged = ranges.of_link(inst, link);
            total += self.link_value(link, ranged, numbers, &mut rows).value;
        }
        total
    }

    /// The rates times what the cuts count at least. Takes no memory.
    ///
    /// - Gives: thousandths of a cost grain.
    /// - Rule: docs/DEFINITIONS.md, "Bounds".
    /// - Time: linear in the cuts.
    pub fn cut_total(&self, numbers: &Prices) -> u128
        requires { AreNumbers self.now.problem self.now.cuts numbers.now }
        ensures value { result ≡ cut_total self.now.problem self.now.cuts (rates_in self.now.problem numbers.now) }
        ensures within { result ≤ MAX_CUTS * MAX_PRICED_LOAD }
    {
        cut_total(
            self.instance(),
            self.cuts(),
            &self.rests,
            self.rates_of(numbers),
        )
    }

    /// What the price of a place may be beside the rates that the numbers have. Takes no memory.
    ///
    /// - Takes: prices and rates; a place.
    /// - Rule: docs/DEFINITIONS.md, "Prices and rates".
    /// - Time: the cuts that the place crosses.
    pub fn price_bounds(&self, numbers: &Prices, place: u32) -> PriceBounds
        requires numbers { AreNumbers self.now.problem self.now.cuts numbers.now }
        requires place { place < places self.now.problem }
        ensures least { result.least ≡ least_price_at self.now.problem self.now.cuts numbers.now place }
        ensures most { result.most ≡ most_price_at self.now.problem self.now.cuts numbers.now place }
        ensures within { result.least ≤ result.most }
    {
        let rate = self.crossing_rate(self.rates_of(numbers), place);
        PriceBounds {
            least: least_price(self.instance(), rate, place),
            most: self.limit - rate,
        }
    }
}
