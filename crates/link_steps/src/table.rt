//! The step table: the least module costs of all links of an instance.

ghost use Rattle.std.specs.Prelude.{ℕ, false, ◌≡◌, ◌<◌, ◌≤◌, ◌-◌, ◌*◌, ◌-ℤ◌, ◌≤ℤ◌, pos, length, All, IfOk, IfErr, IfSome, IfNone};
ghost use Rattle.plan_base.specs.declared.parts.CountLaw.TheVariants.{AtMostOne};
ghost use Rattle.plan_base.specs.Facts.{total_load, price_limit};
ghost use Rattle.plan_base.specs.Arcs.{link_at};
ghost use Rattle.plan_base.specs.Designs.{AreCountsInShape};
ghost use Rattle.link_steps.specs.Costs.{CannotCarry, IsLeastModuleCost, AreLeastCounts, IsStepEndBelow, IsFirstStepEnd, EndsNoStep, HasSteps, HasAtMostSteps, IsFaultOf};
ghost use Rattle.link_steps.specs.declared.step_fault.StepFault.TheVariants.{OutOfMemory};
ghost use Rattle.link_steps.specs.Candidates.{whole_link};
ghost use Rattle.link_steps.specs.Ranges.{AreRanges};
ghost use Rattle.link_steps.specs.Tallies.{ArePlaceRates};
ghost use Rattle.link_steps.specs.Values.{share, IsLinkValue, AreLinkRanges, IsValueTotal, AreFirstLoads, IsStartPrice, AreStartPrices};
ghost use Rattle.link_steps.specs.WorthValues.{IsWorthValue, AreFirstWorthLoads};
ghost use Rattle.plan_base.specs.Places.{is_two_way, places};

use crate::ends::{End, best_end, best_ends, least_unit, value_of};
use crate::limits::MAX_STEPS;
use crate::making::steps_of;
use crate::range::{LinkRanges, LoadRange, Ranges};
use crate::rated::Rated;
use crate::rated_value::{best_load, first_rated};
use crate::reading::{LinkValue, PlacedCost, counts_of, first_reaching, first_reaching_near};
use crate::step::Step;
use crate::step_fault::StepFault;
use crate::value::{are_within, first_best};
use plan_base::limits::{MAX_PRICED_LOAD, MODULE_COST_BOUND};
use plan_base::{Instance, Items, LinkId, Prices};
use std::alloc::{AllocError, Global};
use std::marker::Model;

/// The load where a slope is, and none where there is no slope.
fn load_at_slope(slope: u128, load: u64) -> u64
    ensures sloping { 0 < slope → result ≡ load }
    ensures level { slope ≡ 0 → result ≡ 0 }
{
    if slope > 0 { load } else { 0 }
}

/// The least module costs of all links of an instance, of which it keeps a copy.
#[derive(Debug, Drop)]
pub struct StepTable {
    inst: Instance,
    tables: Vec<Items<Step>>,
    ends: Vec<Items<End>>,
}

impl Model for StepTable {
    ghost use Rattle.plan_base.specs.declared.parts.Parts.{Parts};
    ghost use Rattle.link_steps.specs.Steps.{AreTables};

    ghost Value = { Parts };

    ghost view = { λ a. a.inst };

    ghost invariant = { λ a. AreTables a.inst a.tables.items a.ends.items };
}

impl StepTable {
    ghost use Rattle.link_steps.specs.Steps.{AreAllSteps, AreEndsOf};

    /// The steps of a link.
    fn steps_of_link(&self, link: LinkId) -> &[Step]
        requires { link.0 < length self.now.links }
        ensures { AreAllSteps self.now.law (total_load self.now) (link_at self.now link.0) result.now }
    {
        self.tables[link.0 as usize].as_slice()
    }

    /// The best ends of the steps of a link.
    fn ends_of_link(&self, link: LinkId) -> &[End]
        requires { link.0 < length self.now.links }
        ensures { AreEndsOf self.now (link_at self.now link.0) result.now }
    {
        self.ends[link.0 as usize].as_slice()
    }

    /// The table of an instance.
    ///
    /// - Errors: `TooManySteps`, at the first link whose least module cost takes more than `MAX_STEPS` values over the
    ///   loads from 0 to the total load; never where at most one module is lawful.
    /// - Rule: docs/DEFINITIONS.md, "Least module cost".
    /// - Time: for each link the number of its steps times that of its modules; the sizes of loads and capacities do not
    ///   count, and a link with too many steps is left at the first one too many.
    pub fn make(alloc: Global, inst: &Instance) -> Result<StepTable, StepFault>
        ensures value { IfOk result (λ table. table ≡ inst.now) }
        ensures few { IfOk result (λ _. (e : ℕ) → e < length inst.now.links → HasAtMostSteps inst.now.law (total_load inst.now) (link_at inst.now e) MAX_STEPS) }
        ensures fault { IfErr result (IsFaultOf inst.now) }
        ensures one { IfErr result (λ fault. inst.now.law ≡ AtMostOne → fault ≡ OutOfMemory) }
    {
        let law = inst.law();
        let total = inst.total_load();
        let mut tables = Vec::new(alloc);
        let mut ends = Vec::new(alloc);
        for place in 0..inst.links() {
            let link = LinkId(place);
            let steps = steps_of(alloc, law, link, inst.link(link), total)?;
            let best = best_ends(alloc, &steps, inst.top_load(link))?;
            tables.push(Items::from_vec(steps))?;
            ends.push(Items::from_vec(best))?;
        }
        let inst = inst.copy(alloc)?;
        Ok(StepTable { inst, tables, ends })
    }

    /// The instance that the table is of.
    pub fn instance(&self) -> &Instance
        ensures inst { result.now ≡ self.now }
    {
        &self.inst
    }

    /// The least module cost of a load on a link, over all lawful counts of its modules. Takes no memory.
    ///
    /// - Takes: a link of the instance; a load of at most the total load, in load grains.
    /// - Gives: cost grains; None exactly where no lawful counts carry the load.
    /// - Rule: docs/DEFINITIONS.md, "Least module cost".
    /// - Time: the logarithm of the number of steps.
    pub fn at(&self, link: LinkId, load: u64) -> Option<u128>
        requires link { link.0 < length self.now.links }
        requires load { load ≤ total_load self.now }
        ensures least { IfSome result (IsLeastModuleCost self.now link.0 load) }
        ensures none { IfNone result (CannotCarry self.now link.0 load) }
        ensures within { IfSome result (λ cost. cost ≤ (MAX_STEPS - 1) * MODULE_COST_BOUND) }
    {
        let steps = self.steps_of_link(link);
        let place = first_reaching(steps, load);
        if place < steps.len() {
            Some(steps[place].cost)
        } else {
            None
        }
    }

    /// The least module cost of a load on a link, and the place of its step. Takes no memory.
    ///
    /// - Takes: a link of the instance; a load of at most the total load, in load grains; any place: where it is that of
    ///   a load near this one, the answer is found soon.
    /// - Gives: what `at` gives.
    /// - Rule: docs/DEFINITIONS.md, "Least module cost".
    /// - Time: the logarithm of the number of steps between that place and the one found.
    pub fn at_near(&self, link: LinkId, load: u64, near: u32) -> Option<PlacedCost>
        requires link { link.0 < length self.now.links }
        requires load { load ≤ total_load self.now }
        ensures least { IfSome result (λ found. IsLeastModuleCost self.now link.0 load found.cost) }
        ensures none { IfNone result (CannotCarry self.now link.0 load) }
        ensures within { IfSome result (λ found. found.cost ≤ (MAX_STEPS - 1) * MODULE_COST_BOUND) }
    {
        let steps = self.steps_of_link(link);
        let place = first_reaching_near(steps, load, near as usize);
        if place < steps.len() {
            Some(PlacedCost {
                cost: steps[place].cost,
                place: place as u32,
            })
        } else {
            None
        }
    }

    /// Lawful counts that carry a load on a link at its least module cost, each of them in shape.
    ///
    /// - Takes: a link of the instance; a load of at most the total load, in load grains.
    /// - Gives: one count for each module, in the order of `link.modules`; None exactly where no lawful counts carry the
    ///   load.
    /// - Errors: want of memory alone.
    /// - Rule: docs/DEFINITIONS.md, "Least module cost".
    /// - Time: at most the number of steps and that of modules.
    pub fn counts(
        &self,
        alloc: Global,
        link: LinkId,
        load: u64,
    ) -> Result<Option<Items<u64>>, AllocError>
        requires link { link.0 < length self.now.links }
        requires load { load ≤ total_load self.now }
        ensures least { IfOk result (λ found. IfSome found (AreLeastCounts self.now link.0 load)) }
        ensures in_shape { IfOk result (λ found. IfSome found (AreCountsInShape (link_at self.now link.0))) }
        ensures none { IfOk result (λ found. IfNone found (CannotCarry self.now link.0 load)) }
    {
        let steps = self.steps_of_link(link);
        let place = first_reaching(steps, load);
        if place == steps.len() {
            return Ok(None);
        }
        let law = self.inst.law();
        let counts = counts_of(alloc, law, self.inst.link(link), steps, place, load)?;
        Ok(Some(Items::from_vec(counts)))
    }

    /// How many values the least module cost of a link takes over the loads from 0 to the total load, where it is
    /// defined. Takes no memory.
    ///
    /// - Rule: docs/DEFINITIONS.md, "Steps of a link".
    pub fn steps(&self, link: LinkId) -> u32
        requires { link.0 < length self.now.links }
        ensures value { HasSteps self.now.law (total_load self.now) (link_at self.now link.0) result }
        ensures within { result ≤ MAX_STEPS }
    {
        self.steps_of_link(link).len() as u32
    }

    /// What `link_value` gives where the places of the link may have all loads.
    fn whole_value(&self, link: LinkId, price: u128, back: u128) -> LinkValue
        requires link { link.0 < length self.now.links }
        requires price { price ≤ price_limit self.now }
        requires back { back ≤ price_limit self.now }
        requires one_way { is_two_way self.now.orient ≡ false → back ≡ 0 }
        ensures value { IsLinkValue self.now link.0 (whole_link self.now link.0) price back result.value }
        ensures loads { AreFirstLoads self.now link.0 (whole_link self.now link.0) price back result.value result.load result.back }
    {
        let ends = self.ends_of_link(link);
        let routing = 1000 * u128::from(self.inst.link(link).routing);
        let slope = price.saturating_sub(routing);
        let back_slope = back.saturating_sub(routing);
        let whole = slope + back_slope;
        if whole == 0 {
            return LinkValue {
                value: 0,
                load: 0,
                back: 0,
            };
        }
        let end = best_end(ends, whole);
        LinkValue {
            value: value_of(end, whole),
            load: load_at_slope(slope, end.load),
            back: load_at_slope(back_slope, end.load),
        }
    }

    /// What `link_value` gives, found among the steps that the ranges meet.
    fn ranged_value(
        &self,
        link: LinkId,
        steps: &[Step],
        ranges: LinkRanges,
        price: u128,
        back: u128,
    ) -> LinkValue
        requires link { link.0 < length self.now.links }
        requires steps { AreAllSteps self.now.law (total_load self.now) (link_at self.now link.0) steps.now }
        requires ranges { AreLinkRanges self.now link.0 ranges }
        requires price { price ≤ price_limit self.now }
        requires back { back ≤ price_limit self.now }
        ensures value { IsLinkValue self.now link.0 ranges price back result.value }
        ensures loads { AreFirstLoads self.now link.0 ranges price back result.value result.load result.back }
    {
        self.inst.lawful();
        let from = first_reaching(steps, ranges.there.least.max(ranges.back.least));
        let last = first_reaching(steps, ranges.there.most.max(ranges.back.most));
        first_best(
            self.inst.link(link),
            steps,
            from,
            last + 1,
            ranges,
            price,
            back,
        )
    }

    /// The least that prices leave of the step costs of a link: of a thousand step costs less the prices times the
    /// loads, over the loads of its places in their ranges. Takes no memory.
    ///
    /// - Takes: a link of the instance; the ranges of its places; the prices of its places, each of at most the price
    ///   limit, in thousandths of a cost grain per load grain, the second 0 where it has one place.
    /// - Gives: that value, in thousandths of a cost grain, and of the loads that give it those whose larger one is
    ///   smallest, and then each as small as possible, in load grains.
    /// - Rule: docs/DEFINITIONS.md, "Link value".
    /// - Time: the number of corners of the lower hull of the ends of steps, which are few; and where the loads that are best
    ///   over whole ranges are outside the ranges and a price is above the routing costs, the number of steps that the
    ///   ranges meet.
    pub fn link_value(&self, link: LinkId, ranges: LinkRanges, price: u128, back: u128) -> LinkValue
        requires link { link.0 < length self.now.links }
        requires ranges { AreLinkRanges self.now link.0 ranges }
        requires price { price ≤ price_limit self.now }
        requires back { back ≤ price_limit self.now }
        requires one_way { is_two_way self.now.orient ≡ false → back ≡ 0 }
        ensures value { IsLinkValue self.now link.0 ranges price back result.value }
        ensures loads { AreFirstLoads self.now link.0 ranges price back result.value result.load result.back }
        ensures not_above { result.value ≤ℤ pos MAX_PRICED_LOAD }
        ensures bounded { (pos 0 -ℤ pos (2 * MAX_PRICED_LOAD)) ≤ℤ result.value }
    {
        self.inst.lawful();
        let steps = self.steps_of_link(link);
        let whole = self.whole_value(link, price, back);
        if are_within(ranges, whole) {
            whole
        } else {
            self.ranged_value(link, steps, ranges, price, back)
        }
    }

    /// What `rated_value` gives, found among the steps that the ranges meet, up to the first that reaches the loads that are
    /// best where steps cost nothing.
    fn ranged_rated_value(
        &self,
        link: LinkId,
        steps: &[Step],
        ranges: LinkRanges,
        price: u128,
        there: &[Rated],
        back_price: u128,
        back: &[Rated],
    ) -> LinkValue
        requires link { link.0 < length self.now.links }
        requires steps { AreAllSteps self.now.law (total_load self.now) (link_at self.now link.0) steps.now }
        requires ranges { AreLinkRanges self.now link.0 ranges }
        requires there { ArePlaceRates self.now link.0 price there.now }
        requires back { ArePlaceRates self.now link.0 back_price back.now }
        ensures value { IsWorthValue self.now link.0 ranges price there.now back_price back.now result.value }
        ensures loads { AreFirstWorthLoads self.now link.0 ranges price there.now back_price back.now result.value result.load result.back }
    {
        self.inst.lawful();
        let link = self.inst.link(link);
        let load = best_load(link, price, there, ranges.there, ranges.there.most);
        let back_load = best_load(link, back_price, back, ranges.back, ranges.back.most);
        let from = first_reaching(steps, ranges.there.least.max(ranges.back.least));
        let last = first_reaching(steps, load.max(back_load));
        first_rated(
            link,
            steps,
            from,
            last + 1,
            ranges,
            price,
            there,
            back_price,
            back,
        )
    }

    /// The least that the worths of loads leave of the step costs of a link: of a thousand step costs less what the
    /// loads are worth at prices and at rates for counted grains, over the loads of its places in their ranges. Takes no
    /// memory.
    ///
    /// - Takes: a link of the instance; the ranges of its places; for each of its places a price, in thousandths of a
    ///   cost grain per load grain, and rates, in thousandths of a cost grain per counted grain, together at most the
    ///   price limit. Where a rate is above 0 the price is at least the routing cost. The price of the second place is 0
    ///   where it has one place.
    /// - Gives: that value, in thousandths of a cost grain, and of the loads that give it those whose larger one is
    ///   smallest, and then each as small as possible, in load grains.
    /// - Rule: docs/DEFINITIONS.md, "Link value".
    /// - Time: the number of steps that the ranges meet, where no price is above the routing costs only up to the last
    ///   counted grain, times that of the rates; without rates that of `link_value`.
    pub fn rated_value(
        &self,
        link: LinkId,
        ranges: LinkRanges,
        price: u128,
        there: &[Rated],
        back_price: u128,
        back: &[Rated],
    ) -> LinkValue
        requires link { link.0 < length self.now.links }
        requires ranges { AreLinkRanges self.now link.0 ranges }
        requires there { ArePlaceRates self.now link.0 price there.now }
        requires back { ArePlaceRates self.now link.0 back_price back.now }
        requires one_way { is_two_way self.now.orient ≡ false → back_price ≡ 0 }
        ensures value { IsWorthValue self.now link.0 ranges price there.now back_price back.now result.value }
        ensures loads { AreFirstWorthLoads self.now link.0 ranges price there.now back_price back.now result.value result.load result.back }
        ensures not_above { result.value ≤ℤ pos MAX_PRICED_LOAD }
        ensures bounded { (pos 0 -ℤ pos (2 * MAX_PRICED_LOAD)) ≤ℤ result.value }
    {
        self.inst.lawful();
        let steps = self.steps_of_link(link);
        if there.is_empty() && back.is_empty() {
            self.link_value(link, ranges, price, back_price)
        } else {
            self.ranged_rated_value(link, steps, ranges, price, there, back_price, back)
        }
    }

    /// The sum of the values of all links at these prices. Takes no memory.
    ///
    /// - Takes: one range for each place; one price for each place, of at most the price limit, in thousandths of a cost
    ///   grain per load grain.
    /// - Gives: thousandths of a cost grain.
    /// - Rule: docs/DEFINITIONS.md, "Link value".
    /// - Time: one link value for each link.
    pub fn value_total(&self, ranges: &Ranges, prices: &Prices) -> i128
        requires ranges { AreRanges self.now ranges.now }
        requires count { length prices.now ≡ places self.now }
        requires limit { All (λ price. price ≤ price_limit self.now) prices.now }
        ensures { IsValueTotal self.now ranges.now prices.now (length self.now.links) result }
    {
        let mut total = 0;
        for place in 0..self.inst.links() {
            let link = LinkId(place);
            let priced = prices.of_link(&self.inst, link);
            let ranged = ranges.of_link(&self.inst, link);
            total += self
                .link_value(link, ranged, priced.there, priced.back)
                .value;
        }
        total
    }

    /// The greatest load below this one where a step of the link ends. Takes no memory.
    ///
    /// - Takes: a link of the instance; a load of at most the total load, in load grains.
    /// - Gives: load grains; None exactly where no step ends below the load.
    /// - Rule: docs/DEFINITIONS.md, "Steps of a link".
    /// - Time: the logarithm of the number of steps.
    pub fn step_below(&self, link: LinkId, load: u64) -> Option<u64>
        requires link { link.0 < length self.now.links }
        requires load { load ≤ total_load self.now }
        ensures end { IfSome result (IsStepEndBelow self.now link.0 load) }
        ensures none { IfNone result (EndsNoStep self.now link.0 0 load) }
    {
        let steps = self.steps_of_link(link);
        let place = first_reaching(steps, load);
        if place > 0 {
            Some(steps[place - 1].reach)
        } else {
            None
        }
    }

    /// The first load of a range, but its most, where a step of the link ends. Takes no memory.
    ///
    /// - Takes: a link of the instance; a range of loads of at most the total load.
    /// - Gives: load grains; None exactly where no step ends from the least load to below the most.
    /// - Rule: docs/DEFINITIONS.md, "Steps of a link".
    /// - Time: the logarithm of the number of steps.
    pub fn first_step_end(&self, link: LinkId, range: LoadRange) -> Option<u64>
        requires link { link.0 < length self.now.links }
        requires range { range.most ≤ total_load self.now }
        ensures end { IfSome result (IsFirstStepEnd self.now link.0 range.least range.most) }
        ensures none { IfNone result (EndsNoStep self.now link.0 range.least range.most) }
    {
        let steps = self.steps_of_link(link);
        let place = first_reaching(steps, range.least);
        if place < steps.len() && steps[place].reach < range.most {
            Some(steps[place].reach)
        } else {
            None
        }
    }

    /// The thousandths of a module cost that the price of each place of a link has to bear.
    fn share(&self) -> u128
        ensures value { result ≡ share self.now }
        ensures within { result ≤ 1000 }
    {
        if self.inst.orient().is_two_way() {
            500
        } else {
            1000
        }
    }

    /// The start price of the places of a link, in thousandths of a cost grain per load grain.
    fn start_price(&self, link: LinkId) -> u128
        requires { link.0 < length self.now.links }
        ensures value { IsStartPrice self.now (link_at self.now link.0) result }
        ensures within { result ≤ price_limit self.now }
    {
        let steps = self.steps_of_link(link);
        let limit = self.inst.price_limit();
        match least_unit(self.share(), steps, self.inst.top_load(link)) {
            None => limit,
            Some(unit) => (1000 * u128::from(self.inst.link(link).routing) + unit).min(limit),
        }
    }

    /// The start prices: at each place the greatest whole price that leaves nothing negative where the other place of
    /// its link has the same, and the price limit where the link may carry no load.
    ///
    /// - Gives: one price for each place, in order, in thousandths of a cost grain per load grain.
    /// - Errors: want of memory alone.
    /// - Rule: docs/DEFINITIONS.md, "Start prices".
    /// - Time: the number of steps of all links.
    pub fn start_prices(&self, alloc: Global) -> Result<Prices, AllocError>
        ensures value { IfOk result (AreStartPrices self.now) }
        ensures within { IfOk result (All (λ price. price ≤ price_limit self.now)) }
    {
        let mut numerators = Vec::new(alloc);
        for place in 0..self.inst.places() {
            numerators.push(self.start_price(self.inst.link_of_place(place)))?;
        }
        Ok(Prices::from_vec(numerators))
    }
}
