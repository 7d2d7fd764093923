//! Made links, whose tables are compared with what trying all counts tells.

ghost use Rattle.std.specs.Prelude.{ℕ, ◌<◌, ◌≡◌, ◌≤◌, false, length, IfSome};
ghost use Rattle.plan_base.specs.declared.parts.Parts.{Parts as AnyParts};
ghost use Rattle.plan_base.specs.Facts.{price_limit, total_load};
ghost use Rattle.plan_base.specs.Places.{is_two_way};
ghost use Rattle.link_steps.specs.Ranges.{IsRange, AreRanges};
ghost use Rattle.link_steps.specs.Values.{AreLinkRanges};

use super::trying::{
    Costs, DEPTH, Rest, SmallLink, tried_below, tried_costs, tried_end, tried_rest, tried_start,
};
use crate::telling::tell_differing;
use gate_draws::Draws;
use gate_networks::table_of;
use link_steps::{LinkRanges, LoadRange, Ranges, StepTable};
use plan_base::{
    CountLaw, Demand, Instance, Items, Link, LinkId, Module, NodeId, Orient, Parts, Prices,
};
use std::alloc::{AllocError, Global};

/// How many links are made.
const LINKS: u32 = 300;

/// A module of a capacity below 5 and a cost below 8.
fn made_module(draws: &mut Draws) -> Module {
    Module {
        capacity: u64::from(draws.below(5)),
        cost: u128::from(draws.below(8)),
    }
}

/// A link of three modules.
fn made_link(draws: &mut Draws) -> SmallLink {
    SmallLink {
        pre: u64::from(draws.below(4)),
        routing: u64::from(draws.below(3)),
        modules: [made_module(draws), made_module(draws), made_module(draws)],
    }
}

/// The parts of all made links, between two nodes, and a demand of 8 grains.
fn made_parts(alloc: Global, orient: Orient, law: CountLaw) -> Result<Parts, AllocError> {
    let (source, target) = (NodeId(0), NodeId(1));
    let mut draws = Draws::begin(1);
    let mut links = Vec::new(alloc);
    for _ in 0..LINKS {
        let small = made_link(&mut draws);
        links.push(Link {
            source,
            target,
            pre: small.pre,
            routing: small.routing,
            modules: Items::from_vec(Vec::from_slice(alloc, &small.modules)?),
        })?;
    }
    let demand = Demand {
        source,
        target,
        load: 8,
        hops: None,
    };
    Ok(Parts {
        orient,
        law,
        nodes: 2,
        links: Items::from_vec(links),
        demands: Items::from_vec(vec![in alloc; demand]?),
    })
}

/// The instance of all made links.
fn made_instance(alloc: Global, orient: Orient, law: CountLaw) -> Option<Instance>
    ensures { IfSome result (λ inst. (inst.orient ≡ orient) × (length inst.links ≡ 300) × (total_load inst ≡ 8)
        × (1_000_000_000 ≤ price_limit inst)) }
{
    let inst = Instance::build(alloc, made_parts(alloc, orient, law).ok()?).ok()?;
    if inst.orient() != orient || inst.links() != LINKS {
        return None;
    }
    if inst.total_load() != 8 || inst.price_limit() < 1_000_000_000 {
        return None;
    }
    Some(inst)
}

/// Whether the table tells of a load what trying tells, from wherever its step is looked for.
fn cost_agrees(table: &StepTable, link: LinkId, load: u64, cost: Option<u128>) -> bool
    requires link { link.0 < length table.now.links }
    requires load { load ≤ total_load table.now }
{
    for near in 0..12 {
        if table.at_near(link, load, near).map(|found| found.cost) != cost {
            return false;
        }
    }
    table.at(link, load) == cost
}

/// Whether the table tells of each load what trying tells.
fn costs_agree(table: &StepTable, link: LinkId, costs: &Costs) -> bool
    requires link { link.0 < length table.now.links }
    requires total { total_load table.now ≡ 8 }
{
    for load in 0..9 {
        if !cost_agrees(table, link, load as u64, costs[load]) {
            return false;
        }
        if table.step_below(link, load as u64) != tried_below(costs, load as u64) {
            return false;
        }
    }
    true
}

/// Whether the table tells where a step ends first in each range what trying tells.
fn ends_agree(table: &StepTable, link: LinkId, costs: &Costs) -> bool
    requires link { link.0 < length table.now.links }
    requires total { total_load table.now ≡ 8 }
{
    for number in 0..81u64 {
        let range = LoadRange {
            least: number / 9,
            most: number % 9,
        };
        if table.first_step_end(link, range) != tried_end(costs, range) {
            return false;
        }
    }
    true
}

/// A price of the other place of a link, 0 where it has one place.
fn back_price(orient: Orient, step: u64) -> u128
    ensures one_way { is_two_way orient ≡ false → result ≡ 0 }
    ensures within { result ≤ 1_000_000_000 }
{
    if orient.is_two_way() {
        u128::from(step.wrapping_mul(7) % 30 * 300)
    } else {
        0
    }
}

/// Some of the loads of a range.
fn part_of(range: LoadRange, number: u64) -> LoadRange
    ensures { (top : ℕ) → IsRange top range → IsRange top result }
{
    let least = range.most.min(range.least.saturating_add(number % 4));
    LoadRange {
        least,
        most: range.most.min(least.saturating_add(number / 4 % 5)),
    }
}

/// Some of the loads of the places of a link.
fn parts_of(ranges: LinkRanges, number: u64) -> LinkRanges
    ensures { (p : AnyParts) (e : ℕ) → AreLinkRanges p e ranges → AreLinkRanges p e result }
{
    LinkRanges {
        there: part_of(ranges.there, number),
        back: part_of(ranges.back, number.wrapping_mul(3)),
    }
}

/// What the table tells that loads in the ranges leave of their cost at prices.
fn found_rest(table: &StepTable, link: LinkId, ranges: LinkRanges, price: u128, back: u128) -> Rest
    requires link { link.0 < length table.now.links }
    requires ranges { AreLinkRanges table.now link.0 ranges }
    requires price { price ≤ price_limit table.now }
    requires back { back ≤ price_limit table.now }
    requires one_way { is_two_way table.now.orient ≡ false → back ≡ 0 }
{
    let found = table.link_value(link, ranges, price, back);
    let size = found.value.unsigned_abs();
    Rest {
        value: if found.value < 0 {
            DEPTH.saturating_sub(size)
        } else {
            DEPTH.saturating_add(size)
        },
        load: found.load,
        back: found.back,
    }
}

/// Whether the table tells of prices, over the loads in the ranges, what trying tells.
fn value_agrees(
    table: &StepTable,
    ranges: LinkRanges,
    link: LinkId,
    small: &SmallLink,
    costs: &Costs,
    price: u128,
    back: u128,
) -> bool
    requires link { link.0 < length table.now.links }
    requires ranges { AreLinkRanges table.now link.0 ranges }
    requires price { price ≤ price_limit table.now }
    requires back { back ≤ price_limit table.now }
    requires one_way { is_two_way table.now.orient ≡ false → back ≡ 0 }
{
    let tried = tried_rest(small, costs, (price, back), ranges);
    Some(found_rest(table, link, ranges, price, back)) == tried
}

/// Whether the table tells of some prices, over all loads in the ranges and over some of them, what trying tells.
fn values_agree(
    table: &StepTable,
    ranges: LinkRanges,
    link: LinkId,
    small: &SmallLink,
    costs: &Costs,
    orient: Orient,
) -> bool
    requires orient { table.now.orient ≡ orient }
    requires link { link.0 < length table.now.links }
    requires ranges { AreLinkRanges table.now link.0 ranges }
    requires limit { 1_000_000_000 ≤ price_limit table.now }
{
    for step in 0..30u64 {
        let price = u128::from(step * 300);
        let back = back_price(orient, step);
        let parts = parts_of(ranges, step);
        if !value_agrees(table, ranges, link, small, costs, price, back)
            || !value_agrees(table, parts, link, small, costs, price, back)
        {
            return false;
        }
    }
    true
}

/// Whether each place of the link has the start price that trying tells, where it tells one.
fn starts_agree(
    prices: &Prices,
    orient: Orient,
    link: LinkId,
    small: &SmallLink,
    costs: &Costs,
) -> bool {
    let place = link.0 as usize;
    let prices = prices.as_slice();
    if orient.is_two_way() {
        let start = tried_start(small, costs, 500);
        let there = prices.get(place.saturating_mul(2)).copied();
        let back = prices
            .get(place.saturating_mul(2).saturating_add(1))
            .copied();
        return start.is_none() || (there == start && back == start);
    }
    let start = tried_start(small, costs, 1000);
    start.is_none() || prices.get(place).copied() == start
}

/// Whether the table and the start prices tell of a link what trying tells.
fn all_agree(
    table: &StepTable,
    ranges: LinkRanges,
    orient: Orient,
    law: CountLaw,
    prices: &Prices,
    link: LinkId,
    small: &SmallLink,
) -> bool
    requires orient { table.now.orient ≡ orient }
    requires link { link.0 < length table.now.links }
    requires ranges { AreLinkRanges table.now link.0 ranges }
    requires total { total_load table.now ≡ 8 }
    requires limit { 1_000_000_000 ≤ price_limit table.now }
{
    let costs = tried_costs(small, law);
    costs_agree(table, link, &costs)
        && ends_agree(table, link, &costs)
        && values_agree(table, ranges, link, small, &costs, orient)
        && starts_agree(prices, orient, link, small, &costs)
}

/// The first made link of which the table and the start prices do not tell what trying tells.
fn first_differing(
    inst: &Instance,
    table: &StepTable,
    whole: &Ranges,
    orient: Orient,
    law: CountLaw,
    prices: &Prices,
) -> Option<u32>
    requires table { table.now ≡ inst.now }
    requires whole { AreRanges inst.now whole.now }
    requires orient { inst.now.orient ≡ orient }
    requires links { length inst.now.links ≡ 300 }
    requires total { total_load inst.now ≡ 8 }
    requires limit { 1_000_000_000 ≤ price_limit inst.now }
{
    let mut draws = Draws::begin(1);
    for place in 0..LINKS {
        let small = made_link(&mut draws);
        let link = LinkId(place);
        let ranges = whole.of_link(inst, link);
        if !all_agree(table, ranges, orient, law, prices, link, &small) {
            return Some(place);
        }
    }
    None
}

/// All loads of each place.
fn whole_of(alloc: Global, inst: &Instance) -> Option<Ranges>
    ensures { IfSome result (AreRanges inst.now) }
{
    Ranges::whole(alloc, inst).ok()
}

/// Adds the first made link of these of which the tables do not tell what trying tells.
fn tell_made(
    alloc: Global,
    inst: &Instance,
    orient: Orient,
    law: CountLaw,
    text: &mut String,
) -> Option<()>
    requires orient { inst.now.orient ≡ orient }
    requires links { length inst.now.links ≡ 300 }
    requires total { total_load inst.now ≡ 8 }
    requires limit { 1_000_000_000 ≤ price_limit inst.now }
{
    let table = table_of(alloc, inst)?;
    let whole = whole_of(alloc, inst)?;
    let prices = table.start_prices(alloc).ok()?;
    let first = first_differing(inst, &table, &whole, orient, law, &prices);
    tell_differing("link", first, text)
}

/// Adds the first made link of this orientation and law of which the tables do not tell what trying tells.
fn tell_oriented(alloc: Global, orient: Orient, law: CountLaw, text: &mut String) -> Option<()> {
    let inst = made_instance(alloc, orient, law)?;
    tell_made(alloc, &inst, orient, law, text)
}

/// Adds the first made link under this law of which the tables do not tell what trying tells, with one place and with two.
fn tell_law(alloc: Global, law: CountLaw, text: &mut String) -> Option<()> {
    tell_oriented(alloc, Orient::Undirected, law, text)?;
    text.push_str(",").ok()?;
    tell_oriented(alloc, Orient::Bidirected, law, text)
}

/// Adds the first made link of which the tables do not tell what trying tells, under each law.
pub(crate) fn tell_links(alloc: Global, text: &mut String) -> Option<()> {
    tell_law(alloc, CountLaw::Any, text)?;
    text.push_str(",").ok()?;
    tell_law(alloc, CountLaw::AtMostOne, text)
}
