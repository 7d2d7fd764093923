//! What loads cost on links, and what prices give to links.

ghost use Rattle.std.specs.Prelude.{◌≡◌, ◌<◌, ◌≤◌, false, length, IfSome};
ghost use Rattle.plan_base.specs.Facts.{price_limit, total_load};
ghost use Rattle.plan_base.specs.Places.{is_two_way};
ghost use Rattle.link_steps.specs.Ranges.{AreRanges};

use crate::asking::{Question, word_at};
use crate::telling::{tell_list, tell_number};
use gate_networks::table_of;
use link_steps::{LoadRange, Ranges, StepTable, cost_unit};
use plan_base::{Instance, LinkId, Prices};
use std::alloc::Global;

/// Adds how many steps each link takes.
fn tell_each(inst: &Instance, table: &StepTable, text: &mut String) -> Option<()>
    requires { table.now ≡ inst.now }
{
    for place in 0..inst.links() {
        tell_number("", u128::from(table.steps(LinkId(place))), text)?;
    }
    Some(())
}

/// Adds how many steps each link takes, or why there are too many.
pub(crate) fn tell_steps(question: Question<'_>, text: &mut String) -> Option<()> {
    match StepTable::make(question.alloc, question.inst) {
        Ok(table) => tell_each(question.inst, &table, text),
        Err(fault) => write!(text, " {fault:?}").ok(),
    }
}

/// The start prices.
pub(crate) fn start_of(alloc: Global, inst: &Instance) -> Option<Prices> {
    table_of(alloc, inst)?.start_prices(alloc).ok()
}

/// Adds the start prices.
pub(crate) fn tell_start(question: Question<'_>, text: &mut String) -> Option<()> {
    let prices = start_of(question.alloc, question.inst)?;
    tell_list("", prices.as_slice(), text)
}

/// Adds the unit of costs.
pub(crate) fn tell_unit(question: Question<'_>, text: &mut String) -> Option<()> {
    tell_number("", cost_unit(question.inst), text)
}

/// The price of the link's other place, 0 where it has one place.
fn back_price(question: Question<'_>) -> u128
    ensures { is_two_way question.entry.inst.now.orient ≡ false → result ≡ 0 }
{
    if question.inst.orient().is_two_way() {
        u128::from(question.amount(4))
    } else {
        0
    }
}

/// All ranges, but of one place the loads that the row tells.
fn cut_ranges(question: Question<'_>) -> Option<Ranges>
    ensures { IfSome result (AreRanges question.entry.inst.now) }
{
    let mut ranges = Ranges::whole(question.alloc, question.inst).ok()?;
    let place = question.number(5);
    if place >= question.inst.places() {
        return None;
    }
    let least = question.amount(6);
    let most = question.amount(7);
    ranges.set(place, LoadRange { least, most });
    if ranges.fits(question.inst) {
        Some(ranges)
    } else {
        None
    }
}

/// The ranges that a row asks about.
fn ranges_of(question: Question<'_>) -> Option<Ranges>
    ensures { IfSome result (AreRanges question.entry.inst.now) }
{
    if word_at(question.row, 0) == "ranged" {
        cut_ranges(question)
    } else {
        Ranges::whole(question.alloc, question.inst).ok()
    }
}

/// A link that a question is about, and the steps of all links.
#[derive(Clone, Copy)]
struct OnLink<'a> {
    question: Question<'a>,
    table: &'a StepTable,
    link: LinkId,
}

impl OnLink<'_> {
    /// Adds the least module cost of a load, counts of modules that carry it at that cost, or where a step ends below it.
    fn tell_load(self, load: u64, text: &mut String) -> Option<()>
        requires link { self.link.0 < length self.table.now.links }
        requires load { load ≤ total_load self.table.now }
    {
        let OnLink {
            question,
            table,
            link,
        } = self;
        if word_at(question.row, 0) == "cost" {
            return write!(text, " {:?}", table.at(link, load)).ok();
        }
        if word_at(question.row, 0) == "below" {
            return write!(text, " {:?}", table.step_below(link, load)).ok();
        }
        let counts = table.counts(question.alloc, link, load).ok()??;
        write!(text, " {:?}", counts.as_slice()).ok()
    }

    /// Adds where a step ends first from one load to below another.
    fn tell_end(self, text: &mut String) -> Option<()>
        requires table { self.table.now ≡ self.question.inst.now }
        requires link { self.link.0 < length self.table.now.links }
    {
        let least = self.question.amount(3);
        let most = self.question.amount(4);
        if most > self.question.inst.total_load() {
            return None;
        }
        let end = self
            .table
            .first_step_end(self.link, LoadRange { least, most });
        write!(text, " {end:?}").ok()
    }

    /// Adds the link value of the prices of the link's places over its ranges, and the first loads that have it.
    fn tell_value(self, price: u128, text: &mut String) -> Option<()>
        requires table { self.table.now ≡ self.question.inst.now }
        requires link { self.link.0 < length self.table.now.links }
        requires price { price ≤ price_limit self.table.now }
    {
        let inst = self.question.inst;
        let back = back_price(self.question);
        if back > inst.price_limit() {
            return None;
        }
        let ranges = ranges_of(self.question)?.of_link(inst, self.link);
        let found = self.table.link_value(self.link, ranges, price, back);
        write!(text, " {} at {}", found.value, found.load).ok()?;
        if inst.orient().is_two_way() {
            write!(text, " back {}", found.back).ok()?;
        }
        Some(())
    }
}

/// Adds the answer to a question about a load or a price on a link.
fn tell_amount(table: &StepTable, question: Question<'_>, text: &mut String) -> Option<()>
    requires { table.now ≡ question.inst.now }
{
    let link = LinkId(question.number(2));
    let amount = question.amount(3);
    let price = u128::from(amount);
    if link.0 >= question.inst.links() {
        return None;
    }
    let on_link = OnLink {
        question,
        table,
        link,
    };
    match word_at(question.row, 0) {
        "value" | "ranged" if price <= question.inst.price_limit() => {
            on_link.tell_value(price, text)
        }
        "end" => on_link.tell_end(text),
        "cost" | "counts" | "below" if amount <= question.inst.total_load() => {
            on_link.tell_load(amount, text)
        }
        _ => None,
    }
}

/// Adds the answer to a question about a link.
pub(crate) fn tell_link(question: Question<'_>, text: &mut String) -> Option<()> {
    let table = table_of(question.alloc, question.inst)?;
    tell_amount(&table, question, text)
}
