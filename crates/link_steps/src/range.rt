//! How much load each place may carry.

ghost use Rattle.std.specs.Prelude.{◌≡◌, ◌<◌, ◌↔◌, length, IsTrue, IfOk};
ghost use Rattle.plan_base.specs.Places.{places};
ghost use Rattle.link_steps.specs.Ranges.{range_at, whole_range, whole_ranges, with_range, IsRange, AreRangesBefore, AreRanges};
ghost use Rattle.link_steps.specs.Values.{ranges_of_link, AreLinkRanges};

use plan_base::{Instance, LinkId};
use std::alloc::{AllocError, Global};
use std::marker::Model;

/// The loads that a place may carry, from the least to the most.
#[derive(Clone, Copy, Debug, PartialEq, Eq)]
pub struct LoadRange {
    /// The least of them, in load grains.
    pub least: u64,
    /// The most of them, in load grains.
    pub most: u64,
}

/// The ranges of a link's places.
#[derive(Clone, Copy, Debug, PartialEq, Eq)]
pub struct LinkRanges {
    /// The range of its place, or of the place of its arc from source to target.
    pub there: LoadRange,
    /// The range of the place of its arc back, no load where it has one place.
    pub back: LoadRange,
}

/// For each place the loads that it may carry.
#[derive(Debug, Drop)]
pub struct Ranges {
    rows: Vec<LoadRange>,
}

impl Model for Ranges {
    ghost use Rattle.std.specs.Prelude.{List};
    ghost use Rattle.link_steps.specs.declared.range.LoadRange.{LoadRange};

    ghost Value = { List LoadRange };

    ghost view = { λ a. a.rows.items };
}

/// All loads of a place.
fn whole_range(inst: &Instance, place: u32) -> LoadRange
    requires { place < places inst.now }
    ensures { result ≡ whole_range inst.now place }
{
    LoadRange {
        least: 0,
        most: inst.top_load(inst.link_of_place(place)),
    }
}

/// Puts all loads of each place over other ranges.
fn put_whole(inst: &Instance, rows: &mut Vec<LoadRange>)
    requires { length rows.old.items ≡ places inst.now }
    ensures { rows.new.items ≡ whole_ranges inst.now }
{
    for place in 0..inst.places() {
        rows[place as usize] = whole_range(inst, place);
    }
}

/// Whether a range has a load, and none above the top load.
fn is_range(range: LoadRange, top: u64) -> bool
    ensures { IsTrue result ↔ IsRange top range }
{
    range.least <= range.most && range.most <= top
}

/// Whether each place's range has a load, and none above the top load of its link.
fn are_ranges(inst: &Instance, rows: &[LoadRange]) -> bool
    requires { length rows.now ≡ places inst.now }
    ensures { IsTrue result ↔ AreRangesBefore inst.now rows.now (places inst.now) }
{
    for place in 0..inst.places() {
        let top = inst.top_load(inst.link_of_place(place));
        if !is_range(rows[place as usize], top) {
            return false;
        }
    }
    true
}

impl Ranges {
    /// All loads of each place: from 0 to the top load of its link.
    ///
    /// - Errors: want of memory alone.
    /// - Rule: docs/DEFINITIONS.md, "Ranges of loads".
    pub fn whole(alloc: Global, inst: &Instance) -> Result<Ranges, AllocError>
        ensures value { IfOk result (λ ranges. ranges ≡ whole_ranges inst.now) }
        ensures ranges { IfOk result (AreRanges inst.now) }
    {
        let mut rows = Vec::new(alloc);
        for place in 0..inst.places() {
            rows.push(whole_range(inst, place))?;
        }
        Ok(Ranges { rows })
    }

    /// Gives each place all loads again. Takes no memory.
    ///
    /// - Takes: as many ranges as the instance has places.
    pub fn set_whole(&mut self, inst: &Instance)
        requires { length self.old ≡ places inst.now }
        ensures { self.new ≡ whole_ranges inst.now }
    {
        put_whole(inst, &mut self.rows);
    }

    /// Whether there is one range for each place, with a load and none above the top load of its link. Takes no memory.
    ///
    /// - Rule: docs/DEFINITIONS.md, "Ranges of loads".
    /// - Time: linear in the places and their links' modules.
    pub fn fits(&self, inst: &Instance) -> bool
        ensures { IsTrue result ↔ AreRanges inst.now self.now }
    {
        self.rows.len() == inst.places() as usize && are_ranges(inst, &self.rows)
    }

    /// The range of a place.
    pub fn at(&self, place: u32) -> LoadRange
        requires { place < length self.now }
        ensures { result ≡ range_at self.now place }
    {
        self.rows[place as usize]
    }

    /// Gives a place another range.
    pub fn set(&mut self, place: u32, range: LoadRange)
        requires { place < length self.old }
        ensures { self.new ≡ with_range self.old place range }
    {
        self.rows[place as usize] = range;
    }

    /// The ranges of a link's places.
    pub fn of_link(&self, inst: &Instance, link: LinkId) -> LinkRanges
        requires count { length self.now ≡ places inst.now }
        requires link { link.0 < length inst.now.links }
        ensures value { result ≡ ranges_of_link inst.now self.now link.0 }
        ensures ranges { AreRanges inst.now self.now → AreLinkRanges inst.now link.0 result }
    {
        inst.lawful();
        let number = link.0 as usize;
        if inst.orient().is_two_way() {
            LinkRanges {
                there: self.rows[2 * number],
                back: self.rows[2 * number + 1],
            }
        } else {
            LinkRanges {
                there: self.rows[number],
                back: LoadRange { least: 0, most: 0 },
            }
        }
    }

    /// A copy.
    ///
    /// - Errors: want of memory alone.
    pub fn copy(&self) -> Result<Ranges, AllocError>
        ensures { IfOk result (λ copy. copy ≡ self.now) }
    {
        Ok(Ranges {
            rows: self.rows.clone()?,
        })
    }
}
