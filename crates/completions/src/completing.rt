//! The cheapest design for given paths.

ghost use Rattle.std.specs.Prelude.{ℕ, ◌≡◌, ◌<◌, ◌≤◌, ◌+◌, ◌*◌, max, length, ◌↔◌, IfOk, IfSome, IfNone, IsTrue, IsFalse};
ghost use Rattle.plan_base.specs.Facts.{IsInstance, total_load};
ghost use Rattle.plan_base.specs.Arcs.{link_at};
ghost use Rattle.plan_base.specs.Places.{places};
ghost use Rattle.link_steps.specs.Ranges.{IsIn, range_at, AreRanges};
ghost use Rattle.plan_base.specs.Designs.{need, counts_at};
ghost use Rattle.link_steps.specs.Costs.{CanCarry, CannotCarry, AreLeastCounts};
ghost use Rattle.completions.specs.Completions.{ArePaths, IsCompletion, HasOverfull, CarryLoads, IsFirstOverfull, HasOutside, AreInside};
ghost use Rattle.completions.specs.Links.{IsLinkCompletion, AreCompletedTo};

use link_steps::{Ranges, StepTable};
use plan_base::limits::MAX_ROUTING_COST;
use plan_base::{Design, Instance, Items, LinkId, LinkLoads, Path, loads_of};
use std::alloc::{AllocError, Global};

/// The most that one link costs where each of its places carries at most the total load at the link's least cost, in cost
/// grains.
pub const LINK_COST_BOUND: u128 = 3_000_000_000_000_000_000_000_000_000_000;

/// The routing cost of the loads of a link's places, in cost grains.
pub fn routing_cost(inst: &Instance, link: LinkId, loads: LinkLoads) -> u128
    requires lawful { IsInstance inst.now }
    requires link { link.0 < length inst.now.links }
    requires need { max loads.there loads.back ≤ total_load inst.now }
    ensures value { result ≡ (link_at inst.now link.0).routing * (loads.there + loads.back) }
    ensures within { result ≤ 2 * MAX_ROUTING_COST }
{
    u128::from(inst.link(link).routing) * (loads.there + loads.back)
}

/// The step cost of the loads of a link's places, in cost grains, and counts that attain it; None where no counts carry
/// what the link needs.
fn complete_link(
    alloc: Global,
    table: &StepTable,
    link: LinkId,
    loads: LinkLoads,
) -> Result<Option<(u128, Items<u64>)>, AllocError>
    requires lawful { IsInstance table.now }
    requires link { link.0 < length table.now.links }
    requires need { max loads.there loads.back ≤ total_load table.now }
    ensures some { IfOk result (λ found. IfSome found (λ done. IsLinkCompletion table.now link.0 loads.there loads.back done.0 done.1)) }
    ensures within { IfOk result (λ found. IfSome found (λ done. done.0 ≤ LINK_COST_BOUND)) }
    ensures none { IfOk result (λ found. IfNone found (CannotCarry table.now link.0 (max loads.there loads.back))) }
{
    let inst = table.instance();
    let need = loads.need() as u64;
    let Some(modules) = table.at(link, need) else {
        return Ok(None);
    };
    let Some(counts) = table.counts(alloc, link, need)? else {
        return Ok(None);
    };
    Ok(Some((routing_cost(inst, link, loads) + modules, counts)))
}

/// What all links cost with the paths of a design and least counts, in cost grains, and these counts; None where no
/// counts of some link carry what it needs.
fn complete_links(
    alloc: Global,
    table: &StepTable,
    design: &Design,
) -> Result<Option<(u128, Items<Items<u64>>)>, AllocError>
    requires paths { ArePaths table.now design.now.paths }
    ensures some { IfOk result (λ found. IfSome found (λ done. AreCompletedTo table.now design.now.paths (length table.now.links) done.0 done.1)) }
    ensures none { IfOk result (λ found. IfNone found (HasOverfull table.now design.now.paths)) }
{
    let inst = table.instance();
    let loads = loads_of(inst, design);
    let mut all = Vec::new(alloc);
    let mut cost = 0;
    for place in 0..inst.links() {
        let link = LinkId(place);
        let held = LinkLoads::of_link(inst, &loads, link);
        let Some((least, counts)) = complete_link(alloc, table, link, held)? else {
            return Ok(None);
        };
        cost += least;
        all.push(counts)?;
    }
    Ok(Some((cost, Items::from_vec(all))))
}

/// The least cost of a design with these paths, and a design that has it.
///
/// - Takes: an instance and its step table; one simple path for each demand, in order.
/// - Gives: the cost in cost grains and a design in shape with just these paths, whose links carry its loads; None exactly
///   where some link cannot carry by any counts what it needs.
/// - Errors: want of memory alone. The paths are spent.
/// - Rule: docs/METHOD.md, "Completions".
/// - Time: linear in the arcs of all paths and in the counts of all links.
pub fn complete(
    alloc: Global,
    table: &StepTable,
    paths: Items<Path>,
) -> Result<Option<(u128, Design)>, AllocError>
    requires paths { ArePaths table.now paths }
    ensures some { IfOk result (λ found. IfSome found (λ done. IsCompletion table.now paths done.0 done.1)) }
    ensures counts { IfOk result (λ found. IfSome found (λ done. (e : ℕ) → e < length table.now.links
        → AreLeastCounts table.now e (need table.now done.1 e) (counts_at done.1 e))) }
    ensures none { IfOk result (λ found. IfNone found (HasOverfull table.now paths)) }
{
    let mut design = Design {
        paths,
        counts: Items::new(alloc),
    };
    let Some((cost, counts)) = complete_links(alloc, table, &design)? else {
        return Ok(None);
    };
    design.counts = counts;
    Ok(Some((cost, design)))
}

/// Whether some counts of a link carry what the loads of its places need.
fn can_carry(table: &StepTable, link: LinkId, loads: LinkLoads) -> bool
    requires lawful { IsInstance table.now }
    requires link { link.0 < length table.now.links }
    requires need { max loads.there loads.back ≤ total_load table.now }
    ensures yes { IsTrue result → CanCarry table.now link.0 (max loads.there loads.back) }
    ensures no { IsFalse result → CannotCarry table.now link.0 (max loads.there loads.back) }
{
    table.at(link, loads.need() as u64).is_some()
}

/// The first link that cannot carry, by any counts, what it needs for the paths of a design. `complete` gives None for
/// these paths exactly where there is one. Takes no memory.
///
/// - Takes: an instance and its step table; a design with one simple path for each demand, in order. Its counts are not
///   read.
/// - Rule: docs/METHOD.md, "Completions".
/// - Time: linear in the arcs of all paths, and for each link the logarithm of the number of its steps.
pub fn overfull_link(table: &StepTable, design: &Design) -> Option<LinkId>
    requires paths { ArePaths table.now design.now.paths }
    ensures some { IfSome result (λ link. IsFirstOverfull table.now design.now.paths link.0) }
    ensures none { IfNone result (CarryLoads table.now design.now.paths (length table.now.links)) }
{
    let inst = table.instance();
    let loads = loads_of(inst, design);
    for place in 0..inst.links() {
        let link = LinkId(place);
        let held = LinkLoads::of_link(inst, &loads, link);
        if !can_carry(table, link, held) {
            return Some(link);
        }
    }
    None
}

/// Whether a place's load is in its range.
fn is_in(ranges: &Ranges, place: u32, load: u128) -> bool
    requires { place < length ranges.now }
    ensures { IsTrue result ↔ IsIn (range_at ranges.now place) load }
{
    let range = ranges.at(place);
    u128::from(range.least) <= load && load <= u128::from(range.most)
}

/// The link of the first place whose load for the paths of a design lies outside its range. Takes no memory.
///
/// - Takes: an instance; ranges of its places; a design with one simple path for each demand, in order. Its counts are not
///   read.
/// - Rule: docs/DEFINITIONS.md, "Ranges of loads".
/// - Time: linear in the arcs of all paths and in the places.
pub fn outside_link(inst: &Instance, ranges: &Ranges, design: &Design) -> Option<LinkId>
    requires ranges { AreRanges inst.now ranges.now }
    requires paths { ArePaths inst.now design.now.paths }
    ensures some { IfSome result (λ link. HasOutside inst.now ranges.now design.now.paths link.0) }
    ensures none { IfNone result (AreInside inst.now ranges.now design.now.paths (places inst.now)) }
{
    inst.lawful();
    let loads = loads_of(inst, design);
    for place in 0..inst.places() {
        if !is_in(ranges, place, loads[place as usize]) {
            return Some(inst.link_of_place(place));
        }
    }
    None
}
