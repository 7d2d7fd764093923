//! What the columns and the values put on the places.

ghost use Rattle.std.specs.Prelude.{ℕ, ◌≡◌, ◌<◌, ◌≤◌, ◌+◌, false, length, slice_index, if◌then◌else◌};
ghost use Rattle.plan_base.specs.declared.limits.TheConstants.{MAX_PLACES};
ghost use Rattle.plan_base.specs.Facts.{total_load};
ghost use Rattle.plan_base.specs.Places.{is_two_way, places, there_of, back_of};
ghost use Rattle.plan_base.specs.Paths.{uses_place};
ghost use Rattle.plan_base.specs.Walks.{HasPlacesOnce};
ghost use Rattle.master_step.specs.Restricted.{AreRanges, AreNumbers};
ghost use Rattle.master_step.specs.Trials.{column_load, AreValueLoads};
ghost use Rattle.master_step.specs.Choosing.{allowed_of, AreWithinLimit, HasColumns, IsSource};

use crate::source::Source;
use cut_values::CutTable;
use link_steps::Ranges;
use plan_base::{DemandId, Instance, LinkId, Prices, add_load};

/// Writes what the least columns put on each place, in load grains.
pub fn fill_column_loads(inst: &Instance, prices: &Prices, source: &Source<'_>, loads: &mut [u128])
    requires price_limit { AreWithinLimit inst.now prices.now }
    requires source { IsSource inst.now source.now }
    requires columns { HasColumns inst.now (allowed_of source.now) }
    requires size { length loads.old ≡ MAX_PLACES }
    ensures value { (q : ℕ) → q < MAX_PLACES → slice_index loads.new q ≡ column_load inst.now (allowed_of source.now) prices.now q }
    ensures within { (q : ℕ) → q < MAX_PLACES → slice_index loads.new q ≤ total_load inst.now }
{
    loads.fill(0);
    for place in 0..inst.demands() {
        let demand = DemandId(place);
        let (path, _price) = source.column(inst, demand, prices);
        add_load(inst, loads, path.as_slice(), inst.demand(demand).load);
    }
}

/// Writes the loads of a link's places.
fn put_loads(inst: &Instance, loads: &mut [u128], link: LinkId, load: u128, back: u128)
    requires size { length loads.old ≡ MAX_PLACES }
    requires link { link.0 < length inst.now.links }
    requires one_way { is_two_way inst.now.orient ≡ false → back ≡ 0 }
    ensures size { length loads.new ≡ MAX_PLACES }
    ensures there { there_of inst.now (slice_index loads.new) link.0 ≡ load }
    ensures back { back_of inst.now (slice_index loads.new) link.0 ≡ back }
    ensures there_before { (e : ℕ) → e < link.0 → there_of inst.now (slice_index loads.new) e ≡ there_of inst.now (slice_index loads.old) e }
    ensures back_before { (e : ℕ) → e < link.0 → back_of inst.now (slice_index loads.new) e ≡ back_of inst.now (slice_index loads.old) e }
{
    inst.lawful();
    let number = link.0 as usize;
    if inst.orient().is_two_way() {
        loads[2 * number] = load;
        loads[2 * number + 1] = back;
    } else {
        loads[number] = load;
    }
}

/// Writes the loads that give each link its value, in load grains.
pub fn fill_value_loads(
    inst: &Instance,
    table: &CutTable,
    ranges: &Ranges,
    prices: &Prices,
    loads: &mut [u128],
)
    requires table { table.now.problem ≡ inst.now }
    requires are_ranges { AreRanges inst.now ranges.now }
    requires numbers { AreNumbers inst.now table.now.cuts prices.now }
    requires size { length loads.old ≡ MAX_PLACES }
    ensures value { AreValueLoads inst.now table.now.cuts ranges.now prices.now (slice_index loads.new) }
    ensures within { (q : ℕ) → q < places inst.now → slice_index loads.new q ≤ total_load inst.now }
{
    let mut rows = table.rated_rows();
    for number in 0..inst.links() {
        let link = LinkId(number);
        let ranged = ranges.of_link(inst, link);
        let found = table.link_value(link, ranged, prices, &mut rows);
        put_loads(
            inst,
            loads,
            link,
            u128::from(found.load),
            u128::from(found.back),
        );
    }
}
