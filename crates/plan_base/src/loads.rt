//! What places and links carry.

ghost use Rattle.std.specs.Prelude.{◌≡◌, ◌<◌, ◌≤◌, ◌+◌, ℕ, max, length, slice_index, if◌then◌else◌};
ghost use Rattle.plan_base.specs.Facts.{total_load};
ghost use Rattle.plan_base.specs.Arcs.{demand_at};
ghost use Rattle.plan_base.specs.Paths.{uses_place, IsSimplePath};
ghost use Rattle.plan_base.specs.Places.{there_of, back_of};
ghost use Rattle.plan_base.specs.Designs.{path_at, load_at, need, carried};
ghost use Rattle.plan_base.specs.Walks.{HasPlacesOnce};

use crate::both::both_of;
use crate::ids::{ArcId, DemandId, LinkId};
use crate::instance::Instance;
use crate::limits::{MAX_PLACES, MAX_TOTAL_LOAD};
use crate::path::Design;

/// Adds a load to each place of a path, in load grains. Takes no memory.
///
/// - Takes: one load for each place that an instance may have, none above the greatest total load, and a load of at most
///   that; a path that has no place twice.
/// - Time: linear in the arcs.
pub fn add_load(inst: &Instance, loads: &mut [u128], arcs: &[ArcId], load: u128)
    requires size { length loads.old ≡ MAX_PLACES }
    requires once { HasPlacesOnce inst.now MAX_PLACES arcs.now }
    requires load { load ≤ MAX_TOTAL_LOAD }
    requires loads { (q : ℕ) → q < MAX_PLACES → slice_index loads.old q ≤ MAX_TOTAL_LOAD }
    ensures { (q : ℕ) → q < MAX_PLACES → slice_index loads.new q
        ≡ slice_index loads.old q + (if uses_place inst.now q arcs.now then load else 0) }
{
    for arc in arcs {
        loads[inst.place(*arc) as usize] += load;
    }
}

/// The load of each place, in load grains.
///
/// - Takes: an instance; a design with one simple path for each demand. Its counts are not read.
/// - Gives: one load for each place, and 0 past the last.
/// - Rule: docs/DEFINITIONS.md, "Designs".
/// - Time: linear in the arcs of all paths. Takes no memory.
pub fn loads_of(inst: &Instance, design: &Design) -> [u128; MAX_PLACES]
    requires paths { length design.now.paths ≡ length inst.now.demands }
    requires simple { (k : ℕ) → k < length inst.now.demands
        → IsSimplePath inst.now (demand_at inst.now k) (path_at design.now k) }
    ensures value { (q : ℕ) → q < MAX_PLACES → slice_index result q ≡ load_at inst.now design.now q }
    ensures within { (q : ℕ) → q < MAX_PLACES → slice_index result q ≤ total_load inst.now }
{
    let mut loads = [0; MAX_PLACES];
    for place in 0..inst.demands() {
        let path = &design.paths.as_slice()[place as usize];
        let load = inst.demand(DemandId(place)).load;
        add_load(inst, &mut loads, path.as_slice(), load);
    }
    loads
}

/// The loads of a link's places, in load grains.
#[derive(Clone, Copy, Debug)]
pub struct LinkLoads {
    /// That of its place.
    pub there: u128,
    /// That of its other place, the one of its arc back, and 0 where it has one place.
    pub back: u128,
}

impl LinkLoads {
    /// The loads of a link, from those of all places.
    ///
    /// - Rule: docs/DEFINITIONS.md, "Places".
    pub fn of_link(inst: &Instance, loads: &[u128; MAX_PLACES], link: LinkId) -> LinkLoads
        requires { link.0 < length inst.now.links }
        ensures there { result.there ≡ there_of inst.now (slice_index loads.now) link.0 }
        ensures back { result.back ≡ back_of inst.now (slice_index loads.now) link.0 }
    {
        let _places = inst.places();
        let (there, back) = both_of(inst, loads, link);
        LinkLoads { there, back }
    }

    /// The larger one: the capacity that the link needs.
    pub fn need(self) -> u128
        ensures { result ≡ max self.there self.back }
    {
        self.there.max(self.back)
    }
}
