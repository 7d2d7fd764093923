//! What places carry while demands are taken off them and laid on them.

ghost use Rattle.std.specs.Prelude.{ℕ, ◌≡◌, ◌<◌, ◌+◌, ◌*◌, ◌-◌, min, slice_index, ◌==◌, if◌then◌else◌};
ghost use Rattle.demand_routing.specs.Traffic.{arcs_along};

use plan_base::limits::MAX_PLACES;
use plan_base::{ArcId, Instance};

/// Adds a load to what one place carries, up to the greatest number.
fn add_at(loads: &mut [u128; MAX_PLACES], place: usize, load: u128)
    ensures { (q : ℕ) → q < MAX_PLACES → slice_index loads.new q
        ≡ (if place == q then min (slice_index loads.old q + load) u128.MAX else slice_index loads.old q) }
{
    if place < MAX_PLACES {
        loads[place] = loads[place].saturating_add(load);
    }
}

/// Takes a load from what one place carries, down to 0.
fn remove_at(loads: &mut [u128; MAX_PLACES], place: usize, load: u128)
    ensures { (q : ℕ) → q < MAX_PLACES → slice_index loads.new q
        ≡ (if place == q then slice_index loads.old q - load else slice_index loads.old q) }
{
    if place < MAX_PLACES {
        loads[place] = loads[place].saturating_sub(load);
    }
}

/// Adds a load to the places of a path, once for each arc.
fn add_load(inst: &Instance, loads: &mut [u128; MAX_PLACES], arcs: &[ArcId], load: u128)
    ensures { (q : ℕ) → q < MAX_PLACES → slice_index loads.new q
        ≡ min (slice_index loads.old q + arcs_along inst.now q arcs.now * load) u128.MAX }
{
    for arc in arcs {
        add_at(loads, inst.place(*arc) as usize, load);
    }
}

/// Takes a load from the places of a path, once for each arc.
fn remove_load(inst: &Instance, loads: &mut [u128; MAX_PLACES], arcs: &[ArcId], load: u128)
    ensures { (q : ℕ) → q < MAX_PLACES → slice_index loads.new q
        ≡ slice_index loads.old q - arcs_along inst.now q arcs.now * load }
{
    for arc in arcs {
        remove_at(loads, inst.place(*arc) as usize, load);
    }
}

/// Adds a load to the places of a path, or takes it from them.
pub fn change_load(
    inst: &Instance,
    loads: &mut [u128; MAX_PLACES],
    arcs: &[ArcId],
    load: u128,
    laid: bool,
)
    ensures { (q : ℕ) → q < MAX_PLACES → slice_index loads.new q
        ≡ (if laid then min (slice_index loads.old q + arcs_along inst.now q arcs.now * load) u128.MAX
        else slice_index loads.old q - arcs_along inst.now q arcs.now * load) }
{
    if laid {
        add_load(inst, loads, arcs, load);
    } else {
        remove_load(inst, loads, arcs, load);
    }
}
