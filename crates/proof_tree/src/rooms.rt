//! What places carry where no module is added.

ghost use Rattle.std.specs.Prelude.{◌≡◌, ◌<◌, length};
ghost use Rattle.plan_base.specs.Places.{places};
ghost use Rattle.proof_tree.specs.Evidence.{is_cut_short, room_at};

use link_steps::Ranges;
use plan_base::Instance;

/// Whether the range of a place ends below the top load of its link. Takes no memory.
///
/// - Takes: one range for each place; a place of the instance.
/// - Rule: docs/DEFINITIONS.md, "Evidence of a leaf".
pub fn is_cut_short(inst: &Instance, ranges: &Ranges, place: u32) -> bool
    requires ranges { length ranges.now ≡ places inst.now }
    requires place { place < places inst.now }
    ensures { result ≡ is_cut_short inst.now ranges.now place }
{
    ranges.at(place).most < inst.top_load(inst.link_of_place(place))
}

/// What a place carries at most where no module is added, in load grains. Takes no memory.
///
/// - Takes: one range for each place; a place of the instance.
/// - Rule: docs/DEFINITIONS.md, "Evidence of a leaf".
pub fn room_at(inst: &Instance, ranges: &Ranges, place: u32) -> u64
    requires ranges { length ranges.now ≡ places inst.now }
    requires place { place < places inst.now }
    ensures { result ≡ room_at inst.now ranges.now place }
{
    if is_cut_short(inst, ranges, place) {
        ranges.at(place).most
    } else {
        inst.link(inst.link_of_place(place)).pre
    }
}
