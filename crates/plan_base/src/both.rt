//! The two numbers of a link.

ghost use Rattle.std.specs.Prelude.{◌≡◌, ◌<◌, ◌≤◌, length, slice_index};
ghost use Rattle.plan_base.specs.Places.{places, there_of, back_of};

use crate::ids::LinkId;
use crate::instance::Instance;

/// Of numbers of all places that of a link's place and that of its other place, the one of its arc back, and 0 where it has
/// one place.
pub(crate) fn both_of(inst: &Instance, numbers: &[u128], link: LinkId) -> (u128, u128)
    requires numbers { places inst.now ≤ length numbers.now }
    requires link { link.0 < length inst.now.links }
    ensures there { result.0 ≡ there_of inst.now (slice_index numbers.now) link.0 }
    ensures back { result.1 ≡ back_of inst.now (slice_index numbers.now) link.0 }
{
    inst.lawful();
    let number = link.0 as usize;
    if inst.orient().is_two_way() {
        (numbers[2 * number], numbers[2 * number + 1])
    } else {
        (numbers[number], 0)
    }
}
