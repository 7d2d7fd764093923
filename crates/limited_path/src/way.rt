//! The way of a label, read back from it.

ghost use Rattle.std.specs.Prelude.{◌≡◌, ◌<◌, ◌≤◌, length, vec_capacity};
ghost use Rattle.limited_path.specs.Labels.{AreWays, label_at, way};

use crate::rounds::Query;
use crate::ways::Ways;
use plan_base::ArcId;

impl Query<'_> {
    /// Sets the arcs to the way of the label at this place.
    pub fn read_way(&self, ways: &Ways, place: usize, arcs: &mut Vec<ArcId>)
        requires ways { AreWays self.now.inst.now self.now.weights.now self.now.source ways.now.labels.items ways.now.latest.items }
        requires place { place < length ways.now.labels.items }
        requires memory { (label_at ways.now.labels.items place).steps ≤ vec_capacity arcs.old }
        ensures arcs { arcs.new.items ≡ way ways.now.labels.items (label_at ways.now.labels.items place).steps (label_at ways.now.labels.items place) }
        ensures memory { vec_capacity arcs.new ≡ vec_capacity arcs.old }
    {
        arcs.clear();
        let mut here = ways.labels[place];
        while here.steps > 0 {
            arcs.push_reserved(here.via);
            here = ways.labels[here.parent];
        }
        arcs.reverse();
    }
}
