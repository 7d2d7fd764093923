//! Which arcs a search may take.

ghost use Rattle.std.specs.Prelude.{◌≡◌, IsTrue};
ghost use Rattle.plan_base.specs.Arcs.{is_arc};
ghost use Rattle.arc_restrict.specs.Rows.{forbids};
ghost use Rattle.second_path.specs.Ways.{may_take};

use arc_restrict::Restriction;
use plan_base::{ArcId, DemandId, Instance};

/// The arcs that a search for a path of one demand may take.
#[derive(Clone, Copy)]
pub(crate) struct Ways<'a> {
    pub(crate) inst: &'a Instance,
    pub(crate) restriction: &'a Restriction,
    pub(crate) demand: DemandId,
    /// An arc that is left out.
    pub(crate) left_out: Option<ArcId>,
}

impl<'a> Ways<'a> {
    /// Whether the arc may be taken.
    #[tactic(auto, unfolding(crate::specs::Ways::may_take))]
    pub(crate) fn may_take(&self, arc: ArcId) -> bool
        requires { IsTrue (is_arc self.now.inst.now arc) }
        ensures { result ≡ may_take self.now.inst.now (forbids self.now.restriction.now) self.now.demand.0 self.now.left_out arc }
    {
        let is_left_out = match self.left_out {
            Some(out) => out == arc,
            None => false,
        };
        self.restriction.allows(self.demand, arc) && !is_left_out
    }
}
