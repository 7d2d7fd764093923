//! Whether a path is a permitted simple path of a demand.

ghost use Rattle.std.specs.Prelude.{◌≡◌, ◌<◌, ◌||◌, ◌&&◌, ◌==◌, ℕ, IfOk};
ghost use Rattle.std.specs.Result.{result_err};
ghost use Rattle.base_items.specs.Met.{is_met};
ghost use Rattle.plan_base.specs.Facts.{IsInstance};
ghost use Rattle.plan_base.specs.Arcs.{is_arc, tail_of, head_of};
ghost use Rattle.arc_restrict.specs.Rows.{forbids};
ghost use Rattle.path_pricing.specs.Faults.{walk_fault};
ghost use Rattle.path_pricing.specs.Walks.{step_fault};

use crate::priced::Unfit;
use crate::query::Query;
use base_items::MetNodes;
use plan_base::{ArcId, Demand, Instance, NodeId};

/// Whether the arc exists and begins at the node.
fn leaves(inst: &Instance, arc: ArcId, node: NodeId) -> bool
    ensures { result ≡ (is_arc inst.now arc && ((tail_of inst.now arc).0 == node.0)) }
{
    inst.is_arc(arc) && inst.tail(arc) == node
}

impl Query<'_> {
    /// The node that a walk goes on to along the arc at this place.
    #[tactic(auto, unfolding(crate::specs::Walks::step_fault))]
    fn next_node(
        &self,
        place: u32,
        here: NodeId,
        arc: ArcId,
        met: &mut MetNodes,
    ) -> Result<NodeId, Unfit>
        ensures fault { result_err result
            ≡ step_fault self.now.inst.now (forbids self.now.restriction.now self.now.demand.0) met.old here.0 place arc }
        ensures next { IfOk result (λ next. next ≡ head_of self.now.inst.now arc) }
        ensures met { IfOk result (λ next. (n : ℕ) → is_met met.new n ≡ (is_met met.old n || (next.0 == n))) }
    {
        if !leaves(self.inst, arc, here) {
            return Err(Unfit::NotPermitted { place });
        }
        let next = self.inst.head(arc);
        self.inst.lawful();
        if met.has(next.0) {
            return Err(Unfit::NotPermitted { place });
        }
        if !self.restriction.allows(self.demand, arc) {
            return Err(Unfit::NotPermitted { place });
        }
        met.add(next.0);
        Ok(next)
    }

    /// Whether the arcs are a permitted simple path of the demand.
    pub fn check_walk(&self, demand: &Demand, arcs: &[ArcId]) -> Result<(), Unfit>
        requires lawful { IsInstance self.now.inst.now }
        requires source { demand.now.source.0 < self.now.inst.now.nodes }
        ensures { result_err result
            ≡ walk_fault self.now.inst.now demand.now (forbids self.now.restriction.now self.now.demand.0) arcs.now }
    {
        let mut here = demand.source;
        let mut met = MetNodes::new();
        met.begin(here.0);
        for (place, arc) in arcs.iter().enumerate() {
            here = self.next_node(place as u32, here, *arc, &mut met)?;
        }
        if here != demand.target {
            return Err(Unfit::NotPermitted {
                place: arcs.len() as u32,
            });
        }
        Ok(())
    }
}
