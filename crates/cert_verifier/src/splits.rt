//! The rules of the two kinds of split.

ghost use Rattle.std.specs.Prelude.{◌≡◌, ◌↔◌, length, All, IsTrue};
ghost use Rattle.plan_base.specs.Arcs.{is_arc};
ghost use Rattle.plan_base.specs.Places.{places};
ghost use Rattle.arc_restrict.specs.Restrictions.{is_among};
ghost use Rattle.verifier_paths.specs.Kept.{forbidden_by};
ghost use Rattle.cert_verifier.specs.SplitRules.{Exist, Leave, AreApart, AreAllowed, SplitFinds, HasBothSides, LoadsFind};
ghost use Rattle.std.specs.Result.{result_err};

use crate::rejected::Rejected;
use link_steps::{LoadRange, Ranges};
use plan_base::{ArcId, DemandId, Instance, NodeId};
use verifier_paths::Forbidden;

/// A split of the record of this index.
#[derive(Clone, Copy)]
pub(crate) struct Split<'a> {
    pub(crate) index: u32,
    pub(crate) demand: DemandId,
    pub(crate) node: NodeId,
    pub(crate) left: &'a [ArcId],
    pub(crate) right: &'a [ArcId],
}

/// Whether all arcs exist.
fn are_arcs(inst: &Instance, arcs: &[ArcId]) -> bool
    ensures { IsTrue result ↔ All (λ a. IsTrue (is_arc inst.now a)) arcs.now }
{
    arcs.iter().all(|arc| inst.is_arc(*arc))
}

/// Whether all arcs leave the node.
fn leave(inst: &Instance, node: NodeId, arcs: &[ArcId]) -> bool
    requires { All (λ a. IsTrue (is_arc inst.now a)) arcs.now }
    ensures { IsTrue result ↔ Leave inst.now node arcs.now }
{
    for arc in arcs {
        if inst.tail(*arc).0 != node.0 {
            return false;
        }
    }
    true
}

/// Whether the arc is one of these.
fn is_among(arcs: &[ArcId], arc: ArcId) -> bool
    ensures { result ≡ is_among arcs.now arc }
{
    arcs.iter().any(|other| other.0 == arc.0)
}

/// Whether the sides share no arc.
fn are_apart(left: &[ArcId], right: &[ArcId]) -> bool
    ensures { IsTrue result ↔ AreApart left.now right.now }
{
    left.iter().all(|arc| !is_among(right, *arc))
}

/// Whether no arc is forbidden to the demand.
fn are_free(forbidden: &Forbidden, demand: DemandId, arcs: &[ArcId]) -> bool
    ensures { IsTrue result ↔ AreAllowed (forbidden_by forbidden.now) demand arcs.now }
{
    arcs.iter().all(|arc| !forbidden.forbids(demand, *arc))
}

/// Whether what the split names exists.
fn exist(inst: &Instance, split: &Split) -> bool
    ensures { IsTrue result ↔ Exist inst.now split.now.demand split.now.node split.now.left.now split.now.right.now }
{
    split.demand.0 < inst.demands()
        && split.node.0 < inst.nodes()
        && are_arcs(inst, split.left)
        && are_arcs(inst, split.right)
}

/// The first rule that the split breaks.
#[tactic(auto, using(crate::proofs::FirstRules::first_rules), unfolding(crate::specs::SplitRules::SplitFinds))]
pub(crate) fn check_split(
    inst: &Instance,
    forbidden: &Forbidden,
    split: &Split,
) -> Result<(), Rejected>
    ensures { SplitFinds inst.now (forbidden_by forbidden.now) split.now.index split.now.demand split.now.node split.now.left.now split.now.right.now (result_err result) }
{
    let index = split.index;
    if !exist(inst, split) {
        return Err(Rejected::Split { index, rule: 1 });
    }
    if split.left.is_empty() || split.right.is_empty() {
        return Err(Rejected::Split { index, rule: 2 });
    }
    if !leave(inst, split.node, split.left) || !leave(inst, split.node, split.right) {
        return Err(Rejected::Split { index, rule: 3 });
    }
    if !are_apart(split.left, split.right) {
        return Err(Rejected::Split { index, rule: 4 });
    }
    if !are_free(forbidden, split.demand, split.left)
        || !are_free(forbidden, split.demand, split.right)
    {
        return Err(Rejected::Split { index, rule: 5 });
    }
    Ok(())
}

/// Whether the range has loads up to this one, in load grains, and loads above it.
fn has_both_sides(range: LoadRange, load: u64) -> bool
    ensures { IsTrue result ↔ HasBothSides range load }
{
    range.least <= load && load < range.most
}

/// The first rule that the split of a place's loads of the record of this index breaks; the load is in load grains.
#[tactic(auto, using(crate::proofs::FirstRules::first_rules), unfolding(crate::specs::SplitRules::LoadsFind))]
pub(crate) fn check_loads(
    inst: &Instance,
    ranges: &Ranges,
    index: u32,
    place: u32,
    load: u64,
) -> Result<(), Rejected>
    requires { length ranges.now ≡ places inst.now }
    ensures { LoadsFind inst.now ranges.now index place load (result_err result) }
{
    if place >= inst.places() {
        return Err(Rejected::Split { index, rule: 1 });
    }
    if !has_both_sides(ranges.at(place), load) {
        return Err(Rejected::Split { index, rule: 2 });
    }
    Ok(())
}
