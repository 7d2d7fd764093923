//! The unforbidden arcs of a node, dealt out to two sides.

ghost use Rattle.std.specs.Prelude.{◌≡◌, ◌++◌, ◌∷◌, [], not, if◌then◌else◌, length, IfOk};
ghost use Rattle.arc_restrict.specs.Rows.{forbids};
ghost use Rattle.branch_tree.specs.Dealing.{takes_left, is_neither, goes_left, goes_right, picked};

use arc_restrict::Restriction;
use plan_base::{ArcId, DemandId};
use std::alloc::{AllocError, Global};

/// Two sides of a split, and whose turn it is while arcs are dealt out to them.
#[derive(Debug, Drop)]
pub struct Sides {
    /// The arcs that the left child forbids, ascending.
    pub left: Vec<ArcId>,
    /// The arcs that the right child forbids, ascending.
    pub right: Vec<ArcId>,
    /// Whether the next arc that is neither path's goes to the left.
    is_left_turn: bool,
}

impl Sides {
    /// Puts an arc on its side: the first path's arc to the left, the second path's arc to the
    /// right, any other one to the side whose turn it is.
    fn put(&mut self, one: ArcId, other: ArcId, arc: ArcId) -> Result<(), AllocError>
        ensures left { IfOk result (λ _. self.new.left.items
            ≡ (if takes_left one other self.old.is_left_turn arc then self.old.left.items ++ (arc ∷ []) else self.old.left.items)) }
        ensures right { IfOk result (λ _. self.new.right.items
            ≡ (if takes_left one other self.old.is_left_turn arc then self.old.right.items else self.old.right.items ++ (arc ∷ []))) }
        ensures turn { IfOk result (λ _. self.new.is_left_turn
            ≡ (if is_neither one other arc then not self.old.is_left_turn else self.old.is_left_turn)) }
    {
        if arc == one {
            self.left.push(arc)?;
        } else if arc == other {
            self.right.push(arc)?;
        } else if self.is_left_turn {
            self.left.push(arc)?;
            self.is_left_turn = false;
        } else {
            self.right.push(arc)?;
            self.is_left_turn = true;
        }
        Ok(())
    }
}

/// The arcs that are not forbidden to the demand, dealt out in turn: the first path's arc to the
/// left, the second path's arc to the right, and of the others the first to the left.
///
/// - Takes: the arcs of the two paths where they part, and the arcs that leave the node there,
///   ascending.
/// - Errors: want of memory alone.
/// - Rule: docs/METHOD.md, "Search trees".
/// - Time: linear in the arcs and in what is forbidden to the demand.
pub fn deal(
    alloc: Global,
    restriction: &Restriction,
    demand: DemandId,
    one: ArcId,
    other: ArcId,
    arcs: &[ArcId],
) -> Result<Sides, AllocError>
    ensures left { IfOk result (λ sides. sides.left.items
        ≡ picked (goes_left (forbids restriction.now) demand.0 one other arcs.now) arcs.now (length arcs.now)) }
    ensures right { IfOk result (λ sides. sides.right.items
        ≡ picked (goes_right (forbids restriction.now) demand.0 one other arcs.now) arcs.now (length arcs.now)) }
{
    let mut sides = Sides {
        left: Vec::new(alloc),
        right: Vec::new(alloc),
        is_left_turn: true,
    };
    for arc in arcs {
        if restriction.allows(demand, *arc) {
            sides.put(one, other, *arc)?;
        }
    }
    Ok(sides)
}
