//! The restriction of a place in a tree, in marks that can be taken back.

ghost use Rattle.std.specs.Prelude.{◌≡◌, ◌↔◌, ◌<◌, ◌≤◌, ◌+◌, ◌*◌, ◌∷◌, [], true, false, length, IsTrue, IfOk, All, if◌then◌else◌};
ghost use Rattle.arc_restrict.specs.Restrictions.{none_forbidden, with_forbidden};
ghost use Rattle.verifier_paths.specs.Kept.{forbidden_by, AreClear, HasRows, IsUnrestricted, without_forbidden};

use plan_base::{ArcId, DemandId, Instance};
use std::alloc::{AllocError, Global};
use std::marker::Model;

/// Whether none of so many marks is set, from this place on.
fn are_clear(marks: &[bool], start: usize, count: usize) -> bool
    requires { start + count ≤ length marks.now }
    ensures { IsTrue result ↔ AreClear marks.now start count }
{
    for place in 0..count {
        if marks[start + place] {
            return false;
        }
    }
    true
}

/// For each demand a mark for each arc that is forbidden to it.
///
/// - Rule: docs/DEFINITIONS.md, "Restrictions".
#[derive(Debug, Drop)]
pub struct Forbidden {
    demands: u32,
    arcs: u32,
    /// The rows of the demands, one after the other.
    marks: Vec<bool>,
}

impl Model for Forbidden {
    ghost use Rattle.verifier_paths.specs.Kept.{Marks, AreKept};

    ghost Value = { Marks };

    ghost view = { λ a. record { demands = a.demands; arcs = a.arcs; marks = a.marks.items } };

    ghost invariant = { λ a. AreKept a.demands a.arcs a.marks.items };
}

impl Forbidden {
    /// Forbids nothing, with a row for each demand of the instance.
    ///
    /// - Errors: want of memory.
    /// - Rule: docs/DEFINITIONS.md, "Restrictions".
    /// - Time: demands times arcs.
    pub fn none(alloc: Global, inst: &Instance) -> Result<Forbidden, AllocError>
        ensures empty { IfOk result (λ r. forbidden_by r ≡ none_forbidden) }
        ensures size { IfOk result (HasRows inst.now) }
    {
        let demands = inst.demands();
        let arcs = inst.arcs();
        let marks = vec![in alloc; false; demands as usize * arcs as usize]?;
        Ok(Forbidden {
            demands,
            arcs,
            marks,
        })
    }

    /// Forbids nothing, and has no rows.
    pub(crate) fn nothing(alloc: Global) -> Forbidden
        ensures { forbidden_by result ≡ none_forbidden }
    {
        Forbidden {
            demands: 0,
            arcs: 0,
            marks: Vec::new(alloc),
        }
    }

    /// The place of the mark of an arc in the row of a demand.
    fn place_of(&self, demand: DemandId, arc: ArcId) -> usize
        requires demand { demand.0 < self.now.demands }
        requires arc { arc.0 < self.now.arcs }
        ensures value { result ≡ demand.0 * self.now.arcs + arc.0 }
        ensures within { result < length self.now.marks }
    {
        demand.0 as usize * self.arcs as usize + arc.0 as usize
    }

    /// Whether the arc is forbidden to the demand.
    ///
    /// - Gives: `false` also for a demand or an arc that has no mark.
    /// - Rule: docs/DEFINITIONS.md, "Restrictions".
    pub fn forbids(&self, demand: DemandId, arc: ArcId) -> bool
        ensures value { result ≡ forbidden_by self.now demand.0 arc }
    {
        if demand.0 >= self.demands || arc.0 >= self.arcs {
            return false;
        }
        self.marks[self.place_of(demand, arc)]
    }

    /// Whether no arc is forbidden to the demand.
    pub(crate) fn is_unrestricted(&self, demand: DemandId) -> bool
        ensures { IsTrue result ↔ IsUnrestricted (forbidden_by self.now) demand.0 }
    {
        if demand.0 >= self.demands {
            return true;
        }
        let arcs = self.arcs as usize;
        are_clear(&self.marks, demand.0 as usize * arcs, arcs)
    }

    /// Sets the mark of one arc.
    fn set_one(&mut self, demand: DemandId, arc: ArcId, mark: bool)
        requires demand { demand.0 < self.old.demands }
        requires arc { arc.0 < self.old.arcs }
        ensures value { forbidden_by self.new ≡ (if mark then with_forbidden (forbidden_by self.old) demand (arc ∷ [])
            else without_forbidden (forbidden_by self.old) demand (arc ∷ [])) }
        ensures demands { self.new.demands ≡ self.old.demands }
        ensures arcs { self.new.arcs ≡ self.old.arcs }
    {
        let place = self.place_of(demand, arc);
        self.marks[place] = mark;
    }

    /// Forbids the arcs to the demand, beside what is forbidden already.
    ///
    /// - Takes: a demand and arcs of the instance that the rows were made for.
    /// - Rule: docs/DEFINITIONS.md, "Restrictions".
    pub fn forbid(&mut self, demand: DemandId, arcs: &[ArcId])
        requires demand { demand.0 < self.old.demands }
        requires arcs { All (λ a. a.0 < self.old.arcs) arcs.now }
        ensures value { forbidden_by self.new ≡ with_forbidden (forbidden_by self.old) demand arcs.now }
        ensures demands { self.new.demands ≡ self.old.demands }
        ensures arcs { self.new.arcs ≡ self.old.arcs }
    {
        for arc in arcs {
            self.set_one(demand, *arc, true);
        }
    }

    /// Forbids the arcs to the demand no more; all else stays as it is.
    ///
    /// - Takes: a demand and arcs of the instance that the rows were made for.
    /// - Rule: docs/DEFINITIONS.md, "Restrictions".
    pub fn undo(&mut self, demand: DemandId, arcs: &[ArcId])
        requires demand { demand.0 < self.old.demands }
        requires arcs { All (λ a. a.0 < self.old.arcs) arcs.now }
        ensures value { forbidden_by self.new ≡ without_forbidden (forbidden_by self.old) demand arcs.now }
        ensures demands { self.new.demands ≡ self.old.demands }
        ensures arcs { self.new.arcs ≡ self.old.arcs }
    {
        for arc in arcs {
            self.set_one(demand, *arc, false);
        }
    }
}
