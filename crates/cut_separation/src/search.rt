//! The search for cuts that loads violate.

ghost use Rattle.std.specs.Prelude.{◌≡◌, IfOk};
ghost use Rattle.proof_tree.specs.Cuts.{IsCutList};
ghost use Rattle.cut_separation.specs.Extensions.{IsExtended, IsFoundOf};

use crate::counting::Missing;
use crate::counting_rules::{CountingRule, Periods};
use crate::set_rules::{Connected, SetRule};
use crate::side::Side;
use crate::sightings::Sightings;
use cut_values::SeenLoads;
use link_steps::StepTable;
use plan_base::Instance;
use proof_tree::limits::MAX_CUTS;
use proof_tree::{Cut, is_new};
use std::alloc::{AllocError, Global};
use std::cmp::Reverse;

/// A set of nodes, by its number, that loads violate.
#[derive(Clone, Copy, Debug)]
struct Violated {
    side: usize,
    missing: Missing,
}

/// The sets of nodes of an instance, with what crosses them.
#[derive(Debug, Drop)]
pub struct CutSearch {
    sides: Vec<Side>,
}

/// Puts a cut behind the list where the list may go on with it, and gives how many it puts.
#[tactic(auto, using(crate::proofs::NextCuts::kept_before, crate::proofs::NextCuts::gone_again))]
fn put_cut(inst: &Instance, cut: Cut, list: &mut Vec<Cut>) -> Result<u32, AllocError>
    requires { IsCutList inst.now list.old.items }
    ensures extended { IsExtended inst.now list.old.items list.new.items }
    ensures found { IfOk result (IsFoundOf 1 list.old.items list.new.items) }
{
    if list.len() >= MAX_CUTS {
        return Ok(0);
    }
    if !cut.fits(inst) {
        return Ok(0);
    }
    let number = list.len();
    list.push(cut)?;
    if is_new(list, number) {
        return Ok(1);
    }
    list.pop();
    Ok(0)
}

impl CutSearch {
    /// The sets of nodes of an instance, with what crosses them, by the rules of the search.
    ///
    /// - Takes: the step table of the instance.
    /// - Errors: want of memory alone.
    /// - Time: for each set linear in the nodes, demands and places.
    pub fn new(alloc: Global, inst: &Instance, table: &StepTable) -> Result<CutSearch, AllocError>
        requires { table.now ≡ inst.now }
    {
        let countings = Periods::of(alloc, inst, table)?;
        CutSearch::by(alloc, inst, &Connected, &countings)
    }

    /// The sets of nodes that a rule gives, with the ways to count what crosses them that another one gives; sets without
    /// any are left out. Want of memory is the only error.
    pub fn by<S: SetRule, C: CountingRule>(
        alloc: Global,
        inst: &Instance,
        sets: &S,
        countings: &C,
    ) -> Result<CutSearch, AllocError> {
        let mut sides = Vec::new(alloc);
        for nodes in sets.sets(alloc, inst)? {
            let side = Side::of(alloc, inst, nodes, countings)?;
            if side.has_countings() {
                sides.push(side)?;
            }
        }
        Ok(CutSearch { sides })
    }

    /// The sets that the loads seen violate, the most violated first.
    fn violated_sides(&self, alloc: Global, seen: &Sightings) -> Result<Vec<Violated>, AllocError> {
        let mut violated = Vec::new(alloc);
        for (side, of_side) in self.sides.iter().enumerate() {
            if let Some(missing) = of_side.most_missing(seen) {
                violated.push(Violated { side, missing })?;
            }
        }
        violated.sort_unstable_by_key(|violated| (Reverse(violated.missing.share), violated.side));
        Ok(violated)
    }

    /// Puts the cut of a set behind the list where further ones are wanted and the places that cross it have room, and gives
    /// how many it puts.
    fn put_next(
        &self,
        alloc: Global,
        inst: &Instance,
        violated: Violated,
        wanted: u32,
        used: &mut Vec<u32>,
        list: &mut Vec<Cut>,
    ) -> Result<u32, AllocError>
        requires { IsCutList inst.now list.old.items }
        ensures extended { IsExtended inst.now list.old.items list.new.items }
        ensures found { IfOk result (IsFoundOf wanted list.old.items list.new.items) }
    {
        if wanted == 0 {
            return Ok(0);
        }
        let Some(side) = self.sides.get(violated.side) else {
            return Ok(0);
        };
        if !side.has_room(used) {
            return Ok(0);
        }
        let cut = side.cut(alloc, inst, violated.missing.counting)?;
        let found = put_cut(inst, cut, list)?;
        if found > 0 {
            side.take_room(used);
        }
        Ok(found)
    }

    /// Puts cuts behind a list that the loads seen in the turns of an ascent violate: the most violated first, of each set at
    /// most one, and so that no place crosses more than `MAX_CROSSING` of them. How much is missing of what they count at
    /// least no clause tells.
    ///
    /// - Takes: the instance of the search; the loads seen; the most cuts that are put; a list of cuts that a plan may have.
    /// - Gives: how many cuts are put. None of them is among the cuts of the list, which stay where they are.
    /// - Errors: want of memory alone; the list may then have some of the cuts.
    /// - Rule: docs/DEFINITIONS.md, "Cuts".
    /// - Time: for each set the places that cross it, times the countings that are tried and the different loads that were
    ///   seen there.
    #[tactic(auto, using(crate::proofs::NextCuts::kept_on))]
    pub fn extend(
        &self,
        alloc: Global,
        inst: &Instance,
        seen: &SeenLoads,
        most: u32,
        list: &mut Vec<Cut>,
    ) -> Result<u32, AllocError>
        requires { IsCutList inst.now list.old.items }
        ensures extended { IsExtended inst.now list.old.items list.new.items }
        ensures found { IfOk result (IsFoundOf most list.old.items list.new.items) }
    {
        let sightings = Sightings::of(alloc, inst, seen)?;
        let mut used = vec![in alloc; 0u32; inst.places() as usize]?;
        let mut found: u32 = 0;
        for violated in &self.violated_sides(alloc, &sightings)? {
            found += self.put_next(alloc, inst, *violated, most - found, &mut used, list)?;
        }
        Ok(found)
    }
}
