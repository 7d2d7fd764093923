//! Lists of cuts, and numbers that fit another list.

ghost use Rattle.std.specs.Prelude.{◌≡◌, IfOk};
ghost use Rattle.proof_tree.specs.Cuts.{IsCutList};

use cut_values::CutTable;
use plan_base::{Instance, Items, Prices};
use proof_tree::{Cut, is_cut_list};
use std::alloc::{AllocError, Global};

/// A copy of a list of cuts.
pub(crate) fn copy_of(alloc: Global, cuts: &[Cut]) -> Result<Vec<Cut>, AllocError>
    ensures { IfOk result (λ copy. copy.items ≡ cuts.now) }
{
    let mut copy = Vec::new(alloc);
    for cut in cuts {
        copy.push(cut.copy()?)?;
    }
    Ok(copy)
}

/// Copies of the cuts that are marked, in their order.
pub(crate) fn marked(alloc: Global, cuts: &[Cut], marks: &[bool]) -> Result<Vec<Cut>, AllocError> {
    let mut found = Vec::new(alloc);
    for (number, cut) in cuts.iter().enumerate() {
        if is_marked(marks, number) {
            found.push(cut.copy()?)?;
        }
    }
    Ok(found)
}

/// Whether the number is marked.
pub(crate) fn is_marked(marks: &[bool], number: usize) -> bool {
    marks.get(number).copied().unwrap_or(false)
}

/// The list, or none where a plan may not have it.
pub(crate) fn tested(alloc: Global, inst: &Instance, cuts: Vec<Cut>) -> Items<Cut>
    ensures { IsCutList inst.now result }
{
    if is_cut_list(inst, &cuts) {
        Items::from_vec(cuts)
    } else {
        Items::new(alloc)
    }
}

/// Puts another list of cuts in the place of the table's.
pub(crate) fn put_list(
    alloc: Global,
    inst: &Instance,
    table: &mut CutTable,
    cuts: Vec<Cut>,
) -> Result<(), AllocError>
    requires { table.old.problem ≡ inst.now }
    ensures { table.new.problem ≡ table.old.problem }
{
    let cuts = tested(alloc, inst, cuts);
    table.put_cuts(alloc, cuts)
}

/// The number behind the places of an instance, 0 where there is none.
pub(crate) fn rate_at(inst: &Instance, numbers: &Prices, number: usize) -> u128 {
    let place = (inst.places() as usize).saturating_add(number);
    numbers.as_slice().get(place).copied().unwrap_or(0)
}

/// The same prices and the rates of the marked cuts.
pub(crate) fn marked_numbers(
    alloc: Global,
    inst: &Instance,
    numbers: &Prices,
    marks: &[bool],
) -> Result<Prices, AllocError> {
    let places = inst.places() as usize;
    let mut kept = Vec::new(alloc);
    for (place, number) in numbers.as_slice().iter().enumerate() {
        if place < places || is_marked(marks, place.saturating_sub(places)) {
            kept.push(*number)?;
        }
    }
    Ok(Prices::from_vec(kept))
}

/// The same numbers, with a rate of 0 for each cut that they have none for.
pub(crate) fn widened(
    alloc: Global,
    inst: &Instance,
    numbers: &Prices,
    count: u32,
) -> Result<Prices, AllocError> {
    let wanted = (inst.places() as usize).saturating_add(count as usize);
    let mut wider = Vec::new(alloc);
    for number in numbers.as_slice() {
        wider.push(*number)?;
    }
    for _ in numbers.as_slice().len()..wanted {
        wider.push(0)?;
    }
    Ok(Prices::from_vec(wider))
}
