//! Readers of the parts of network texts.

ghost use Rattle.snd_reader.specs.Readers.{token};
ghost use Rattle.snd_reader.specs.Faults.{Gives};
ghost use Rattle.snd_network.specs.Tests.{module_head};
ghost use Rattle.snd_network.specs.Reading.{end_name, coordinate, hop_limit, module_item, modules, ends, costs, link, demand};

use crate::draft::{DemandDraft, End, LinkDraft};
use crate::verdicts::{capacity_of, coordinate_of, end_of, hops_of};
use plan_base::Items;
use snd_reader::{Cursor, Name, TextFault};
use std::alloc::Global;

/// The end of a link or demand.
fn end_name(cursor: &mut Cursor<'_>, alloc: Global) -> Result<End, TextFault>
    ensures gives { Gives (λ x. (x, cursor.new)) result (end_name cursor.old) }
{
    let verdict = end_of(alloc, cursor.at(), cursor.first())?;
    cursor.judge(verdict)
}

/// A coordinate, as its word.
pub(crate) fn coordinate(cursor: &mut Cursor<'_>, alloc: Global) -> Result<Name, TextFault>
    ensures gives { Gives (λ x. (x, cursor.new)) result (coordinate cursor.old) }
{
    let verdict = coordinate_of(alloc, cursor.first())?;
    cursor.judge(verdict)
}

/// A hop limit, or none.
fn hop_limit(cursor: &mut Cursor<'_>) -> Result<Option<u64>, TextFault>
    ensures gives { Gives (λ x. (x, cursor.new)) result (hop_limit cursor.old) }
{
    let verdict = hops_of(cursor.first());
    cursor.judge(verdict)
}

/// The capacity with which a module begins, or that the modules end.
fn next_capacity(cursor: &mut Cursor<'_>) -> Result<Option<u64>, TextFault>
    ensures gives { Gives (λ x. (x, cursor.new)) result (token (λ t. module_head t.is) cursor.old) }
{
    let verdict = capacity_of(cursor.first());
    cursor.judge(verdict)
}

/// A module more, behind its capacity.
#[tactic(auto, using(snd_reader::proofs::Faults::through), unfolding(crate::specs::Reading::module_item))]
fn module_item(
    cursor: &mut Cursor<'_>,
    modules: &mut Vec<(u64, u64)>,
    capacity: u64,
) -> Result<(), TextFault>
    ensures gives { Gives (λ _. (modules.new.items, cursor.new)) result (module_item modules.old.items capacity cursor.old) }
{
    let cost = cursor.number(6)?;
    modules.push((capacity, cost))?;
    Ok(())
}

/// The capacities and costs of modules, up to the bracket that closes them.
fn modules(cursor: &mut Cursor<'_>, alloc: Global) -> Result<Items<(u64, u64)>, TextFault>
    ensures gives { Gives (λ x. (x, cursor.new)) result (modules cursor.old) }
{
    let mut modules = Vec::new(alloc);
    'pairs: loop {
        let Some(capacity) = next_capacity(cursor)? else {
            return Ok(Items::from_vec(modules));
        };
        module_item(cursor, &mut modules, capacity)?;
    }
}

/// The two ends of a link or demand, in brackets.
#[tactic(auto, using(snd_reader::proofs::Faults::through), unfolding(crate::specs::Reading::ends))]
fn ends(cursor: &mut Cursor<'_>, alloc: Global) -> Result<(End, End), TextFault>
    ensures gives { Gives (λ x. (x, cursor.new)) result (ends cursor.old) }
{
    cursor.open()?;
    let source = end_name(cursor, alloc)?;
    let target = end_name(cursor, alloc)?;
    cursor.close()?;
    Ok((source, target))
}

/// The pre-installed capacity of a link with its cost, what routing and setting up cost, and the bracket
/// before the modules.
#[tactic(auto, using(snd_reader::proofs::Faults::through), unfolding(crate::specs::Reading::costs))]
fn costs(cursor: &mut Cursor<'_>) -> Result<(u64, u64, u64, u64), TextFault>
    ensures gives { Gives (λ x. (x, cursor.new)) result (costs cursor.old) }
{
    let pre = cursor.number(6)?;
    let pre_cost = cursor.number(6)?;
    let routing = cursor.number(6)?;
    let setup = cursor.number(6)?;
    cursor.open()?;
    Ok((pre, pre_cost, routing, setup))
}

/// A link behind its name.
#[tactic(auto, using(snd_reader::proofs::Faults::through), unfolding(crate::specs::Reading::link))]
pub(crate) fn link(cursor: &mut Cursor<'_>, alloc: Global) -> Result<LinkDraft, TextFault>
    ensures gives { Gives (λ x. (x, cursor.new)) result (link cursor.old) }
{
    let (source, target) = ends(cursor, alloc)?;
    let (pre, pre_cost, routing, setup) = costs(cursor)?;
    let modules = modules(cursor, alloc)?;
    Ok(LinkDraft {
        source,
        target,
        pre,
        pre_cost,
        routing,
        setup,
        modules,
    })
}

/// A demand behind its name.
#[tactic(auto, using(snd_reader::proofs::Faults::through), unfolding(crate::specs::Reading::demand))]
pub(crate) fn demand(cursor: &mut Cursor<'_>, alloc: Global) -> Result<DemandDraft, TextFault>
    ensures gives { Gives (λ x. (x, cursor.new)) result (demand cursor.old) }
{
    let (source, target) = ends(cursor, alloc)?;
    let unit = cursor.number(0)?;
    let value = cursor.number(6)?;
    let hops = hop_limit(cursor)?;
    Ok(DemandDraft {
        source,
        target,
        unit,
        value,
        hops,
    })
}
