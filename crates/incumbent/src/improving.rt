//! A cheaper design by single reroutes.

ghost use Rattle.std.specs.Prelude.{◌≤◌, IfOk, IfSome};
ghost use Rattle.plan_base.specs.Designs.{cost_of, IsDesign, IsGoodDesign};
ghost use Rattle.completions.specs.Completions.{ArePaths};
ghost use Rattle.incumbent.specs.Searches.{IsImproved};

use crate::rounds::Rounds;
use completions::complete;
use demand_routing::roomy_copies;
use link_steps::StepTable;
use plan_base::{Design, Instance, Items, Path, check_design};
use std::alloc::{AllocError, Global};

/// The paths of the cheapest design that a search from this one meets.
fn searched(
    alloc: Global,
    table: &StepTable,
    design: &Design,
    seed: u32,
    shares: u32,
) -> Result<Items<Path>, AllocError>
    requires design { IsDesign table.now design.now }
    ensures { IfOk result (ArePaths table.now) }
{
    let inst = table.instance();
    let paths = roomy_copies(alloc, inst, design.paths.as_slice())?;
    let mut rounds = Rounds::new(alloc, table, paths, seed)?;
    rounds.run(table, shares)?;
    Ok(rounds.into_best())
}

/// The completed design where there is a good one that costs less, else the design itself, with its cost in cost grains.
fn cheaper(inst: &Instance, design: Design, completed: Option<(u128, Design)>) -> (u128, Design)
    requires { IsGoodDesign inst.now design }
    ensures improved { IsImproved inst.now design result }
    ensures least { IfSome completed (λ found. IsGoodDesign inst.now found.1 → result.0 ≤ cost_of inst.now found.1) }
{
    let kept = check_design(inst, &design).unwrap();
    let Some((_cost, better)) = completed else {
        return (kept, design);
    };
    match check_design(inst, &better) {
        Ok(cost) if cost < kept => (cost, better),
        _ => (kept, design),
    }
}

/// A design that costs no more: other paths where a large neighbourhood search finds cheaper ones, and for its paths the
/// cheapest counts.
///
/// - Takes: an instance and its step table; a design that `check_design` accepts.
/// - Gives: the cost in cost grains and a feasible design in shape.
/// - Errors: want of memory alone. The design is spent.
/// - Rule: docs/METHOD.md, "Completions".
/// - Time: at most 32 searches for a least path for each demand, and 50,000 more, each with a few readings of the table at
///   each link; on a large network at least 2,000.
pub fn improve(
    alloc: Global,
    table: &StepTable,
    design: Design,
) -> Result<(u128, Design), AllocError>
    requires design { IsGoodDesign table.now design }
    ensures { IfOk result (IsImproved table.now design) }
{
    improve_seeded(alloc, table, design, 0)
}

/// As `improve`, with draws that begin with this seed.
pub fn improve_seeded(
    alloc: Global,
    table: &StepTable,
    design: Design,
    seed: u32,
) -> Result<(u128, Design), AllocError>
    requires design { IsGoodDesign table.now design }
    ensures { IfOk result (IsImproved table.now design) }
{
    improve_share(alloc, table, design, seed, 1)
}

/// As `improve_seeded`, with one of so many equal shares of its searches.
pub(crate) fn improve_share(
    alloc: Global,
    table: &StepTable,
    design: Design,
    seed: u32,
    shares: u32,
) -> Result<(u128, Design), AllocError>
    requires design { IsGoodDesign table.now design }
    ensures { IfOk result (IsImproved table.now design) }
{
    let inst = table.instance();
    let paths = searched(alloc, table, &design, seed, shares)?;
    let completed = complete(alloc, table, paths)?;
    Ok(cheaper(inst, design, completed))
}
