//! The search, by several workers or alone.

ghost use Rattle.std.specs.Prelude.{◌≡◌, IfOk};
ghost use Rattle.std.specs.Arc.{arc_value};
ghost use Rattle.proof_tree.specs.Spellings.{IsSpellable};
ghost use Rattle.plan_run.specs.Searches.{IsCutList, AreWorkers, IsBudget, IsSearched};

use link_steps::StepTable;
use plan_base::{Instance, Items};
use plan_io::Gate;
use pool_core::Pool;
use proof_tree::{Cut, Plan};
use std::alloc::{AllocError, Global};
use std::sync::{Arc, Wait};
use std::thread::Threads;

/// The plan of a pool, once nothing is left to do.
fn finished_plan(mut pool: Pool) -> Result<Plan, AllocError>
    ensures searched { IfOk result (IsSearched pool.problem pool.cuts pool.budget) }
    ensures fits { IfOk result IsSpellable }
{
    proof_tree::laws::claim();
    pool.finish()?;
    // Whoever asks for the instance knows that the pool's state is sound and reachable.
    let _inst = pool.instance();
    pool.into_plan()
}

/// The plan of an instance that one thread finds, the same at each run.
///
/// - Takes: an instance and its step table; a budget of 1 to 4,096 nodes; the cuts that its plan may rest on.
/// - Gives: what `search` gives.
/// - Errors: want of memory alone.
/// - Rule: docs/DEFINITIONS.md, "Runs".
/// - Time: that of pricing each demand once for each version of prices, of which each node that is examined has at most
///   16.
pub fn search_alone(
    alloc: Global,
    inst: Arc<Instance>,
    table: StepTable,
    budget: u32,
    cuts: Items<Cut>,
) -> Result<Plan, AllocError>
    requires budget { IsBudget budget }
    requires table { table ≡ arc_value inst }
    requires cuts { IsCutList (arc_value inst) cuts }
    ensures searched { IfOk result (IsSearched (arc_value inst) cuts budget) }
    ensures fits { IfOk result IsSpellable }
{
    let pool = Pool::new(alloc, inst, table, budget, cuts)?;
    finished_plan(pool)
}

/// The plan of an instance that so many workers find, which together examine at most so many nodes.
///
/// - Takes: what starts threads; an instance and its step table; 1 to 64 workers; a budget of 1 to 4,096 nodes; the cuts
///   that its plan may rest on; a gate that each worker passes with each task.
/// - Gives: a valid plan with this budget and these cuts, which a plan text can hold, and each split of which parts two paths of a demand
///   or two steps of a link; the bound of an undecided plan is at least the bound of the root at the start prices. The
///   plan of one worker is the same at each run; that of several may be another one each time.
/// - Errors: want of memory alone. What a worker leaves that stops for want of memory is finished by one thread.
/// - Rule: docs/DEFINITIONS.md, "Runs".
/// - Time: a worker goes through the same steps as one thread; it may wait for another one, or do what that one did.
pub fn search<R: Threads + Wait + Sync, G: Gate>(
    rt: &R,
    alloc: Global,
    inst: Arc<Instance>,
    table: StepTable,
    workers: u32,
    budget: u32,
    cuts: Items<Cut>,
    gate: &G,
) -> Result<Plan, AllocError>
    requires workers { AreWorkers workers }
    requires budget { IsBudget budget }
    requires table { table ≡ arc_value inst }
    requires cuts { IsCutList (arc_value inst) cuts }
    ensures searched { IfOk result (IsSearched (arc_value inst) cuts budget) }
    ensures fits { IfOk result IsSpellable }
{
    let opened = Pool::new(alloc, inst, table, budget, cuts)?;
    let pool = linear_hub::search(rt, alloc, opened, workers, gate)?;
    finished_plan(pool)
}
