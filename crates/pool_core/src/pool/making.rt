//! The pool before its first event.

ghost use Rattle.std.specs.Prelude.{◌≡◌, ◌<◌, ◌≤◌, ◌+◌, ◌^◌, ◌∷◌, [], length, IfOk};
ghost use Rattle.std.specs.Arc.{arc_value};
ghost use Rattle.plan_base.specs.Places.{places};
ghost use Rattle.proof_tree.specs.Cuts.{IsCutList};
ghost use Rattle.column_pool.specs.Columns.{no_columns};
ghost use Rattle.search_machine.specs.declared.limits.TheConstants.{MAX_BUDGET, MAX_ROUNDS};
ghost use Rattle.search_machine.specs.Machine.{IsOpeningState, root_with};
ghost use Rattle.search_view.specs.Views.{AreFreePlaces};
ghost use Rattle.pool_core.specs.Roots.{HasFreeRoot};

use super::Pool;
use arc_restrict::Restriction;
use column_pool::ColumnPool;
use cut_values::CutTable;
use leaf_tasks::KnownAbove;
use link_steps::{Ranges, StepTable, cost_unit};
use master_step::Room;
use plan_base::{Instance, Items, Prices};
use proof_tree::Cut;
use search_machine::limits::MAX_ROUNDS;
use search_nodes::{Ground, PoolNode, PoolRound, SearchState, Slot};
use search_view::{Claims, OpenLeaves};
use std::alloc::{AllocError, Global};
use std::sync::Arc;

/// What a pool has before its first event, beside its instance and the tables.
#[derive(Drop)]
struct Opening {
    nodes: Vec<PoolNode>,
    columns: ColumnPool,
    room: Room,
    grounds: Vec<Ground>,
    places: Vec<Slot>,
    claims: Claims,
    leaves: OpenLeaves,
}

/// Free room for a round in each slot.
///
/// - Takes: one price for each place and one rate for each cut, which are put into each room.
fn free_places(alloc: Global, inst: &Instance, prices: &Prices) -> Result<Vec<Slot>, AllocError>
    requires few { length prices.now < 2 ^ 32 }
    ensures { IfOk result (λ slots. AreFreePlaces MAX_ROUNDS (length inst.now.demands) (length prices.now) slots.items) }
{
    let mut slots = Vec::new(alloc);
    for slot in 0..MAX_ROUNDS {
        let place = PoolRound::new(alloc, slot, inst, prices)?;
        slots.push(Slot::Free(place))?;
    }
    Ok(slots)
}

/// The root alone, which waits with these prices.
fn root_alone(alloc: Global, prices: Prices) -> Result<Vec<PoolNode>, AllocError>
    ensures { IfOk result (λ nodes. nodes.items ≡ root_with prices ∷ []) }
{
    let root = PoolNode::new(Items::new(alloc), prices, None)?;
    let nodes = vec![in alloc; root]?;
    Ok(nodes)
}

/// The region of the root alone: nothing is forbidden, and each place may carry all loads.
fn root_grounds(alloc: Global, inst: &Instance) -> Result<Vec<Ground>, AllocError>
    ensures { IfOk result (λ grounds. HasFreeRoot inst.now grounds.items) }
{
    let none = Restriction::none(alloc, inst)?;
    let whole = Ranges::whole(alloc, inst)?;
    let rows = Arc::new(alloc, none)?;
    let ranges = Arc::new(alloc, whole)?;
    let grounds = vec![in alloc; Ground::of(rows, ranges)]?;
    Ok(grounds)
}

/// The root alone, which waits with these prices, and free room for a round in each slot.
fn root_and_places(
    alloc: Global,
    inst: &Instance,
    prices: Prices,
) -> Result<(Vec<PoolNode>, Vec<Slot>), AllocError>
    requires few { length prices < 2 ^ 32 }
    ensures root { IfOk result (λ both. both.0.items ≡ root_with prices ∷ []) }
    ensures free { IfOk result (λ both. AreFreePlaces MAX_ROUNDS (length inst.now.demands) (length prices) both.1.items) }
{
    let places = free_places(alloc, inst, &prices)?;
    let nodes = root_alone(alloc, prices)?;
    Ok((nodes, places))
}

/// No worker has been given a task, and the root alone is an open leaf.
fn first_claims(alloc: Global) -> Result<(Claims, OpenLeaves), AllocError> {
    let claims = Claims::none(alloc)?;
    let leaves = OpenLeaves::root(alloc)?;
    Ok((claims, leaves))
}

/// What a pool has before its first event, whose root waits with these prices.
fn opening_with(
    alloc: Global,
    inst: &Instance,
    table: &CutTable,
    prices: Prices,
) -> Result<Opening, AllocError>
    requires few { length prices < 2 ^ 32 }
    ensures root { IfOk result (λ opening. opening.nodes.items ≡ root_with prices ∷ []) }
    ensures columns { IfOk result (λ opening. opening.columns ≡ no_columns inst.now) }
    ensures room { IfOk result (λ opening. opening.room ≡ places inst.now + length table.now.cuts) }
    ensures grounds { IfOk result (λ opening. HasFreeRoot inst.now opening.grounds.items) }
    ensures free { IfOk result (λ opening. AreFreePlaces MAX_ROUNDS (length inst.now.demands) (length prices) opening.places.items) }
{
    let (claims, leaves) = first_claims(alloc)?;
    let room = Room::new(alloc, inst, table)?;
    let grounds = root_grounds(alloc, inst)?;
    let columns = ColumnPool::new(alloc, inst)?;
    let (nodes, places) = root_and_places(alloc, inst, prices)?;
    Ok(Opening {
        nodes,
        columns,
        room,
        grounds,
        places,
        claims,
        leaves,
    })
}

impl Pool {
    /// A pool whose root waits with the start prices, and with rates of 0. All places of rounds are taken here, and the
    /// room in which steps are tried.
    ///
    /// - Takes: an instance and its step table; how many nodes may be examined; cuts of the instance, not too many and no
    ///   two the same, whose rates the bounds of nodes may use.
    /// - Errors: want of memory alone.
    /// - Rule: docs/METHOD.md, "The search as a machine".
    pub fn new(
        alloc: Global,
        inst: Arc<Instance>,
        steps: StepTable,
        budget: u32,
        cuts: Items<Cut>,
    ) -> Result<Pool, AllocError>
        requires some_budget { 0 < budget }
        requires budget { budget ≤ MAX_BUDGET }
        requires table { steps ≡ arc_value inst }
        requires cuts { IsCutList (arc_value inst) cuts }
        ensures opening { IfOk result (λ pool. IsOpeningState (arc_value inst) cuts budget pool) }
    {
        let _places = inst.places();
        let made = CutTable::new(alloc, steps, cuts)?;
        let prices = made.start_numbers(alloc)?;
        let table = Arc::new(alloc, made)?;
        let opening = opening_with(alloc, &*inst, &*table, prices)?;
        let unit = cost_unit(&*inst);
        let state = SearchState {
            alloc,
            problem: inst,
            table,
            unit,
            nodes: opening.nodes,
            grounds: opening.grounds,
            columns: opening.columns,
            incumbent: None,
            examined: 0,
            budget,
            next_version: 1,
            accepted: 0,
        };
        Ok(Pool {
            state,
            room: opening.room,
            places: opening.places,
            claims: opening.claims,
            leaves: opening.leaves,
            known: KnownAbove::nothing(alloc),
        })
    }
}
