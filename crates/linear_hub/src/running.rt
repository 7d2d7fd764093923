//! A search by several workers.

ghost use Rattle.std.specs.Prelude.{◌≡◌, ◌≤◌, ◌<◌, [], length, map, reverse, All, IfOk, vec_capacity};
ghost use Rattle.block_deques.specs.Decks.{deck_id};
ghost use Rattle.block_deques.specs.Wholes.{AreOneMaking};
ghost use Rattle.ticket_turns.specs.declared.limits.TheConstants.{MAX_CALLERS};
ghost use Rattle.search_machine.specs.Tasks.{IsSearchState};
ghost use Rattle.linear_hub.specs.Histories.{IsLedTo};
ghost use Rattle.linear_hub.specs.Works.{AreRelated};
ghost use Rattle.plan_io.specs.declared.gate.TheConstants.{MAX_WORKERS};

use crate::hub::LinearHub;
use crate::naming::Naming;
use crate::workers::{Crew, Worker, put_together, take_apart};
use crate::working::work_blocks;
use block_deques::{Deck, decks, gather_decks};
use plan_io::Gate;
use pool_core::Pool;
use std::alloc::{AllocError, Global};
use std::marker::Brand;
use std::sync::Wait;
use std::thread;
use std::thread::Threads;

/// Works on a pool by so many workers at once, until nothing is left to do or memory is wanting. What they leave is for
/// `Pool::finish`.
///
/// - Takes: a pool; 1 to 64 workers; a gate that each worker passes with each block or task.
/// - Gives: a pool to which a legal history leads from the one that was handed in, so one of the same search.
/// - Errors: want of memory before the work alone. A worker that stops for want of memory leaves the pool whole.
pub fn search<R: Threads + Wait + Sync, G: Gate>(
    rt: &R,
    alloc: Global,
    pool: Pool,
    workers: u32,
    gate: &G,
) -> Result<Pool, AllocError>
    requires workers { (1 ≤ workers) × (workers ≤ MAX_WORKERS) }
    ensures search { IfOk result (IsSearchState pool.problem pool.cuts pool.budget) }
    ensures led { IfOk result (IsLedTo pool) }
{
    let decks = decks(alloc, workers)?;
    search_as::<Brand, R, G>(rt, alloc, pool, decks, gate)
}

/// Lets each worker work, in threads at once.
fn work_all<
    N: Naming + Send + Sync,
    R: Wait + Drop + Send + Sync,
    T: Threads + Wait + Sync,
    G: Gate,
>(rt: &T, alloc: Global, hub: &LinearHub<N, R>, workers: &mut [Worker<N, R>], gate: &G)
    requires some { 0 < length workers.old }
    requires of { All (λ w. w.seat.pass.table_id ≡ hub.now.turns.table.shared.table_id) workers.old }
    ensures of { All (λ w. w.seat.pass.table_id ≡ hub.now.turns.table.shared.table_id) workers.new }
    ensures decks { AreRelated (λ v w. deck_id w.deck ≡ deck_id v.deck) workers.old workers.new }
{
    let threads = workers.len();
    thread::for_each_mut(
        rt,
        workers,
        threads,
        &|_, worker: &mut Worker<N, R>|
            requires { worker.old.seat.pass.table_id ≡ hub.now.turns.table.shared.table_id }
            ensures seat { worker.new.seat.pass.table_id ≡ worker.old.seat.pass.table_id }
            ensures deck { deck_id worker.new.deck ≡ deck_id worker.old.deck }
        {
            let Worker { seat, deck } = worker;
            let _done = work_blocks(rt, alloc, hub, seat, deck, gate);
        },
    );
}

/// A hub for the pool, and its workers, one for each deck.
fn begin<N: Naming, R: Wait + Drop>(
    rt: R,
    alloc: Global,
    pool: Pool,
    decks: Vec<Deck>,
) -> Result<(LinearHub<N, R>, Crew<N, R>), AllocError>
    requires workers { (1 ≤ length decks.items) × (length decks.items ≤ MAX_CALLERS) }
    requires decks { AreOneMaking decks.items }
    requires opening { pool ≡ N.opening }
    requires search { (pool.problem ≡ N.problem) × (pool.cuts ≡ N.cuts) × (pool.budget ≡ N.budget) }
    ensures some { IfOk result (λ r. 0 < length r.1.workers.items) }
    ensures count { IfOk result (λ r. r.0.turns.callers ≡ length r.1.workers.items) }
    ensures of { IfOk result (λ r. All (λ w. w.seat.pass.table_id ≡ r.0.turns.table.shared.table_id) r.1.workers.items) }
    ensures decks { IfOk result (λ r. AreOneMaking (reverse (map (λ w. w.deck) r.1.workers.items))) }
    ensures empty { IfOk result (λ r. (r.1.seats.items ≡ []) × (r.1.decks.items ≡ [])) }
    ensures room { IfOk result (λ r. (length r.1.workers.items ≤ vec_capacity r.1.seats) × (length r.1.workers.items ≤ vec_capacity r.1.decks)) }
{
    let count = decks.len() as u32;
    let (hub, seats) = LinearHub::new(rt, alloc, pool, count)?;
    let crew = put_together(alloc, seats, decks)?;
    Ok((hub, crew))
}

/// The pool that the workers leave. What is left on their decks is dropped.
#[tactic(auto, using(crate::proofs::LedTo::led))]
fn finish<N: Naming, R: Wait + Drop>(alloc: Global, hub: LinearHub<N, R>, crew: Crew<N, R>) -> Pool
    requires some { 0 < length crew.workers.items }
    requires count { hub.turns.callers ≡ length crew.workers.items }
    requires of { All (λ w. w.seat.pass.table_id ≡ hub.turns.table.shared.table_id) crew.workers.items }
    requires decks { AreOneMaking (reverse (map (λ w. w.deck) crew.workers.items)) }
    requires empty { (crew.seats.items ≡ []) × (crew.decks.items ≡ []) }
    requires room { (length crew.workers.items ≤ vec_capacity crew.seats) × (length crew.workers.items ≤ vec_capacity crew.decks) }
    ensures search { IsSearchState N.problem N.cuts N.budget result }
    ensures led { IsLedTo N.opening result }
{
    let (seats, decks) = take_apart(crew);
    let _left = gather_decks(alloc, decks);
    hub.end(seats)
}

/// `search`, of what the type names.
///
/// - Takes: besides, a new deck for each worker.
fn search_as<'a, N: Naming + Send + Sync, R: Threads + Wait + Sync, G: Gate>(
    rt: &'a R,
    alloc: Global,
    pool: Pool,
    decks: Vec<Deck>,
    gate: &G,
) -> Result<Pool, AllocError>
    requires workers { (1 ≤ length decks.items) × (length decks.items ≤ MAX_CALLERS) }
    requires decks { AreOneMaking decks.items }
    requires opening { pool ≡ N.opening }
    requires search { (pool.problem ≡ N.problem) × (pool.cuts ≡ N.cuts) × (pool.budget ≡ N.budget) }
    ensures search { IfOk result (IsSearchState N.problem N.cuts N.budget) }
    ensures led { IfOk result (IsLedTo N.opening) }
{
    let (hub, mut crew) = begin::<N, &R>(rt, alloc, pool, decks)?;
    work_all(rt, alloc, &hub, crew.workers.as_mut_slice(), gate);
    Ok(finish(alloc, hub, crew))
}
