//! A worker that puts the demands of its versions on the first of two decks.
//!
//! The network is a sample of 64 demands, two blocks for each version. The worker takes its own blocks before it asks for a
//! task, so none is left when it is told that nothing is left to do.

ghost use Rattle.std.specs.Prelude.{◌≡◌, All, IfSome};
ghost use Rattle.block_deques.specs.Decks.{IsSameDeck};

use super::turns::{gather_two, tell_left, tell_steal, two_decks};
use block_deques::Deck;
use instance_maker::sample_problem;
use linear_hub::{LinearHub, LinearSeat, Naming, work_blocks};
use plan_base::Items;
use plan_io::NoGate;
use pool_core::Pool;
use std::alloc::Global;
use std::marker::Brand;
use std::sync::{Arc, Wait};

/// A pool on the fifth sample of 16 nodes and 64 demands, of which two nodes may be examined.
#[tactic(auto, using(proof_tree::proofs::CutlessPlans::no_cuts))]
fn sample_pool(alloc: Global) -> Option<Pool> {
    let problem = sample_problem(alloc, 5, 16, 64).ok()?;
    let inst = Arc::new(alloc, problem.inst).ok()?;
    Pool::new(alloc, inst, problem.table, 2, Items::new(alloc)).ok()
}

/// The last seat of a hub.
fn last_seat<N: Naming, R: Wait + Drop>(
    hub: &LinearHub<N, R>,
    mut seats: Vec<LinearSeat<N, R>>,
) -> Option<LinearSeat<N, R>>
    requires { All (λ s. s.pass.table_id ≡ hub.now.turns.table.shared.table_id) seats.items }
    ensures { IfSome result (λ seat. seat.pass.table_id ≡ hub.now.turns.table.shared.table_id) }
{
    seats.pop()
}

/// Lets the last seat of a hub work with a deck until nothing is left to do.
fn work_by_last<N: Naming, R: Wait, W: Wait + Drop>(
    rt: &R,
    alloc: Global,
    hub: &LinearHub<N, W>,
    seats: Vec<LinearSeat<N, W>>,
    deck: &mut Deck,
) -> Option<()>
    requires { All (λ s. s.pass.table_id ≡ hub.now.turns.table.shared.table_id) seats.items }
    ensures { IsSameDeck deck.old deck.new }
{
    let mut seat = last_seat(hub, seats)?;
    work_blocks(rt, alloc, hub, &mut seat, deck, &NoGate).ok()
}

/// Lets one seat of a hub work with a deck until nothing is left to do.
fn work_with<N: Naming, R: Wait>(rt: &R, alloc: Global, pool: Pool, deck: &mut Deck) -> Option<()>
    requires opening { pool ≡ N.opening }
    requires search { (pool.problem ≡ N.problem) × (pool.cuts ≡ N.cuts) × (pool.budget ≡ N.budget) }
    ensures { IsSameDeck deck.old deck.new }
{
    let Ok((hub, seats)) = LinearHub::<N, &R>::new(rt, alloc, pool, 1) else {
        return None;
    };
    work_by_last(rt, alloc, &hub, seats, deck)
}

/// Works on a pool with the first of two decks, and adds whether it put at least two blocks, and what the other then steals.
fn tell_work<R: Wait>(
    rt: &R,
    alloc: Global,
    pool: Pool,
    zero: &mut Deck,
    one: &mut Deck,
    text: &mut String,
) -> Option<()>
    ensures zero { IsSameDeck zero.old zero.new }
    ensures one { IsSameDeck one.old one.new }
{
    work_with::<Brand, R>(rt, alloc, pool, zero)?;
    write!(text, "worked: two blocks put {}\n", zero.puts() >= 2).ok()?;
    tell_steal(rt, one, text)
}

/// Adds whether the worker put at least two blocks, what another deck then steals, and what is left.
pub(crate) fn tell_worked<R: Wait>(rt: &R, alloc: Global, text: &mut String) -> Option<()> {
    let pool = sample_pool(alloc)?;
    let Ok(Some((mut zero, mut one))) = two_decks(alloc) else {
        return None;
    };
    tell_work(rt, alloc, pool, &mut zero, &mut one, text)?;
    let left = gather_two(alloc, zero, one).ok()?;
    tell_left(left.as_slice(), text)
}
