//! Workers of a search: seats of one hub, each with a deck.

ghost use Rattle.std.specs.Prelude.{◌≡◌, ◌≤◌, [], length, map, reverse, IfOk, vec_capacity};

use crate::hub::LinearSeat;
use crate::naming::Naming;
use block_deques::Deck;
use std::alloc::{AllocError, Global};
use std::sync::Wait;

/// A worker's seat and its deck.
#[derive(Drop)]
pub(crate) struct Worker<N: Naming, R: Wait + Drop> {
    pub(crate) seat: LinearSeat<N, R>,
    pub(crate) deck: Deck,
}

/// A hub's workers, and the two lists from which they came, which are empty now and have room for them.
#[derive(Drop)]
pub(crate) struct Crew<N: Naming, R: Wait + Drop> {
    pub(crate) workers: Vec<Worker<N, R>>,
    pub(crate) seats: Vec<LinearSeat<N, R>>,
    pub(crate) decks: Vec<Deck>,
}

/// The seats, each with a deck, from the last ones to the first.
pub(crate) fn put_together<N: Naming, R: Wait + Drop>(
    alloc: Global,
    mut seats: Vec<LinearSeat<N, R>>,
    mut decks: Vec<Deck>,
) -> Result<Crew<N, R>, AllocError>
    requires { length seats.items ≡ length decks.items }
    ensures seats { IfOk result (λ crew. seats.items ≡ reverse (map (λ w. w.seat) crew.workers.items)) }
    ensures decks { IfOk result (λ crew. decks.items ≡ reverse (map (λ w. w.deck) crew.workers.items)) }
    ensures empty { IfOk result (λ crew. (crew.seats.items ≡ []) × (crew.decks.items ≡ [])) }
    ensures room { IfOk result (λ crew. (length crew.workers.items ≤ vec_capacity crew.seats) × (length crew.workers.items ≤ vec_capacity crew.decks)) }
{
    let mut workers = Vec::new(alloc);
    while let Some(deck) = decks.pop() {
        let Some(seat) = seats.pop() else {
            unreachable!()
        };
        workers.push(Worker { seat, deck })?;
    }
    Ok(Crew {
        workers,
        seats,
        decks,
    })
}

/// The seats and the decks again, in the order that they had. Takes no memory.
pub(crate) fn take_apart<N: Naming, R: Wait + Drop>(
    crew: Crew<N, R>,
) -> (Vec<LinearSeat<N, R>>, Vec<Deck>)
    requires empty { (crew.seats.items ≡ []) × (crew.decks.items ≡ []) }
    requires room { (length crew.workers.items ≤ vec_capacity crew.seats) × (length crew.workers.items ≤ vec_capacity crew.decks) }
    ensures seats { result.0.items ≡ reverse (map (λ w. w.seat) crew.workers.items) }
    ensures decks { result.1.items ≡ reverse (map (λ w. w.deck) crew.workers.items) }
{
    let Crew {
        mut workers,
        mut seats,
        mut decks,
    } = crew;
    while let Some(worker) = workers.pop() {
        let Worker { seat, deck } = worker;
        seats.push_reserved(seat);
        decks.push_reserved(deck);
    }
    (seats, decks)
}
