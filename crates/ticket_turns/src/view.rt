//! The history, and what a pass knows of it. No value of these is made.

use std::collections::LinkedList;

/// A call: who made it, how many that caller made before, and what it was.
pub struct Entry<C> {
    pub by: u64,
    pub number: u64,
    pub call: C,
}

/// What a pass is for.
pub enum Role {
    /// It has made so many callers.
    Maker(u64),
    /// It makes the calls of this number.
    Caller(u64),
    /// It makes no calls.
    Guest,
}

/// Where a pass stands between two turns, or in one.
pub enum Stage {
    /// It has no ticket.
    Idle,
    /// It has this ticket, which it has not seen served.
    Waiting(u64),
    /// Its ticket is served, so it has the slot; and whether it has raised the count since then.
    Holding(u64, bool),
}

/// What a pass knows.
pub struct View<C> {
    /// Its parts of the right to end all turns: 1 for each caller that it stands for.
    pub parts: u64,
    /// How many tickets it may still draw.
    pub draws: u64,
    pub role: Role,
    pub stage: Stage,
    /// The history, as far as it has seen it.
    pub seen: LinkedList<Entry<C>>,
    /// The history, as far as that pass had seen it which it took in last.
    pub heard: LinkedList<Entry<C>>,
    /// Its own calls.
    pub mine: LinkedList<Entry<C>>,
}
