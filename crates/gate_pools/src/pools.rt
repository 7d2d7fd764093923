//! Calls of the pool one after the other, and what it answers.
//!
//! The file of rows has small networks and dialogues: each begins with a pool on a network and goes on with calls. Each
//! call is made with ample memory, each refusal comes in its order, and small networks are searched from their first price
//! to the plan. To add a call, write it there in the form that the head of the file explains, and its answer, worked out by
//! hand, at the same place of the file `stdout`. Begin at `tell_row`.

mod calls;
mod handing;
mod made;
mod planning;
mod telling;
mod working;

use crate::calling::{design_of, offer_of, pool_of, tell_answer};
use gate_networks::{Network, network_of};
use pool_core::Pool;
use std::alloc::Global;

/// What rows before gave: the networks, and the pool that calls are made of.
#[derive(Drop)]
struct Given {
    networks: Vec<Network>,
    pool: Option<Pool>,
}

/// Makes the call of a row, and adds the answer.
fn tell(alloc: Global, pool: &mut Pool, kind: &str, rest: &str, text: &mut String) -> Option<()> {
    match kind {
        "offer" => tell_answer(pool.offer(offer_of(alloc, rest)?), text),
        "better" => tell_answer(pool.better(design_of(alloc, rest)?), text),
        "publish" => handing::tell_raised(alloc, pool, rest, text),
        "advise" => handing::take_advice(pool, rest),
        "node" => telling::tell_node(pool, rest, text),
        "slot" => telling::tell_slot(pool, rest, text),
        "counts" => telling::tell_counts(pool, text),
        "price" => working::tell_priced(alloc, pool, rest, text),
        "divide" => working::tell_divided(alloc, pool, rest, text),
        "work" => working::tell_worked(alloc, pool, rest, text),
        "finish" => planning::tell_finished(pool, text),
        _ => calls::tell_step(pool, kind, rest, text),
    }
}

/// Adds the answer to a row of this kind: makes a pool, ends with its plan, or makes a call of it.
fn tell_kind(
    alloc: Global,
    given: &mut Given,
    kind: &str,
    rest: &str,
    text: &mut String,
) -> Option<()> {
    match kind {
        "made" => made::tell_networks(alloc, text),
        "pool" => {
            given.pool = Some(pool_of(alloc, given.networks.as_slice(), rest)?);
            Some(())
        }
        "plan" => planning::tell_plan(alloc, given.pool.take()?, text),
        _ => tell(alloc, given.pool.as_mut()?, kind, rest, text),
    }
}

/// Keeps the network of a row, or adds the row and the answer to its call. None where the row is none, and where memory is
/// wanting.
fn tell_row(alloc: Global, given: &mut Given, row: &str, text: &mut String) -> Option<()> {
    let (kind, rest) = row.split_once(' ').unwrap_or((row, ""));
    if kind == "network" {
        return given.networks.push(network_of(alloc, rest)?).ok();
    }
    write!(text, "{row}:").ok()?;
    tell_kind(alloc, given, kind, rest, text)?;
    text.push_str("\n").ok()
}

/// Adds each call of this file with its answer.
pub(crate) fn tell_rows(alloc: Global, file: &str, text: &mut String) -> Option<()> {
    let mut given = Given {
        networks: Vec::new(alloc),
        pool: None,
    };
    for row in file.lines() {
        if !row.is_empty() && !row.starts_with('#') {
            tell_row(alloc, &mut given, row, text)?;
        }
    }
    Some(())
}
