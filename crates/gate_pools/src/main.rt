//! Makes calls of the pool, of both hubs by several seats, of a board and of decks, and writes what each is answered.
//!
//! Three parts one after the other: a pool (`pools`), hubs and a board (`hubs`), decks (`decks`). The head of each tells
//! how a case is added. The program's words are the files of rows of the first two. What both speak of stands in `calling`.
//! What a seat has seen of a history has no bytes, so no row shows it: that it has the seat's calls, each once and in their
//! order, and after a meeting all that the other had seen, the clauses `called` and `met` of `linear_hub` alone say. Stands
//! on `pool_core`, `pool_hub`, `linear_hub`, `dual_versions`, `block_deques` and on what makes their arguments; promises
//! nothing of its own.
#![tactic(auto)]

mod calling;
mod decks;
mod hubs;
mod pools;

use anyhow::{Context, Result};
use std::alloc::Global;
use std::io::Write;
use std::sync::Wait;
use std::thread::Threads;
use std::{env, fs, io};

/// The text of the file that the word of this place names.
fn file_of(rt: &HostRuntime, place: usize) -> Result<String> {
    let name = env::args(rt)?.nth(place);
    let name = name.context("usage: gate_pools POOLS HUBS")?;
    Ok(fs::read_to_string(rt, name.as_str())?)
}

/// Adds the rows of both files and their answers, and what is told of decks. None where a row is none, and where memory is
/// wanting; the last row that was added is then the one without an answer.
fn tell_all<R: Threads + Wait + Sync>(
    rt: &R,
    alloc: Global,
    pools: &str,
    hubs: &str,
    text: &mut String,
) -> Option<()> {
    pools::tell_rows(alloc, pools, text)?;
    hubs::tell_rows(rt, alloc, hubs, text)?;
    decks::tell_all(rt, alloc, text)
}

fn main(rt: HostRuntime) -> Result<()> {
    let pools = file_of(&rt, 1)?;
    let hubs = file_of(&rt, 2)?;
    let mut text = String::new(rt.alloc());
    let told = tell_all(&rt, rt.alloc(), pools.as_str(), hubs.as_str(), &mut text);
    io::writer(&rt).write_all(text.as_bytes())?;
    told.context("no answer behind the last row")
}
