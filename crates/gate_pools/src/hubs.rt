//! Calls of hubs by several seats in turns, and of a board, and what each is answered.
//!
//! The file of rows has small networks and dialogues: each begins with a hub of either kind on a network and its seats,
//! goes on with calls, each by one seat, and ends with the plan of the pool that the ended hub gives; or it begins with a
//! board and its readers. What the pool alone answers to a call stands in `pools`, and that workers run at once in
//! `gate_runs`. To add a call, write it there in the form that the head of the file explains, and its answer, worked out by
//! hand, at the same place of the file `stdout`. Begin at `tell_dialogue`.

mod boards;
mod calls;
mod ends;
mod linear;
mod turns;

use crate::calling::pool_of;
use gate_networks::{Network, network_of};
use std::alloc::Global;
use std::sync::Wait;

/// Holds the dialogue of these rows, and adds them and their answers. None where a row is none, and where memory is wanting;
/// the last row that was added is then the one without an answer.
fn tell_dialogue<R: Wait>(
    rt: &R,
    alloc: Global,
    networks: &[Network],
    rows: &[&str],
    text: &mut String,
) -> Option<()> {
    let [first, calls @ .., _end] = rows else {
        return None;
    };
    write!(text, "{first}:\n").ok()?;
    let (kind, words) = first.split_once(' ')?;
    match kind {
        "hub" => turns::tell_dialogue(rt, alloc, networks, words, calls, text),
        "linear" => {
            let pool = pool_of(alloc, networks, words)?;
            linear::tell_dialogue(rt, alloc, pool, calls, text)
        }
        "board" => boards::tell_dialogue(rt, alloc, words, calls, text),
        _ => None,
    }
}

/// Keeps the network of a row, or a row of a dialogue. With the last row of it the dialogue is held.
fn take_row<'a, R: Wait>(
    rt: &R,
    alloc: Global,
    networks: &mut Vec<Network>,
    rows: &mut Vec<&'a str>,
    row: &'a str,
    text: &mut String,
) -> Option<()> {
    if let Some(rest) = row.strip_prefix("network ") {
        return networks.push(network_of(alloc, rest)?).ok();
    }
    rows.push(row).ok()?;
    if row == "end" {
        tell_dialogue(rt, alloc, networks.as_slice(), rows.as_slice(), text)?;
        rows.clear();
    }
    Some(())
}

/// Holds the dialogues of this file.
pub(crate) fn tell_rows<R: Wait>(
    rt: &R,
    alloc: Global,
    file: &str,
    text: &mut String,
) -> Option<()> {
    let mut networks = Vec::new(alloc);
    let mut rows = Vec::new(alloc);
    for row in file.lines() {
        if !row.is_empty() && !row.starts_with('#') {
            take_row(rt, alloc, &mut networks, &mut rows, row, text)?;
        }
    }
    Some(())
}
