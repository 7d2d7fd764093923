//! Calls the layers below the search over small networks, and writes what they answer.
//!
//! The file of rows, whose name is the program's one word, has networks and questions about them: what loads cost on a
//! link, what prices are worth, ways of least weight, least paths with and without a limit on arcs, columns, what a
//! restriction allows and leaves, splits of a tree, and what crosses cuts. To add one, write it there in the form that the head of the file
//! explains, and the answer, worked out by hand, at the same place of the file `stdout`. Three rows compare the answers for
//! made links, networks and columns with plain twins (`made`). Begin at `tell_about`. Stands on `link_steps`, `least_path`,
//! `arc_restrict`, `path_pricing`, `hop_pricing`, `second_path`, `column_pool`, `proof_tree` and `branch_tree`, and promises
//! nothing of its own.
#![tactic(auto)]

mod asking;
mod columns;
mod cuts;
mod limits;
mod load_splits;
mod made;
mod paths;
mod restricting;
mod searching;
mod splits;
mod steps;
mod telling;
mod ways;

use anyhow::{Context, Result};
use asking::{Question, word_at};
use gate_networks::{Network, find, network_of};
use searching::Body;
use std::alloc::Global;
use std::io::Write;
use std::{env, fs, io};

/// Adds the answer to a question about a network.
fn tell_about(question: Question<'_>, text: &mut String) -> Option<()> {
    match word_at(question.row, 0) {
        "steps" => steps::tell_steps(question, text),
        "start" => steps::tell_start(question, text),
        "unit" => steps::tell_unit(question, text),
        "cost" | "counts" | "value" | "ranged" | "below" | "end" => steps::tell_link(
            question, text,
        ),
        "way" | "tree" => ways::tell_nodes(question, text),
        "price" => paths::tell_price(question, Body::Heap, text),
        "slow" => paths::tell_price(question, Body::Walk, text),
        "least" => paths::tell_least(question, text),
        "within" => limits::tell_within(question, text),
        "fewest" => limits::tell_fewest(question, text),
        "columns" => columns::tell_columns(question, text),
        "allowed" => paths::tell_allowed(question, text),
        "left" => paths::tell_left(question, text),
        "split" => splits::tell_split(question, text),
        "loads" => load_splits::tell_loads(question, text),
        "cut" => cuts::tell_cut(question, text),
        _ => None,
    }
}

/// Adds the answer to the question of a row. None where it is none, and where memory is wanting.
fn tell(alloc: Global, networks: &[Network], row: &str, text: &mut String) -> Option<()> {
    match row {
        "made columns" => return made::tell_columns(alloc, text),
        "made links" => return made::tell_links(alloc, text),
        "made networks" => return made::tell_networks(alloc, text),
        _ => {}
    }
    if word_at(row, 0) == "tally" {
        return cuts::tell_tally(row, text);
    }
    let inst = find(networks, word_at(row, 1))?;
    tell_about(Question { alloc, inst, row }, text)
}

/// Keeps the network of a row, or adds the row and the answer to its question.
fn take_row(alloc: Global, known: &mut Vec<Network>, row: &str, text: &mut String) -> Option<()> {
    if let Some(rest) = row.strip_prefix("network ") {
        return known.push(network_of(alloc, rest)?).ok();
    }
    write!(text, "{row}:").ok()?;
    tell(alloc, known.as_slice(), row, text)?;
    text.push_str("\n").ok()
}

/// Adds all questions of the file with their answers. At None the row behind the last whole line is none, or has no answer.
fn tell_rows(alloc: Global, file: &str, text: &mut String) -> Option<()> {
    let mut networks = Vec::new(alloc);
    for row in file.lines() {
        if !row.is_empty() && !row.starts_with('#') {
            take_row(alloc, &mut networks, row, text)?;
        }
    }
    Some(())
}

fn main(rt: HostRuntime) -> Result<()> {
    let name = env::args(&rt)?.nth(1).context("usage: gate_layers FILE")?;
    let file = fs::read_to_string(&rt, name.as_str())?;
    let mut text = String::new(rt.alloc());
    let told = tell_rows(rt.alloc(), file.as_str(), &mut text);
    io::writer(&rt).write_all(text.as_bytes())?;
    told.context("what stands behind the last answer is no network and no question")
}
