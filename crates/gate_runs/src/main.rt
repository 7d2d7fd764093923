//! Runs the top call, the verifier alone, the drawing of pictures and the writing of tables over small texts, and writes for
//! each run its name, the status and what was written.
//!
//! The files of rows, which the program's words name, have texts by name and runs over them, each as its head explains:
//! - `runs.txt`: each key and spelling of a model, each status, the order in which texts are looked at, shelves and sinks
//!   that fail at each call and after each byte, and command lines;
//! - `plans.txt`: a plan of every kind of evidence and of every status; for each rule of each kind of record a plan that
//!   breaks just this rule; pairs of broken rules in both orders; changes of the triangle's plan; plan texts of each
//!   version that are read or not. The verifier alone must end as the top call does;
//! - `pictures.txt`: the marks and names of nodes and links, links by how full they are, names that are escaped.
//!
//! To add a row, write it there, and what it writes, worked out by hand, at the same place of the file `stdout`. Begin at
//! `take_block`. Stands on `plan_run`, `verify_runs`, `picture_runs` and `table_runs` and promises nothing of its own.
#![tactic(auto)]

mod blocks;
mod pictures;
mod programs;
mod runs;
mod tables;
mod texts;
mod verifying;

use anyhow::{Context, Result};
use blocks::{Block, blocks_of};
use plan_io::NoGate;
use runs::Row;
use std::alloc::Global;
use std::io::Write;
use std::rt::Files;
use std::sync::Wait;
use std::thread::Threads;
use std::{env, fs, io};
use texts::Texts;

/// Adds the text that a block changes.
fn change_text(alloc: Global, texts: &mut Texts, rest: &str, lines: &str) -> Option<()> {
    let (name, base) = rest.split_once(' ')?;
    let (part, other) = lines.split_once('\n')?;
    let (other, _) = other.split_once('\n')?;
    texts.change(alloc, name, base, part, other)
}

/// Adds the text of a block's lines, some of which are repeated.
fn repeat_text(alloc: Global, texts: &mut Texts, rest: &str, lines: &str) -> Option<()> {
    let (name, count) = rest.split_once(' ')?;
    texts.repeat(alloc, name, count.parse::<u32>().ok()?, lines)
}

/// Takes a block: adds its text to the texts, or does its run. None where it is no block, and where memory is wanting.
fn take_block<R: Files + Threads + Wait + Sync>(
    rt: &R,
    alloc: Global,
    texts: &mut Texts,
    block: &Block,
    text: &mut String,
) -> Option<()> {
    let (kind, rest) = block.head.as_str().split_once(' ')?;
    let lines = block.text.as_str();
    match kind {
        "text" => texts.add(alloc, rest, lines),
        "change" => change_text(alloc, texts, rest, lines),
        "repeat" => repeat_text(alloc, texts, rest, lines),
        "run" => runs::run_row(rt, alloc, texts, rest, &NoGate, text),
        "meet" => runs::meet_row(rt, alloc, texts, rest, text),
        "fails" => runs::fails_row(Row::of(rt, alloc, texts, rest), text),
        "cuts" => runs::cuts_row(Row::of(rt, alloc, texts, rest), text),
        "files" => runs::files_row(rt, alloc, rest, text),
        "plan" => verifying::plan_row(Row::of(rt, alloc, texts, rest), lines, text),
        "changed" => verifying::changed_row(Row::of(rt, alloc, texts, rest), lines, text),
        "draw" => pictures::draw_row(alloc, texts, rest, text),
        "tables" => tables::table_row(alloc, texts, rest, text),
        _ => None,
    }
}

/// Writes what the rows of this file write.
fn write_rows<R: Files + Threads + Wait + Sync, W: Write>(
    rt: &R,
    alloc: Global,
    file: &str,
    out: &mut W,
) -> Result<()> {
    let blocks = blocks_of(alloc, file).context("not in form")?;
    let mut texts = Texts::new(alloc);
    for block in blocks.iter() {
        let mut text = String::new(alloc);
        let told = take_block(rt, alloc, &mut texts, block, &mut text);
        out.write_all(text.as_bytes())?;
        told.context(format_args!("row: {}", block.head))?;
    }
    Ok(())
}

fn main(rt: HostRuntime) -> Result<()> {
    let mut out = io::writer(&rt);
    for name in env::args(&rt)?.skip(1) {
        let file = fs::read_to_string(&rt, name.as_str())?;
        write_rows(&rt, rt.alloc(), file.as_str(), &mut out)?;
    }
    Ok(())
}
