//! Searches for designs, steps of the master problem, steps of links that take one choice, and what rules of splits and cuts
//! choose, on made cases, and writes what is found.
//!
//! Four parts one after the other: `designs`, `masters`, `choices` and `rules`. The head of each tells what is compared with what.
//! The lines that must be written stand in the file `stdout`. Stands on `incumbent`, `instance_maker`, `master_step`,
//! `explicit_steps`, `leaf_tasks` and `cut_separation`, and promises nothing of its own.
#![tactic(auto)]

mod choices;
mod designs;
mod masters;
mod rules;

use anyhow::{Context, Result};
use std::alloc::Global;
use std::io;
use std::io::Write;

/// Adds all lines. At None the last one that is begun cannot be ended, or something is not as it has to be behind it.
fn tell_all(alloc: Global, text: &mut String) -> Option<()> {
    designs::tell_designs(alloc, text)?;
    masters::tell_masters(alloc, text)?;
    choices::tell_choices(alloc, text)?;
    rules::tell_rules(alloc, text)
}

fn main(rt: HostRuntime) -> Result<()> {
    let mut text = String::new(rt.alloc());
    let told = tell_all(rt.alloc(), &mut text);
    io::writer(&rt).write_all(text.as_bytes())?;
    told.context("what is found behind the last line is not as it has to be")
}
