//! Lets callers add to one sum by turns, one after another and two threads at once, and writes what they were told.
//!
//! Begin at `tell_all`. The value, its calls and where their histories lead stand in `sum`, what the threads do in
//! `threads`. The lines that must be written stand in the file `stdout`. Stands on `ticket_turns`, and promises nothing of
//! its own.
#![tactic(auto)]

mod sum;
mod threads;

use anyhow::{Context, Result};
use std::io;
use std::io::Write;
use threads::tell_all;

fn main(rt: HostRuntime) -> Result<()> {
    let mut text = String::new(rt.alloc());
    let told = tell_all(&rt, rt.alloc(), &mut text);
    io::writer(&rt).write_all(text.as_bytes())?;
    told.context("no answer behind the last line")
}
