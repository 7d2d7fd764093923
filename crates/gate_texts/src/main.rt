//! Reads texts over shelves that may fail, and writes what is told of each, and the lines of commands.
//!
//! Three parts one after the other: network and model texts (`reading`), lines and texts of plans (`lines`), shelves, sinks
//! and terminals (`devices`). The head of each tells how a case is added. The program's words are the files of rows of the
//! first and the last part. Stands on `snd_network`, `snd_model`, `plan_report`, `cert_format`, `plan_io` and
//! `run_progress`, and promises nothing of its own.
#![tactic(auto)]

mod devices;
mod lines;
mod reading;
mod words;

use anyhow::{Context, Result};
use std::io::Write;
use std::{env, fs, io};

/// The text of the file that the word of this place names.
fn file_of(rt: &HostRuntime, place: usize) -> Result<String> {
    let name = env::args(rt)?.nth(place);
    let name = name.context("usage: gate_texts TEXTS DEVICES")?;
    Ok(fs::read_to_string(rt, name.as_str())?)
}

/// Adds what comes of all cases. None where one is not as its part says; the last line is then of the one before, or begun.
fn tell_all(rt: &HostRuntime, texts: &str, devices: &str, text: &mut String) -> Option<()> {
    reading::tell_rows(rt.alloc(), texts, text)?;
    lines::tell_lines(rt.alloc(), text)?;
    devices::tell_rows(rt, devices, text)
}

fn main(rt: HostRuntime) -> Result<()> {
    let texts = file_of(&rt, 1)?;
    let devices = file_of(&rt, 2)?;
    let mut text = String::new(rt.alloc());
    let told = tell_all(&rt, texts.as_str(), devices.as_str(), &mut text);
    io::writer(&rt).write_all(text.as_bytes())?;
    told.context("what comes behind the last line is no case")
}
