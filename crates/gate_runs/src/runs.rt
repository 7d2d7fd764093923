//! Runs of the top call.

mod meeting;

use crate::texts::Texts;
use meeting::Meeting;
use plan_io::{FileShelf, Gate, MemShelf, MemSink, NoGate, OutSink, Shelf, Sink, SureShelf};
use plan_run::run;
use std::alloc::{AllocError, Global};
use std::rt::Files;
use std::sync::Wait;
use std::thread::Threads;

/// What a row is done with: what its runs start threads with, the texts, and the words behind its kind.
#[derive_where(Clone, Copy)]
pub(crate) struct Row<'a, R> {
    pub(crate) rt: &'a R,
    pub(crate) alloc: Global,
    pub(crate) texts: &'a Texts,
    pub(crate) rest: &'a str,
}

impl<'a, R> Row<'a, R> {
    /// A row of these.
    pub(crate) fn of(rt: &'a R, alloc: Global, texts: &'a Texts, rest: &'a str) -> Row<'a, R> {
        Row {
            rt,
            alloc,
            texts,
            rest,
        }
    }
}

/// How many bytes what is written may have.
pub(crate) const ROOM: usize = 200_000;

/// The words of this line, which single blanks part.
pub(crate) fn words_of(alloc: Global, line: &str) -> Result<Vec<String>, AllocError> {
    line.split(' ')
        .map(|word| String::from_str(alloc, word))
        .try_collect(alloc)
}

/// The status of a run of the words of this line over a shelf and a sink. None where memory is wanting before it begins.
fn status_of<R: Threads + Wait + Sync, S: Shelf, K: Sink, G: Gate>(
    rt: &R,
    alloc: Global,
    line: &str,
    shelf: &mut S,
    sink: &mut K,
    gate: &G,
) -> Option<u8> {
    let words = words_of(alloc, line).ok()?;
    Some(run(rt, alloc, words.as_slice(), shelf, sink, gate) as u8)
}

/// The status of a run of the words of this line over texts with names and a sink. None as `status_of`.
fn status_over<R: Threads + Wait + Sync, G: Gate>(
    rt: &R,
    alloc: Global,
    named: &[(&str, &[u8])],
    line: &str,
    sink: &mut MemSink,
    gate: &G,
) -> Option<u8> {
    let mut shelf = SureShelf::new(alloc, named).ok()?;
    status_of(rt, alloc, line, &mut shelf, sink, gate)
}

/// Adds this line where it begins with this word, or the word alone where that ends in `~`.
fn tell_line(first: &str, line: &str, text: &mut String) -> Option<()> {
    let told = match first.strip_suffix("~") {
        Some(front) if line.starts_with(front) => first,
        None if first == "*" || line.starts_with(first) => line,
        _ => return Some(()),
    };
    write!(text, "  {told}\n").ok()
}

/// Adds the name of a run and its status, and those lines of what it wrote that begin with one of these words.
fn tell_lines(
    name: &str,
    firsts: &str,
    status: u8,
    written: &str,
    text: &mut String,
) -> Option<()> {
    write!(text, "{name} {status}\n").ok()?;
    for line in written.lines() {
        for first in firsts.split(',') {
            tell_line(first, line, text)?;
        }
    }
    Some(())
}

/// The same, of all that a sink took.
fn tell_sink(name: &str, status: u8, sink: &MemSink, text: &mut String) -> Option<()> {
    let written = str::from_utf8(sink.bytes()).ok()?;
    tell_lines(name, "*", status, written, text)
}

/// The status of a run of the words of this line over texts with names, each call of which succeeds, and what it wrote.
pub(crate) fn ended_over<R: Threads + Wait + Sync, G: Gate>(
    rt: &R,
    alloc: Global,
    named: &[(&str, &[u8])],
    line: &str,
    gate: &G,
) -> Option<(u8, MemSink)> {
    let mut sink = MemSink::new(alloc, ROOM, &[]).ok()?;
    let status = status_over(rt, alloc, named, line, &mut sink, gate)?;
    Some((status, sink))
}

/// The status of a run of the words of this line over the texts, and what it wrote.
fn ended<R: Threads + Wait + Sync, G: Gate>(
    rt: &R,
    alloc: Global,
    texts: &Texts,
    line: &str,
    gate: &G,
) -> Option<(u8, MemSink)> {
    let named = texts.named(alloc)?;
    ended_over(rt, alloc, named.as_slice(), line, gate)
}

/// Runs words over the texts, and adds what is written to them.
pub(crate) fn run_row<R: Threads + Wait + Sync, G: Gate>(
    rt: &R,
    alloc: Global,
    texts: &mut Texts,
    rest: &str,
    gate: &G,
    text: &mut String,
) -> Option<()> {
    let (name, rest) = rest.split_once(' ')?;
    let (firsts, line) = rest.split_once(" : ")?;
    let (status, sink) = ended(rt, alloc, texts, line, gate)?;
    let written = str::from_utf8(sink.bytes()).ok()?;
    tell_lines(name, firsts, status, written, text)?;
    texts.add(alloc, name, written)
}

/// The same, where the first two workers wait for each other, and adds whether they met.
pub(crate) fn meet_row<R: Threads + Wait + Sync>(
    rt: &R,
    alloc: Global,
    texts: &mut Texts,
    rest: &str,
    text: &mut String,
) -> Option<()> {
    let gate = Meeting::new();
    run_row(rt, alloc, texts, rest, &gate, text)?;
    let end = if gate.have_met() {
        "  met\n"
    } else {
        "  alone\n"
    };
    text.push_str(end).ok()
}

/// The numbers of the calls that fail: none, or this one.
fn failing(alloc: Global, word: &str) -> Option<Vec<u64>> {
    let mut calls = Vec::new(alloc);
    if word != "-" {
        calls.push(word.parse::<u64>().ok()?).ok()?;
    }
    Some(calls)
}

/// A shelf of the texts of which this call fails.
fn failing_shelf(alloc: Global, texts: &Texts, call: &str) -> Option<MemShelf> {
    let calls = failing(alloc, call)?;
    let named = texts.named(alloc)?;
    MemShelf::new(alloc, named.as_slice(), calls.as_slice()).ok()
}

/// A sink of this room of which this call fails.
fn failing_sink(alloc: Global, room: &str, call: &str) -> Option<MemSink> {
    let room = room.parse::<usize>().ok()?;
    let calls = failing(alloc, call)?;
    MemSink::new(alloc, room, calls.as_slice()).ok()
}

/// Runs words where a call of the shelf and one of the sink fail, and the sink has this room.
pub(crate) fn fails_row<R: Threads + Wait + Sync>(
    row: Row<'_, R>,
    text: &mut String,
) -> Option<()> {
    let (name, rest) = row.rest.split_once(' ')?;
    let (shelf_call, rest) = rest.split_once(' ')?;
    let (sink_call, rest) = rest.split_once(' ')?;
    let (room, line) = rest.split_once(' ')?;
    let mut shelf = failing_shelf(row.alloc, row.texts, shelf_call)?;
    let mut sink = failing_sink(row.alloc, room, sink_call)?;
    let status = status_of(row.rt, row.alloc, line, &mut shelf, &mut sink, &NoGate)?;
    tell_sink(name, status, &sink, text)
}

/// The status of a check of these texts.
fn checked<R: Threads + Wait + Sync>(
    rt: &R,
    alloc: Global,
    network: &[u8],
    model: &[u8],
) -> Option<u8> {
    let named = [("net", network), ("model", model)];
    let mut sink = MemSink::new(alloc, ROOM, &[]).ok()?;
    status_over(rt, alloc, &named, "check net model", &mut sink, &NoGate)
}

/// Adds each status that `cuts_row` tells of, for this text and this model.
fn tell_cuts<R: Threads + Wait + Sync>(
    rt: &R,
    alloc: Global,
    base: &[u8],
    model: &[u8],
    text: &mut String,
) -> Option<()> {
    let mut last = None;
    for count in 0..=base.len() {
        let status = checked(rt, alloc, &base[..count], model)?;
        if last != Some(status) {
            write!(text, "  {status} from {count} on\n").ok()?;
            last = Some(status);
        }
    }
    Some(())
}

/// Checks a text cut after each count of bytes, and adds each status with the least of the counts in a row that give it.
pub(crate) fn cuts_row<R: Threads + Wait + Sync>(row: Row<'_, R>, text: &mut String) -> Option<()> {
    let (name, names) = row.rest.split_once(' ')?;
    let (base, model) = row.texts.find_two(names)?;
    write!(text, "{name}\n").ok()?;
    tell_cuts(row.rt, row.alloc, base, model, text)
}

/// Runs words over the files of the folder that the program runs in.
pub(crate) fn files_row<R: Files + Threads + Wait + Sync>(
    rt: &R,
    alloc: Global,
    rest: &str,
    text: &mut String,
) -> Option<()> {
    let (name, line) = rest.split_once(' ')?;
    let mut shelf = FileShelf::new(rt);
    let mut room = [0u8; 64];
    let mut sink = OutSink::new(&mut room[..]);
    let status = status_of(rt, alloc, line, &mut shelf, &mut sink, &NoGate)?;
    let written = str::from_utf8(room.as_slice()).ok()?;
    let (written, _) = written.split_once('\0')?;
    tell_lines(name, "*", status, written, text)
}
