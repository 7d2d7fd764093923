//! A line at a terminal: its words, and when it is shown.

use super::tell_quoted;
use super::writing::{Drip, tell_room, write_room};
use crate::words::first_number;
use plan_io::{Gate, OutSink, Standing};
use run_progress::{Progress, line_of};
use std::alloc::Global;
use std::fmt::Display;
use std::io;
use std::io::Print;
use std::sync::atomic::{AtomicU64, Ordering};
use std::time::{Clock, Duration};

/// A clock that stands still until it is set.
#[derive(Drop)]
struct Stopped(AtomicU64);

impl Stopped {
    fn new() -> Stopped {
        Stopped(AtomicU64::new(0))
    }

    /// Sets it to so many milliseconds.
    fn set(&self, millis: u64) {
        self.0.store(millis, Ordering::SeqCst);
    }
}

impl Clock for Stopped {
    fn monotonic(&self) -> io::Result<Duration> {
        Ok(Duration::from_millis(self.0.load(Ordering::SeqCst)))
    }

    fn since_1970(&self) -> io::Result<Duration> {
        self.monotonic()
    }
}

/// A screen that counts how often something is written.
#[derive(Drop)]
struct Counted(AtomicU64);

impl Counted {
    fn new() -> Counted {
        Counted(AtomicU64::new(0))
    }

    /// How often something was written.
    fn writes(&self) -> u64 {
        self.0.load(Ordering::SeqCst)
    }
}

impl Print for Counted {
    fn print<D: Display + Drop>(&self, _value: D) -> io::Result<()> {
        self.write_all(b"")
    }

    fn println<D: Display + Drop>(&self, _value: D) -> io::Result<()> {
        self.write_all(b"")
    }

    fn write_all(&self, _bytes: &[u8]) -> io::Result<()> {
        self.0.fetch_add(1, Ordering::SeqCst);
        Ok(())
    }

    fn write_some(&self, bytes: &[u8]) -> io::Result<usize> {
        self.0.fetch_add(1, Ordering::SeqCst);
        Ok(bytes.len())
    }
}

/// How far a run is that has examined half of its nodes.
const HALF: Standing = Standing {
    examined: 500,
    budget: 1_000,
    cost: None,
    bound: None,
};

/// The number of the first of these words, which is `-` where there is none; and the words behind it.
fn first_amount(words: &str) -> Option<(Option<u128>, &str)> {
    let (word, words) = words.split_once(' ')?;
    let amount = match word {
        "-" => None,
        _ => Some(u128::from(word.parse::<u64>().ok()?)),
    };
    Some((amount, words))
}

/// How far a run is, in the first four of these words: how many nodes it has examined, its budget, the cost of its design
/// and the bound; and the words behind them.
fn standing_of(words: &str) -> Option<(Standing, &str)> {
    let (examined, words) = first_number(words)?;
    let (budget, words) = first_number(words)?;
    let (cost, words) = first_amount(words)?;
    let (bound, words) = first_amount(words)?;
    let standing = Standing {
        examined,
        budget,
        cost,
        bound,
    };
    Some((standing, words))
}

/// Adds the line of a run.
pub(crate) fn tell_line(alloc: Global, rest: &str, text: &mut String) -> Option<()> {
    let (standing, rest) = standing_of(rest)?;
    let (workers, seconds) = first_number(rest)?;
    let seconds = seconds.parse::<u64>().ok()?;
    let line = line_of(alloc, Some(standing), workers, seconds).ok()?;
    tell_quoted(line.as_slice(), text)
}

/// Tells a gate how far a run is at each of these milliseconds, and adds how often it has written then.
fn tell_times<G: Gate>(
    gate: &G,
    clock: &Stopped,
    screen: &Counted,
    times: &str,
    text: &mut String,
) -> Option<()> {
    for millis in times.split(' ') {
        clock.set(millis.parse::<u64>().ok()?);
        gate.pass(0, 0);
        gate.stand(HALF);
        write!(text, " {}", screen.writes()).ok()?;
    }
    Some(())
}

/// Tells a gate how far a run is at each of these milliseconds and wipes its line twice, and adds how often it wrote.
pub(crate) fn show_line(alloc: Global, rest: &str, text: &mut String) -> Option<()> {
    let (place, times) = rest.split_once(' ')?;
    let is_terminal = match place {
        "terminal" => true,
        "pipe" => false,
        _ => return None,
    };
    let clock = Stopped::new();
    let screen = Counted::new();
    let progress = Progress::new(alloc, &clock, &screen, is_terminal);
    tell_times(&progress, &clock, &screen, times, text)?;
    progress.wipe();
    progress.wipe();
    write!(text, ", wiped {}", screen.writes()).ok()
}

/// Writes the answer of a run whose line is shown to a stream that takes few bytes at a time and has so much room, and adds
/// what it has.
pub(crate) fn write_answer(alloc: Global, rest: &str, text: &mut String) -> Option<()> {
    let (most, rest) = first_number(rest)?;
    let (size, part) = first_number(rest)?;
    let clock = Stopped::new();
    let screen = Counted::new();
    let progress = Progress::new(alloc, &clock, &screen, true);
    let mut room = [0u8; 64];
    let mut sink = OutSink::new(progress.answering(Drip::new(&mut room, most, size)?));
    let faults = write_room(&mut sink, part, text)?;
    tell_room(&room, faults, text)
}
