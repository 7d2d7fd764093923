//! A gate that shows how far a run is.

ghost use Rattle.std.specs.Prelude.{◌≡◌};

use crate::answering::Answering;
use crate::line::line_of;
use crate::told::Told;
use plan_io::{Gate, Standing};
use std::alloc::{AllocError, Global};
use std::io::{Print, Write};
use std::sync::atomic::{AtomicBool, AtomicU64, Ordering};
use std::sync::{Condvar, CondvarTimeouts, Mutex, Wait};
use std::time::{Clock, Duration, Instant};

/// After how many milliseconds of a run its line is shown first.
const FIRST: u64 = 1_000;

/// How many milliseconds pass from one line to the next.
const PAUSE: u64 = 250;

/// How many lines are shown at most where no worker comes: those of more than a hundred years.
const MOST: u64 = 20_000_000_000;

/// Begins the line of a terminal anew: a carriage return, and the code that wipes what stands there.
const ANEW: &[u8] = b"\r\x1b[K";

/// Cuts what is too long for the line of a terminal, where it would go on in the next one.
const CUT: &[u8] = b"\x1b[?7l";

/// Wipes the last place of a line that was cut, which holds the end of what is too long; and lets lines go on in the next
/// one again.
const UNCUT: &[u8] = b"\x1b[K\x1b[?7h";

/// A gate that shows how far a run is, in one line that is written anew again and again.
///
/// No worker waits for it: who passes when the line is due writes it, and `keep_showing` does while nobody passes.
#[derive(Drop)]
pub struct Progress<C: Clock, P: Print> {
    alloc: Global,
    clock: C,
    screen: P,
    /// When the run began; None where nothing is shown.
    began: Option<Instant>,
    /// A bit for each worker that has come.
    workers: AtomicU64,
    /// At which millisecond of the run the line is due.
    due: AtomicU64,
    /// At which millisecond of the run the bound is asked for.
    asked: AtomicU64,
    /// Whether a line stands at the screen.
    is_shown: AtomicBool,
    /// How far the search was when that was told last.
    told: Told,
    /// Whether the run has ended.
    has_ended: Mutex<bool>,
    /// Rings when it has.
    bell: Condvar,
}

/// Whether the time has come that is due, and nobody else has seen that. Then the next one is due after a pause.
fn has_come(due: &AtomicU64, millis: u64) -> bool {
    let at = due.load(Ordering::SeqCst);
    let next = millis.saturating_add(PAUSE);
    millis >= at
        && due
            .compare_exchange(at, next, Ordering::SeqCst, Ordering::SeqCst)
            .is_ok()
}

impl<C: Clock, P: Print> Progress<C, P> {
    /// Begins to take the time of a run.
    ///
    /// - Takes: where the line is shown, and whether that is a terminal. Nothing is shown where it is none.
    pub fn new(alloc: Global, clock: C, screen: P, is_terminal: bool) -> Progress<C, P> {
        let began = if is_terminal {
            Instant::now(&clock).ok()
        } else {
            None
        };
        Progress {
            alloc,
            clock,
            screen,
            began,
            workers: AtomicU64::new(0),
            due: AtomicU64::new(FIRST),
            asked: AtomicU64::new(0),
            is_shown: AtomicBool::new(false),
            told: Told::new(),
            has_ended: Mutex::new(false),
            bell: Condvar::new(),
        }
    }

    /// How many milliseconds the run has taken, where it is shown.
    fn millis(&self) -> Option<u64> {
        let passed = self.began?.elapsed(&self.clock).ok()?;
        u64::try_from(passed.as_millis()).ok()
    }

    /// Whether the line is due, and nobody else writes it.
    fn is_due(&self, millis: u64) -> bool {
        has_come(&self.due, millis)
    }

    /// The line, with what puts it in the place of the one before.
    fn shown(&self, millis: u64, standing: Option<Standing>) -> Result<Vec<u8>, AllocError> {
        let workers = self.workers.load(Ordering::SeqCst).count_ones();
        let line = line_of(self.alloc, standing, workers, millis / 1_000)?;
        let mut text = Vec::from_slice(self.alloc, ANEW)?;
        text.extend_from_slice(CUT)?;
        text.extend_from_slice(line.as_slice())?;
        text.extend_from_slice(UNCUT)?;
        Ok(text)
    }

    /// Writes the line. Where that fails, or memory is wanting, the run goes on without it.
    fn show(&self, millis: u64, standing: Option<Standing>) {
        if let Ok(text) = self.shown(millis, standing) {
            self.is_shown.store(true, Ordering::SeqCst);
            let _ = self.screen.write_all(text.as_slice());
        }
    }

    /// Writes the line where it is due, with what was told last.
    fn show_if_due(&self) {
        if let Some(millis) = self.millis()
            && self.is_due(millis)
        {
            self.show(millis, self.told.read());
        }
    }

    /// Waits until the next line may be due, or the run has ended. Gives whether it has.
    fn waits_for_end<R: Wait + Clock>(&self, rt: &R) -> bool {
        let pause = Duration::from_millis(PAUSE);
        let guard = self.has_ended.lock(rt);
        let (guard, _) = self
            .bell
            .wait_timeout_while(rt, guard, pause, |has_ended| !*has_ended);
        *guard
    }

    /// Shows the line again and again, also while no worker passes, until the run has ended.
    pub fn keep_showing<R: Wait + Clock>(&self, rt: &R) {
        for _ in 0..MOST {
            if self.waits_for_end(rt) {
                return;
            }
            self.show_if_due();
        }
    }

    /// Tells `keep_showing` that the run has ended.
    pub fn end<R: Wait>(&self, rt: &R) {
        *self.has_ended.lock(rt) = true;
        self.bell.notify_all();
    }

    /// Wipes the line, where one stands there.
    pub fn wipe(&self) {
        if self.is_shown.swap(false, Ordering::SeqCst) {
            let _ = self.screen.write_all(ANEW);
        }
    }

    /// A writer of the run's answer, which wipes the line first.
    pub fn answering<'a, W: Write>(&'a self, writer: W) -> Answering<'a, C, P, W>
        ensures { ⟦<Answering<'a, C, P, W> as Write>⟧.contents result ≡ W.contents writer }
    {
        Answering::new(self, writer)
    }
}

impl<C: Clock + Sync, P: Print + Sync> Gate for Progress<C, P> {
    fn pass(&self, worker: u32, _turn: u64) {
        self.workers.fetch_or(1 << (worker % 64), Ordering::SeqCst);
    }

    fn asks(&self) -> bool {
        match self.millis() {
            Some(millis) => has_come(&self.asked, millis),
            None => false,
        }
    }

    fn stand(&self, standing: Standing) {
        self.told.write(standing);
        if let Some(millis) = self.millis()
            && self.is_due(millis)
        {
            self.show(millis, Some(self.told.read().unwrap_or(standing)));
        }
    }
}
