//! A gate at which two workers wait for each other.

use plan_io::{Gate, Standing};
use std::sync::atomic::{AtomicBool, Ordering};
use std::thread;

/// At their first task the first two workers each raise a flag and wait for the other's, for so many yields at most.
#[derive(Drop)]
pub(crate) struct Meeting {
    first: AtomicBool,
    second: AtomicBool,
    first_met: AtomicBool,
    second_met: AtomicBool,
    is_told: AtomicBool,
}

impl Meeting {
    /// Nobody has come yet.
    pub(crate) fn new() -> Meeting {
        Meeting {
            first: AtomicBool::new(false),
            second: AtomicBool::new(false),
            first_met: AtomicBool::new(false),
            second_met: AtomicBool::new(false),
            is_told: AtomicBool::new(false),
        }
    }

    /// Whether each of the two has seen the other's flag, and the gate was told how far the search was.
    pub(crate) fn have_met(&self) -> bool {
        self.first_met.load(Ordering::SeqCst)
            && self.second_met.load(Ordering::SeqCst)
            && self.is_told.load(Ordering::SeqCst)
    }
}

/// Whether the flag rises within so many yields.
fn rises(flag: &AtomicBool) -> bool {
    for _ in 0..2_000_000 {
        if flag.load(Ordering::SeqCst) {
            return true;
        }
        thread::yield_now();
    }
    false
}

impl Gate for Meeting {
    fn pass(&self, worker: u32, turn: u64) {
        if turn != 0 {
            return;
        }
        if worker == 0 {
            self.first.store(true, Ordering::SeqCst);
            let met = rises(&self.second);
            self.first_met.store(met, Ordering::SeqCst);
        }
        if worker == 1 {
            self.second.store(true, Ordering::SeqCst);
            let met = rises(&self.first);
            self.second_met.store(met, Ordering::SeqCst);
        }
    }

    fn stand(&self, standing: Standing) {
        if standing.examined < standing.budget {
            self.is_told.store(true, Ordering::SeqCst);
        }
    }
}
