//! What workers told last of a search.

use plan_io::Standing;
use std::sync::atomic::{AtomicU64, Ordering};

/// What stands for a cost or a bound where there is none: none is as large.
const NO_AMOUNT: u128 = u128::MAX;

/// One more than the greatest half of a cost or a bound.
const HALF: u128 = 18_446_744_073_709_551_616;

/// A cost or a bound, or none, in two halves.
#[derive(Drop)]
struct Amount {
    /// The lower half.
    low: AtomicU64,
    /// The upper half.
    high: AtomicU64,
}

impl Amount {
    /// None.
    fn new() -> Amount {
        Amount {
            low: AtomicU64::new(u64::MAX),
            high: AtomicU64::new(u64::MAX),
        }
    }

    /// Writes one half after the other.
    fn write(&self, amount: Option<u128>) {
        let amount = amount.unwrap_or(NO_AMOUNT);
        self.low.store((amount % HALF) as u64, Ordering::SeqCst);
        self.high.store((amount / HALF) as u64, Ordering::SeqCst);
    }

    /// Reads one half after the other.
    fn read(&self) -> Option<u128> {
        let low = u128::from(self.low.load(Ordering::SeqCst));
        let amount = u128::from(self.high.load(Ordering::SeqCst)) * HALF + low;
        if amount == NO_AMOUNT {
            None
        } else {
            Some(amount)
        }
    }
}

/// How far a search was when that was told last. Nobody waits to tell it or to read it.
#[derive(Drop)]
pub(crate) struct Told {
    /// Odd while a standing is written.
    version: AtomicU64,
    /// The nodes that are examined.
    examined: AtomicU64,
    /// The nodes that may be; 0 where nothing was told.
    budget: AtomicU64,
    /// The cost of the best design.
    cost: Amount,
    /// The bound that was told last, which may be of an earlier standing.
    bound: Amount,
}

impl Told {
    /// Of a run of which nothing was told.
    pub(crate) fn new() -> Told {
        Told {
            version: AtomicU64::new(0),
            examined: AtomicU64::new(0),
            budget: AtomicU64::new(0),
            cost: Amount::new(),
            bound: Amount::new(),
        }
    }

    /// Writes a standing down, unless another one is being written. The last bound stays where none is told.
    pub(crate) fn write(&self, standing: Standing) {
        let version = self.version.load(Ordering::SeqCst) & !1;
        let writing = version.wrapping_add(1);
        if self
            .version
            .compare_exchange(version, writing, Ordering::SeqCst, Ordering::SeqCst)
            .is_err()
        {
            return;
        }
        self.examined
            .store(u64::from(standing.examined), Ordering::SeqCst);
        self.budget
            .store(u64::from(standing.budget), Ordering::SeqCst);
        self.cost.write(standing.cost);
        if standing.bound.is_some() {
            self.bound.write(standing.bound);
        }
        self.version
            .store(writing.wrapping_add(1), Ordering::SeqCst);
    }

    /// The standing that was written down last; None where there is none, or one is being written.
    pub(crate) fn read(&self) -> Option<Standing> {
        let version = self.version.load(Ordering::SeqCst);
        let examined = self.examined.load(Ordering::SeqCst);
        let budget = self.budget.load(Ordering::SeqCst);
        let cost = self.cost.read();
        let bound = self.bound.read();
        if budget == 0 || version % 2 == 1 || self.version.load(Ordering::SeqCst) != version {
            return None;
        }
        Some(Standing {
            examined: u32::try_from(examined).ok()?,
            budget: u32::try_from(budget).ok()?,
            cost,
            bound,
        })
    }
}
