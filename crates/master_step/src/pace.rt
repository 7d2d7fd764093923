//! How far the prices of an averaged ascent move.

/// The best value so far, and how far the next move goes.
#[derive(Drop)]
pub(crate) struct Pace {
    /// In thousandths of a cost grain.
    value: Option<i128>,
    /// The length of a move, in 64ths of what it asks for.
    factor: u128,
    /// How many turns were no better since the last one that was, or since the length was cut.
    misses: u32,
}

/// How many turns in a row are no better before moves are cut.
const MOST_MISSES: u32 = 4;

/// The least and the greatest length of a move, in 64ths.
const LEAST_FACTOR: u128 = 1;

const GREATEST_FACTOR: u128 = 128;

impl Pace {
    /// Before the first turn.
    pub(crate) fn new() -> Pace {
        Pace {
            value: None,
            factor: 32,
            misses: 0,
        }
    }

    /// Lengthens moves.
    fn lengthen(&mut self) {
        let longer = self.factor.saturating_add(self.factor / 8);
        self.factor = longer.saturating_add(1).min(GREATEST_FACTOR);
    }

    /// Counts a turn that was no better, and cuts moves where there were enough of them.
    fn miss(&mut self) {
        self.misses = self.misses.saturating_add(1);
        if self.misses >= MOST_MISSES {
            self.misses = 0;
            self.factor = (self.factor.saturating_mul(11) / 16).max(LEAST_FACTOR);
        }
    }

    /// Whether a turn with this value is better than all before.
    pub(crate) fn take(&mut self, value: i128) -> bool {
        match self.value {
            Some(held) if value <= held => {
                self.miss();
                false
            }
            Some(_) => {
                self.lengthen();
                self.keep(value);
                true
            }
            None => {
                self.keep(value);
                true
            }
        }
    }

    /// Keeps a better value.
    fn keep(&mut self, value: i128) {
        self.value = Some(value);
        self.misses = 0;
    }

    /// How much of the value the next move asks for, in 64ths of thousandths of a cost grain; none where the goal is
    /// reached.
    ///
    /// A tenth of the value at most, and at least a 200th of it and a 400th of the goal.
    pub(crate) fn asked(&self, goal: i128) -> Option<u128> {
        let value = self.value.unwrap_or(0);
        let left = goal.saturating_sub(value);
        if left <= 0 {
            return None;
        }
        let gained = value.max(0);
        let middle = left.min(gained / 10).max(gained / 200);
        let least = goal / 400;
        let asked = if middle < least {
            left.min(least)
        } else {
            middle
        };
        let asked = u128::try_from(asked).unwrap_or(0);
        Some(asked.saturating_mul(self.factor))
    }
}
