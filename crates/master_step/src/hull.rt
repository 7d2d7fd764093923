//! The lower hull of what links cost beside a price or a rate that is looked for.

use std::alloc::{AllocError, Global};

/// What a link costs beside what is looked for, where so many grains have its worth.
#[derive(Clone, Copy)]
pub(crate) struct Point {
    /// In load grains.
    pub amount: u64,
    /// In thousandths of a cost grain.
    pub cost: i128,
}

/// What a point leaves at a price or a rate, in thousandths of a cost grain; far within 128 bits, as prices and rates are
/// within their limits.
fn left_at(point: Point, price: u128) -> i128 {
    let worth = price.saturating_mul(u128::from(point.amount));
    point
        .cost
        .saturating_sub(i128::try_from(worth).unwrap_or(i128::MAX))
}

/// The rise of the cost from one point to another times a distance, where that passes no 128 bits.
fn product(from: Point, to: Point, distance: u64) -> Option<i128> {
    to.cost
        .checked_sub(from.cost)?
        .checked_mul(i128::from(distance))
}

/// Whether the middle one of three points leaves the least at no price; where products pass 128 bits it is taken to leave it.
fn is_hidden(first: Point, middle: Point, last: Point) -> bool {
    let near = product(first, middle, last.amount.saturating_sub(middle.amount));
    let far = product(middle, last, middle.amount.saturating_sub(first.amount));
    match (near, far) {
        (Some(near), Some(far)) => far <= near,
        _ => false,
    }
}

/// The points that leave the least at some price. No contract rests on it.
#[derive(Drop)]
pub(crate) struct Hull {
    points: Vec<Point>,
}

impl Hull {
    /// No point.
    pub(crate) fn new(alloc: Global) -> Hull {
        Hull {
            points: Vec::new(alloc),
        }
    }

    /// Forgets all points.
    pub(crate) fn clear(&mut self) {
        self.points.clear();
    }

    /// Whether the last one of so many points leaves the least at no price beside a point behind it.
    fn hides(&self, count: usize, point: Point) -> bool {
        let points = self.points.as_slice();
        match (
            points.get(count.wrapping_sub(2)),
            points.get(count.wrapping_sub(1)),
        ) {
            (_, Some(last)) if last.amount == point.amount => point.cost < last.cost,
            (Some(first), Some(middle)) => is_hidden(*first, *middle, point),
            _ => false,
        }
    }

    /// Adds a point whose amount is not below those before.
    ///
    /// - Errors: want of memory alone.
    pub(crate) fn add(&mut self, point: Point) -> Result<(), AllocError> {
        let mut count = self.points.len();
        for _point in 0..self.points.len() {
            if !self.hides(count, point) {
                break;
            }
            count = count.saturating_sub(1);
        }
        self.points.truncate(count);
        let is_beaten = match self.points.last() {
            Some(last) => last.amount == point.amount,
            None => false,
        };
        if !is_beaten {
            self.points.push(point)?;
        }
        Ok(())
    }

    /// The point that leaves the least at a price or a rate, with what it leaves there; nothing where there is no point.
    pub(crate) fn least(&self, price: u128) -> Point {
        let mut best = Point { amount: 0, cost: 0 };
        for (place, point) in self.points.iter().enumerate() {
            let cost = left_at(*point, price);
            if place == 0 || cost < best.cost {
                best = Point {
                    amount: point.amount,
                    cost,
                };
            }
        }
        best
    }
}
