//! The search for the best number: what it is worth rises first, and then falls.

ghost use Rattle.std.specs.Prelude.{ℕ, ◌<◌, ◌≤◌};

/// The part of a number within which the best one is looked for first.
const NEAR: u128 = 16;

/// From where to where to look for the best number: it is mostly near the one that is moved.
fn bounds_near<F: Fn(u128) -> bool>(
    least: u128,
    most: u128,
    number: u128,
    rises: &F,
) -> (u128, u128)
    requires order { least ≤ most }
    requires rises { (x : ℕ) → x < most → F.pre rises.now x }
    ensures order { result.0 ≤ result.1 }
    ensures least { least ≤ result.0 }
    ensures most { result.1 ≤ most }
{
    let below = number - number / NEAR;
    let above = number.saturating_add(number / NEAR);
    if below < least || below >= most {
        return (least, most);
    }
    if !rises(below) {
        return (least, below);
    }
    if above >= most || above <= below {
        return (below + 1, most);
    }
    if rises(above) {
        (above + 1, most)
    } else {
        (below + 1, above)
    }
}

/// The least number from one to another from which on a higher one is worth no more; it is looked for near this one first.
pub(crate) fn first_not_rising<F: Fn(u128) -> bool>(
    least: u128,
    most: u128,
    number: u128,
    rises: F,
) -> u128
    requires order { least ≤ most }
    requires rises { (x : ℕ) → x < most → F.pre rises x }
    ensures least { least ≤ result }
    ensures most { result ≤ most }
{
    let (mut low, mut high) = bounds_near(least, most, number, &rises);
    while low < high {
        let middle = low + (high - low) / 2;
        if rises(middle) {
            low = middle + 1;
        } else {
            high = middle;
        }
    }
    low
}
