//! Numbers that look like chance and are the same at each run.

ghost use Rattle.std.specs.Prelude.{◌≡◌, ◌<◌, ◌≤◌, ◌+◌, ◌*◌, ◌%◌};

use plan_base::Path;

/// The numbers go round in a circle of one less than this.
const CIRCLE: u64 = 2_147_483_647;

/// What each number is multiplied by to give the next one.
const FACTOR: u64 = 48_271;

/// The most ones in a row that count.
const MOST_ONES: u32 = 32;

/// A Lehmer generator.
#[derive(Clone, Copy)]
pub struct Draws {
    state: u64,
    ghost within: { state < 2147483647 },
}

/// A number with an arc more in it.
fn stirred(state: u64, arc: u32) -> u64
    requires { state < CIRCLE }
    ensures { result ≡ (state + arc + 1) % CIRCLE }
{
    (state + u64::from(arc) + 1) % CIRCLE
}

/// A number with the arcs of a path in it.
fn stirred_by(path: &Path, start: u64) -> u64
    requires { start < CIRCLE }
    ensures { result < CIRCLE }
{
    let mut state = start;
    for arc in path.as_slice() {
        state = stirred(state, arc.0);
    }
    state
}

impl Draws {
    /// Draws that begin with these paths and this seed.
    pub(crate) fn new(paths: &[Path], seed: u32) -> Draws {
        let mut state = (u64::from(seed) + 1) % CIRCLE;
        for path in paths {
            state = stirred_by(path, state);
        }
        let mut draws = Draws {
            state: state.max(1),
        };
        draws.turn();
        draws
    }

    /// Goes on to the next number.
    fn turn(&mut self)
        ensures { self.new.state ≡ (self.old.state * FACTOR) % CIRCLE }
    {
        self.state = (self.state * FACTOR) % CIRCLE;
    }

    /// The next number, as one below this count.
    pub fn below(&mut self, count: u64) -> u64
        requires { 0 < count }
        ensures next { self.new.state ≡ (self.old.state * FACTOR) % CIRCLE }
        ensures value { result ≡ self.new.state % count }
        ensures within { result < count }
    {
        self.turn();
        self.state % count
    }

    /// How many draws of 0 or 1 give 1 before the first 0.
    pub(crate) fn ones(&mut self) -> u32
        ensures { result ≤ MOST_ONES }
    {
        for count in 0..MOST_ONES {
            if self.below(2) == 0 {
                return count;
            }
        }
        MOST_ONES
    }
}
