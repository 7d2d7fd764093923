//! Numbers that look as if drawn by chance, and are the same in each run.

ghost use Rattle.std.specs.Prelude.{◌<◌};

/// What is added for each number: an odd number without a pattern in its bits.
const STEP: u64 = 0x9e37_79b9_7f4a_7c15;

/// What the next numbers come from.
#[derive(Drop)]
pub struct Draws {
    state: u64,
}

impl Draws {
    /// The draws that begin with this number.
    pub fn begin(number: u32) -> Self {
        Draws {
            state: u64::from(number),
        }
    }

    /// The next number, below this limit.
    pub fn below(&mut self, limit: u32) -> u32
        requires { 0 < limit }
        ensures { result < limit }
    {
        self.state = self.state.wrapping_add(STEP);
        let mixed = mix(self.state, 30, 0xbf58_476d_1ce4_e5b9);
        let mixed = mix(mixed, 27, 0x94d0_49bb_1331_11eb);
        ((mix(mixed, 31, 1) >> 32) % u64::from(limit)) as u32
    }

    /// Whether one of so many equal chances came.
    pub fn one_of(&mut self, chances: u32) -> bool
        requires { 0 < chances }
    {
        self.below(chances) == 0
    }
}

/// The number with its upper bits mixed into its lower ones, and then multiplied.
fn mix(number: u64, places: u32, factor: u64) -> u64 {
    (number ^ number.wrapping_shr(places)).wrapping_mul(factor)
}
