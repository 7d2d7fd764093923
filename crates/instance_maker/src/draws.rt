//! The generator of a sample's numbers.

ghost use Rattle.std.specs.Prelude.{◌≡◌, ◌<◌};
ghost use Rattle.instance_maker.specs.Draws.{next_state, draw};

/// What a state is multiplied by.
pub const MULTIPLIER: u64 = 1_103_515_245;

/// What is added then.
pub const INCREMENT: u64 = 12_345;

/// How many states there are.
pub const STATES: u64 = 2_147_483_648;

/// What a state is divided by before it is cut to a bound: the low bits of a state are less varied.
pub const DROPPED: u32 = 65_536;

/// A state of the generator.
#[derive(Clone, Copy, Debug)]
pub struct Draws {
    state: u32,
}

impl Draws {
    /// The generator that begins with this number.
    pub fn new(number: u32) -> Draws
        ensures { result.state ≡ number }
    {
        Draws { state: number }
    }

    /// The next number below the bound.
    #[tactic(auto, unfolding(crate::specs::Draws::next_state))]
    pub fn draw(&mut self, bound: u32) -> u32
        requires { 0 < bound }
        ensures value { result ≡ draw self.old.state bound }
        ensures within { result < bound }
        ensures next { self.new.state ≡ next_state self.old.state }
    {
        self.state = ((MULTIPLIER * u64::from(self.state) + INCREMENT) % STATES) as u32;
        self.state / DROPPED % bound
    }
}
