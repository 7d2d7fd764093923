//! Which grains of a load are counted.

ghost use Rattle.std.specs.Prelude.{◌≡◌, ◌≤◌};
ghost use Rattle.link_steps.specs.Tallies.{IsTally, tally, part};

/// The grains of a load that a place counts: past what it carried before, the first ones of each period.
#[derive(Clone, Copy, Debug, PartialEq, Eq)]
pub struct Batch {
    /// In load grains, at least 1.
    pub period: u64,
    /// How many grains of each period are counted: at least 1, and at most the period.
    pub first: u64,
    /// What is not counted of a load, in load grains.
    pub before: u64,
    /// The most of what is past it that is counted, in load grains.
    pub rest: u64,
}

/// How many grains of a load are among the first ones of their period. Takes no memory.
///
/// - Takes: the period, the number of its grains that are counted, and the load, all in load grains.
/// - Gives: load grains, at most the load.
/// - Rule: docs/DEFINITIONS.md, "Tally".
pub fn tally(period: u64, first: u64, load: u64) -> u64
    requires { IsTally period first }
    ensures value { result ≡ tally period first load }
    ensures within { result ≤ load }
{
    first * (load / period) + first.min(load % period)
}

impl Batch {
    /// How many grains of a load are counted. Takes no memory.
    ///
    /// - Gives: load grains, at most the load.
    /// - Rule: docs/DEFINITIONS.md, "Tally".
    pub fn part(self, load: u64) -> u64
        requires { IsTally self.period self.first }
        ensures value { result ≡ part self load }
        ensures within { result ≤ load }
    {
        tally(
            self.period,
            self.first,
            load.saturating_sub(self.before).min(self.rest),
        )
    }
}
