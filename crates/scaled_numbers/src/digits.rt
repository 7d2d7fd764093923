//! The digits of a number of any length, kept in two counts.

ghost use Rattle.std.specs.Prelude.{◌≡◌, ◌≤◌, ◌*◌, ◌^◌, min};

/// Cores are kept up to here: no number that is read has more.
pub(crate) const CAP: u64 = 1_000_000_000_000_000_000;

/// A core that no zero ends, up to `CAP`, and the count of zeros behind it.
#[derive(Clone, Copy)]
pub(crate) struct Digits {
    pub(crate) core: u64,
    pub(crate) zeros: u64,
    pub ghost capped: { core ≤ 10 ^ 18 },
}

/// The core with zeros behind it, up to `CAP`.
pub(crate) fn shifted(core: u64, zeros: u64) -> u64
    requires { core ≤ 10 ^ 18 }
    ensures { result ≡ min (core * 10 ^ zeros) (10 ^ 18) }
{
    if core == 0 {
        return 0;
    }
    if zeros >= 18 {
        return CAP;
    }
    let mut value = core;
    for _ in 0..zeros {
        value = (value * 10).min(CAP);
    }
    value
}

impl Digits {
    ghost use Rattle.std.specs.Prelude.{◌≡◌, ℕ, ◌≤◌, ◌<◌, ◌+◌, ◌*◌, ◌^◌};
    ghost use Rattle.scaled_numbers.specs.Kept.{Holds};

    pub(crate) fn none() -> Self
        ensures holds { Holds result.core result.zeros 0 }
        ensures zeros { result.zeros ≡ 0 }
    {
        Digits { core: 0, zeros: 0 }
    }

    /// The number with one digit more behind it.
    pub(crate) fn push(self, digit: u8) -> Self
        requires digit { digit < 10 }
        requires zeros { self.zeros < 2 ^ 32 }
        ensures zeros { result.zeros ≤ self.zeros + 1 }
        ensures holds { (n : ℕ) → Holds self.core self.zeros n → Holds result.core result.zeros (n * 10 + digit) }
    {
        if digit > 0 {
            let core = shifted(self.core, self.zeros + 1);
            return Digits {
                core: (core + u64::from(digit)).min(CAP),
                zeros: 0,
            };
        }
        if self.core == 0 {
            return self;
        }
        Digits {
            core: self.core,
            zeros: self.zeros + 1,
        }
    }
}
