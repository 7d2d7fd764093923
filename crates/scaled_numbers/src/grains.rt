//! Grains as decimals.

ghost use Rattle.std.specs.Prelude.{◌≡◌, ◌≤◌, ◌<◌, ◌^◌, ◌++◌, take, OnOk, OnErr, ℤ, pos, ◌*ℤ◌, ◌≤ℤ◌};
ghost use Rattle.scaled_numbers.specs.Canonical.{IsCanonicalDecimal, fraction_digits, behind_point, grains_text};
ghost use Rattle.scaled_numbers.specs.Kept.{shown};

use itoa::{Buffer, write_digits};
use std::alloc::AllocError;

/// Digits behind a point, zeros in front included.
#[derive(Clone, Copy)]
struct Fraction {
    digits: u64,
    places: u32,
    pub ghost within: { places ≤ 12 },
    pub ghost fits: { digits < 10 ^ places },
}

impl Fraction {
    /// The digits without the zeros at their end.
    fn shortest(mut digits: u64, mut places: u32) -> Self
        requires places { places ≤ 12 }
        requires digits { digits < 10 ^ places }
        ensures { fraction_digits places digits ≡ shown result.places result.digits }
    {
        while places > 0 && digits % 10 == 0 {
            digits /= 10;
            places -= 1;
        }
        Fraction { digits, places }
    }

    /// The point and the digits, and where they end: at 0 if there are none.
    fn text(self) -> ([u8; 13], usize)
        ensures end { result.1 ≤ 13 }
        ensures text { take result.1 result.0 ≡ behind_point (shown self.places self.digits) }
    {
        let mut text = *b".000000000000";
        if self.places == 0 {
            return (text, 0);
        }
        let end = self.places as usize + 1;
        write_digits(self.digits, &mut text, end);
        (text, end)
    }
}

/// How many grains are one unit.
fn grains_in_one(scale: u32) -> u64
    requires { scale ≤ 12 }
    ensures value { result ≡ 10 ^ scale }
    ensures some { 0 < result }
    ensures within { result ≤ 10 ^ 12 }
{
    10u64.pow(scale)
}

/// Appends the canonical decimal of a value: no needless zeros, and no point for a whole one.
///
/// - Takes: the value in grains, and the scale: `10^scale` grains are one unit.
/// - Errors: want of memory alone; then nothing is appended.
/// - Rule: docs/FORMATS.md, "Numbers in texts".
#[tactic(auto, using(crate::proofs::Fractions::two_pieces))]
pub fn write_grains(value: u128, scale: u32, out: &mut Vec<u8>) -> Result<(), AllocError>
    requires scale { scale ≤ 12 }
    ensures appended { OnOk result (out.new.items ≡ out.old.items ++ grains_text value scale) }
    ensures canonical { IsCanonicalDecimal scale value (grains_text value scale) }
    ensures unchanged { OnErr result (out.new.items ≡ out.old.items) }
{
    let unit = u128::from(grains_in_one(scale));
    let digits = (value % unit) as u64;
    let (fraction, end) = Fraction::shortest(digits, scale).text();
    let mut buffer = Buffer::new();
    let whole = buffer.format(value / unit).as_bytes();
    out.reserve(whole.len() + end)?;
    out.extend_from_slice(whole)?;
    out.extend_from_slice(&fraction[..end])
}

/// A total in whole grains, rounded up.
///
/// - Takes: thousandths of a cost grain, which may be negative.
/// - Gives: cost grains: the least whole number whose thousandfold is not below the total.
/// - Rule: docs/DEFINITIONS.md, "Bounds".
pub fn up_to_grain(total: i128) -> i128
    ensures reaches { total ≤ℤ (pos 1000 *ℤ result) }
    ensures least { (other : ℤ) → total ≤ℤ (pos 1000 *ℤ other) → result ≤ℤ other }
{
    let grains = total / 1000;
    if total % 1000 > 0 { grains + 1 } else { grains }
}
