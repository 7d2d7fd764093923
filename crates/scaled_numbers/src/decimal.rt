//! Numbers at a scale.

ghost use Rattle.std.specs.Prelude.{◌≡◌, ◌↔◌, ℕ, ◌≤◌, ◌<◌, ◌+◌, ◌%◌, ◌^◌, ◌++◌, min, length, IfOk, Ok, Err};
ghost use Rattle.std.specs.Str.Parse.{digits_value};
ghost use Rattle.scaled_numbers.specs.Decimal.{Numeral, raised, lowered, IsRead, IsFault};
ghost use Rattle.scaled_numbers.specs.Scanning.{decimal_of};
ghost use Rattle.scaled_numbers.specs.Kept.{Sees, Agrees, IsShifted};
ghost use Rattle.scaled_numbers.specs.declared.fault.NumberFault.{NumberFault};
ghost use Rattle.scaled_numbers.specs.declared.limits.TheConstants.{MAX_TEXT_BYTES};

use crate::digits::shifted;
use crate::fault::NumberFault;
use crate::scan::{Scan, scan_all};

/// The core with `up` zeros behind it and then `down` digits less.
fn shift(core: u64, up: u64, down: u64, limit: u64) -> Result<u128, NumberFault>
    requires core { core ≤ 10 ^ 18 }
    requires limit { limit ≤ 10 ^ 18 }
    requires some { 0 < limit }
    ensures { (n exact_up exact_down : ℕ) → core ≡ min n (10 ^ 18) → (0 < n → 0 < n % 10) → Agrees up down exact_up exact_down
        → IsShifted n exact_up exact_down limit result }
{
    if core == 0 {
        return Ok(0);
    }
    if up < down {
        return Err(NumberFault::Finer);
    }
    let value = shifted(core, up - down);
    if value >= limit {
        return Err(NumberFault::TooLarge);
    }
    Ok(u128::from(value))
}

/// What has been read, at a scale.
fn scaled(scan: Scan, scale: u32) -> Result<u128, NumberFault>
    requires scale { scale ≤ 6 }
    requires zeros { scan.digits.zeros ≤ MAX_TEXT_BYTES }
    requires places { scan.places ≤ MAX_TEXT_BYTES }
    requires power { scan.power ≤ 10 ^ 9 }
    ensures { (n : Numeral) → Sees scan n
        → IsShifted (digits_value 10 (n.whole ++ n.fraction)) (scale + raised n.power) (length n.fraction + lowered n.power) (10 ^ (12 + scale)) result }
{
    let limit = 10u64.pow(12 + scale);
    let zeros = scan.digits.zeros + u64::from(scale);
    if scan.negative {
        shift(scan.digits.core, zeros, scan.places + scan.power, limit)
    } else {
        shift(scan.digits.core, zeros + scan.power, scan.places, limit)
    }
}

/// Reads a text that is one number.
///
/// - Takes: the text, without blanks; the scale, 6 for load grains and 0 for whole numbers.
/// - Gives: the value times `10^scale`, exactly.
/// - Errors: `NotANumber`, exactly where the text spells no number, with the first place that fits no
///   continuation; `Finer`, exactly where the number is not whole at the scale; `TooLarge`, exactly where
///   it is whole and `10^12` or more.
/// - Rule: docs/FORMATS.md, "Numbers in texts".
/// - Time: one pass, whatever the digits and the exponent. No memory.
pub fn read_decimal(text: &[u8], scale: u32) -> Result<u128, NumberFault>
    requires scale { scale ≤ 6 }
    requires length { length text.now ≤ MAX_TEXT_BYTES }
    ensures value { (v : ℕ) → (result ≡ Ok v) ↔ IsRead text.now scale v }
    ensures fault { (f : NumberFault) → (result ≡ Err f) ↔ IsFault text.now scale f }
    ensures small { IfOk result (λ v. v < 10 ^ (12 + scale)) }

    // The same as a function, for the forms of texts that have numbers in them.
    ensures exact { result ≡ decimal_of text.now scale }
{
    match scan_all(text) {
        Ok(scan) => scaled(scan, scale),
        Err(at) => Err(NumberFault::NotANumber { at }),
    }
}
