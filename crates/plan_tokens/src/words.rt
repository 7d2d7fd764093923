//! Words and numbers of a line.

ghost use Rattle.std.specs.Prelude.{decimal, drop, ◌≡◌, ◌<◌, ◌≤◌, ◌+◌, ◌*◌, ◌^◌, ℕ, Some, None, IfOk};
ghost use Rattle.std.specs.Str.{bytes_eq};
ghost use Rattle.std.specs.Str.Parse.{AllDigits, digits_value};
ghost use Rattle.scaled_numbers.specs.Canonical.{grains_text};
ghost use Rattle.plan_tokens.specs.Words.{behind, before, number_of, numbers_of, grains_of, numbers_after_word};
ghost use Rattle.plan_tokens.specs.Cuts.{found_now, items_of, IsScaledParts};

use crate::lines::cut;
use itoa::Buffer;
use scaled_numbers::write_grains;
use std::alloc::{AllocError, Global};

/// Whether the bytes are the same.
pub fn are_same(bytes: &[u8], others: &[u8]) -> bool
    ensures { result ≡ bytes_eq bytes.now others.now }
{
    bytes == others
}

/// The bytes behind this word, where the bytes begin with it.
#[tactic(auto, using(crate::proofs::NumberWords::behind_is, crate::proofs::Cutting::strips))]
pub fn behind<'a>(word: &[u8], bytes: &'a [u8]) -> Option<&'a [u8]>
    ensures { found_now result ≡ behind word.now bytes.now }
{
    bytes.strip_prefix(word)
}

/// The bytes before this word, where the bytes end with it.
#[tactic(auto, using(crate::proofs::Cutting::strips_end))]
pub fn before<'a>(word: &[u8], bytes: &'a [u8]) -> Option<&'a [u8]>
    ensures { found_now result ≡ before word.now bytes.now }
{
    bytes.strip_suffix(word)
}

/// The number that the digits write.
#[tactic(auto, using(crate::proofs::Digits::digit_is, crate::proofs::Digits::value_more, crate::proofs::Digits::value_within))]
fn value_of(digits: &[u8]) -> Option<u128>
    ensures { AllDigits 10 digits.now → digits_value 10 digits.now < 2 ^ 128
        → result ≡ Some (digits_value 10 digits.now) }
{
    let mut value: u128 = 0;
    for digit in digits {
        if !digit.is_ascii_digit() {
            return None;
        }
        value = value
            .checked_mul(10)?
            .checked_add(u128::from(*digit - b'0'))?;
    }
    Some(value)
}

/// Whether the bytes are the decimal of the value.
fn is_decimal(bytes: &[u8], value: u128) -> bool
    ensures { result ≡ bytes_eq bytes.now (decimal value) }
{
    let mut buffer = Buffer::new();
    are_same(bytes, buffer.format(value).as_bytes())
}

/// The number whose decimal the bytes are.
#[tactic(auto, using(crate::proofs::NumberWords::number_yes, crate::proofs::NumberWords::number_no, crate::proofs::NumberWords::number_lost))]
fn number(bytes: &[u8]) -> Option<u128>
    ensures { result ≡ number_of bytes.now }
{
    let value = value_of(bytes)?;
    if is_decimal(bytes, value) {
        Some(value)
    } else {
        None
    }
}

/// The numbers that are written so, a blank in front of each, or none where the bytes are no such numbers.
///
/// - Errors: want of memory alone.
#[tactic(auto, using(crate::proofs::NumberWords::blank_more, crate::proofs::NumberWords::blank_stop, crate::proofs::NumberWords::numbers_none, crate::proofs::NumberWords::blank_shorter, crate::proofs::NumberWords::numbers_end, crate::proofs::NumberWords::with_nothing))]
pub fn numbers(alloc: Global, bytes: &[u8]) -> Result<Option<Vec<u128>>, AllocError>
    ensures { IfOk result (λ found. items_of found ≡ numbers_of bytes.now) }
{
    let mut numbers = Vec::new(alloc);
    let mut rest = bytes;
    while !rest.is_empty() {
        let Some(after_blank) = behind(b" ", rest) else {
            return Ok(None);
        };
        let (word, after) = cut(after_blank, b' ');
        match number(word) {
            Some(n) => numbers.push(n)?,
            None => return Ok(None),
        }
        rest = after;
    }
    Ok(Some(numbers))
}

/// The numbers behind the word in a line, or none where the line is no such row.
///
/// - Errors: want of memory alone.
#[tactic(auto, unfolding(crate::specs::Words::numbers_of))]
pub fn row(alloc: Global, word: &[u8], body: &[u8]) -> Result<Option<Vec<u128>>, AllocError>
    ensures { IfOk result (λ found. items_of found ≡ numbers_after_word word.now body.now) }
{
    match behind(word, body) {
        Some(rest) => numbers(alloc, rest),
        None => Ok(None),
    }
}

/// Units, and digits behind a point to which so many places are left, in units of `10^-12`.
fn combined(units: u128, digits: u128, places: u32) -> Option<u128>
    requires { places ≤ 12 }
    ensures { units * 10 ^ 12 + digits * 10 ^ places < 2 ^ 128
        → result ≡ Some (units * 10 ^ 12 + digits * 10 ^ places) }
{
    let whole = units.checked_mul(1_000_000_000_000)?;
    let fraction = digits.checked_mul(10u128.pow(places))?;
    whole.checked_add(fraction)
}

/// What digits before and behind a point come to, in units of `10^-12`.
#[tactic(auto, using(crate::proofs::Digits::fraction_small))]
fn scaled(whole: &[u8], fraction: &[u8]) -> Option<u128>
    ensures { (v : ℕ) → v < 2 ^ 128 → IsScaledParts v whole.now fraction.now → result ≡ Some v }
{
    if fraction.len() > 12 {
        return None;
    }
    let units = value_of(whole)?;
    let digits = value_of(fraction)?;
    combined(units, digits, 12 - fraction.len() as u32)
}

/// The bytes behind the first.
fn behind_first(bytes: &[u8]) -> &[u8]
    ensures { result.now ≡ drop 1 bytes.now }
{
    if bytes.is_empty() {
        return bytes;
    }
    let (_, rest) = bytes.split_at(1);
    rest
}

/// What the bytes come to as a decimal, in units of `10^-12`.
fn decimal_value(bytes: &[u8]) -> Option<u128>
    ensures { (v : ℕ) → v < 2 ^ 128 → bytes.now ≡ grains_text v 12 → result ≡ Some v }
{
    let (whole, point) = cut(bytes, b'.');
    scaled(whole, behind_first(point))
}

/// Whether the bytes are the canonical decimal of these cost grains.
fn is_grains_text(alloc: Global, bytes: &[u8], value: u128) -> Result<bool, AllocError>
    ensures { IfOk result (λ same. same ≡ bytes_eq bytes.now (grains_text value 12)) }
{
    let mut text = Vec::new(alloc);
    write_grains(value, 12, &mut text)?;
    Ok(are_same(bytes, text.as_slice()))
}

/// The cost grains, in units of `10^-12`, whose canonical decimal the bytes are.
///
/// - Errors: want of memory alone.
#[tactic(auto, using(crate::proofs::Digits::grains_yes, crate::proofs::Digits::grains_no, crate::proofs::Digits::grains_lost))]
pub fn grains(alloc: Global, bytes: &[u8]) -> Result<Option<u128>, AllocError>
    ensures { IfOk result (λ found. found ≡ grains_of bytes.now) }
{
    let Some(value) = decimal_value(bytes) else {
        return Ok(None);
    };
    if is_grains_text(alloc, bytes, value)? {
        Ok(Some(value))
    } else {
        Ok(None)
    }
}
