//! Decimals.

use crate::words::first_number;
use scaled_numbers::limits::MAX_TEXT_BYTES;
use scaled_numbers::{read_decimal, up_to_grain, write_grains};
use std::alloc::Global;

/// Adds the number that these bytes spell at a scale, or its fault.
fn tell_bytes(bytes: &[u8], scale: u32, text: &mut String) -> Option<()> {
    if bytes.len() > MAX_TEXT_BYTES || scale > 6 {
        return None;
    }
    write!(text, "{:?}", read_decimal(bytes, scale)).ok()
}

/// Adds what the text behind the scale of this row spells.
pub(crate) fn tell(row: &str, text: &mut String) -> Option<()> {
    let (scale, part) = first_number(row)?;
    tell_bytes(part.as_bytes(), scale, text)
}

/// Adds what the text of so many zeros between two others spells at scale 0.
pub(crate) fn tell_zeros(alloc: Global, row: &str, text: &mut String) -> Option<()> {
    let (count, parts) = first_number(row)?;
    let (begin, end) = parts.split_once(' ')?;
    let mut part = String::from_str(alloc, begin).ok()?;
    for _ in 0..count {
        part.push_str("0").ok()?;
    }
    part.push_str(end).ok()?;
    tell_bytes(part.as_bytes(), 0, text)
}

/// Adds the decimal of a number of grains at a scale.
pub(crate) fn tell_grains(alloc: Global, row: &str, text: &mut String) -> Option<()> {
    let (scale, value) = first_number(row)?;
    let value = value.parse::<u128>().ok()?;
    if scale > 12 {
        return None;
    }
    let mut decimal = Vec::new(alloc);
    write_grains(value, scale, &mut decimal).ok()?;
    text.push_str(str::from_utf8(decimal.as_slice()).ok()?).ok()
}

/// Adds the least whole number of grains that is not below so many thousandths of one.
pub(crate) fn tell_grain(row: &str, text: &mut String) -> Option<()> {
    let total = row.parse::<i128>().ok()?;
    write!(text, "{}", up_to_grain(total)).ok()
}
