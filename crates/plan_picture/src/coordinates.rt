//! The coordinates of nodes as numbers.

use picture_layout::Coordinates;
use scaled_numbers::limits::MAX_TEXT_BYTES;
use scaled_numbers::{NumberFault, read_decimal};
use snd_network::NodeRecord;

/// Decimals of a coordinate that are drawn.
const PLACES: u32 = 6;

/// The front of a word up to its sixth decimal; the word itself where an exponent may follow.
fn cut_word(word: &[u8]) -> &[u8] {
    if word.iter().any(|byte| *byte == b'e' || *byte == b'E') {
        return word;
    }
    match word.iter().position(|byte| *byte == b'.') {
        Some(point) => word.get(..point.saturating_add(7)).unwrap_or(word),
        None => word,
    }
}

/// The number without a sign that a word spells, in millionths, if it is one that is drawn.
fn size_of(word: &[u8]) -> Option<u128> {
    if word.len() > MAX_TEXT_BYTES {
        return None;
    }
    match read_decimal(word, PLACES) {
        Ok(size) => Some(size),
        Err(NumberFault::Finer) => {
            let front = cut_word(word);
            if front.len() > MAX_TEXT_BYTES {
                return None;
            }
            read_decimal(front, PLACES).ok()
        }
        Err(_) => None,
    }
}

/// The number that a word spells, in millionths, if it is one that is drawn.
fn coordinate(word: &[u8]) -> Option<i128> {
    match word {
        [b'-', rest @ ..] => {
            let size = i128::try_from(size_of(rest)?).ok()?;
            Some(0i128.saturating_sub(size))
        }
        [b'+', rest @ ..] => i128::try_from(size_of(rest)?).ok(),
        _ => i128::try_from(size_of(word)?).ok(),
    }
}

/// The coordinates of a node, if it has two that are drawn.
pub fn coordinates_of(node: &NodeRecord) -> Option<Coordinates> {
    let (x, y) = node.place.as_ref()?;
    Some(Coordinates {
        x: coordinate(x.as_slice())?,
        y: coordinate(y.as_slice())?,
    })
}
