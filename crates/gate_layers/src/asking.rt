//! A question about a network.

use gate_networks::{path_of, prices_of};
use plan_base::{Instance, Path, Prices};
use std::alloc::Global;

/// The network that is asked about, and the row: its words, from 0 on, are the kind of the question, the name of the
/// network, and what is asked.
#[derive(Clone, Copy)]
pub(crate) struct Question<'a> {
    pub(crate) alloc: Global,
    pub(crate) inst: &'a Instance,
    pub(crate) row: &'a str,
}

/// The number of this word: the greatest one where it is none, which is past every limit.
pub(crate) fn number_of(word: &str) -> u32 {
    word.parse::<u32>().unwrap_or(u32::MAX)
}

/// The word of a place: an empty one behind the last.
pub(crate) fn word_at(row: &str, place: usize) -> &str {
    row.split(' ').nth(place).unwrap_or("")
}

impl<'a> Question<'a> {
    /// The number of the word of a place, as `number_of`.
    pub(crate) fn number(self, place: usize) -> u32 {
        number_of(word_at(self.row, place))
    }

    /// The load or the price of the word of a place: the greatest one where it is none.
    pub(crate) fn amount(self, place: usize) -> u64 {
        word_at(self.row, place).parse::<u64>().unwrap_or(u64::MAX)
    }

    /// The path of the word of a place.
    pub(crate) fn path(self, place: usize) -> Option<Path> {
        path_of(self.alloc, word_at(self.row, place))
    }

    /// The prices of the word of a place.
    pub(crate) fn prices(self, place: usize) -> Option<Prices> {
        Some(Prices::from_vec(prices_of(self.alloc, word_at(self.row, place))?))
    }
}
