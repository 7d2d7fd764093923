//! Texts in memory, by name.

ghost use Rattle.std.specs.Prelude.{◌≡◌, ◌+◌, ◌^◌, ◌<◌, drop, map, length, position, IfOk};
ghost use Rattle.plan_io.specs.Texts.{has_name, place_of, text_at};
ghost use Rattle.plan_io.specs.Stored.{stored};

use std::alloc::{AllocError, Global};
use std::marker::Model;

/// A text and its name.
#[derive(Drop)]
pub struct NamedText {
    name: String,
    bytes: Vec<u8>,
}

/// Texts with their names. Clauses see the list of the pairs of a name and its text.
#[derive(Drop)]
pub struct TextList {
    texts: Vec<NamedText>,
}

impl Model for TextList {
    ghost use Rattle.std.specs.Prelude.{ℕ, List, map};
    ghost use Rattle.plan_io.specs.Stored.{stored};

    ghost Value = { List (List ℕ × List ℕ) };

    ghost view = { λ list. map stored list.texts.items };
}

impl TextList {
    /// Copies of these texts, each given with its name.
    pub fn new(alloc: Global, texts: &[(&str, &[u8])]) -> Result<TextList, AllocError>
        ensures { IfOk result (λ list. list ≡ map (λ text. (text.0.now, text.1.now)) texts.now) }
    {
        let mut list = Vec::new(alloc);
        for (name, bytes) in texts {
            let name = String::from_str(alloc, *name)?;
            let bytes = Vec::from_slice(alloc, *bytes)?;
            list.push(NamedText { name, bytes })?;
        }
        Ok(TextList { texts: list })
    }

    /// How many texts there are.
    pub fn len(&self) -> usize
        ensures { result ≡ length self.now }
    {
        self.texts.len()
    }

    /// The place of the first text of this name, or the count of texts.
    pub fn place_of(&self, name: &str) -> usize
        ensures { result ≡ place_of self.now name.now }
    {
        let texts = self.texts.as_slice();
        position_in(texts, name).unwrap_or(texts.len())
    }

    /// What stands in the text at this place after so many bytes.
    pub fn rest(&self, place: usize, read: usize) -> &[u8]
        ensures rest { result.now ≡ drop read (text_at self.now place) }
        ensures fits { read + length result.now < 2 ^ 64 }
    {
        match self.texts.get(place) {
            Some(text) if read <= text.bytes.len() => &text.bytes[read..],
            _ => &[],
        }
    }
}

/// The place of the first of these texts that has this name.
fn position_in(texts: &[NamedText], name: &str) -> Option<usize>
    ensures { result ≡ position (λ text. has_name name.now (stored text)) texts.now }
{
    texts.iter().position(|text| text.name.as_str() == name)
}
