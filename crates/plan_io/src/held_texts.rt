//! Texts in memory that are read one at a time.

ghost use Rattle.std.specs.Prelude.{◌≡◌, ◌+◌, ◌-◌, ◌^◌, ◌<◌, [], min, map, length, take, is_some, unwrap_or, Some, IfOk};
ghost use Rattle.std.specs.Io.KnownBytes.{Consumes};
ghost use Rattle.plan_io.specs.Causes.{CountsUp};
ghost use Rattle.plan_io.specs.Texts.{find_text};
ghost use Rattle.plan_io.specs.Held.{left_in};

use crate::counts::{counted_up, taken_more};
use crate::text_list::TextList;
use std::alloc::{AllocError, Global};
use std::io::Read;

/// Texts, and how far one of them is read.
#[derive(Drop)]
pub struct HeldTexts {
    texts: TextList,
    /// The place of the text begun, or the count of texts where none is.
    place: usize,
    /// How many bytes of it were read.
    read: usize,
    begins: u64,
    taken: u64,
}

impl HeldTexts {
    /// Copies of these texts, of which none is begun.
    pub fn new(alloc: Global, texts: &[(&str, &[u8])]) -> Result<HeldTexts, AllocError>
        ensures texts { IfOk result (λ held. held.texts ≡ map (λ text. (text.0.now, text.1.now)) texts.now) }
        ensures left { IfOk result (λ held. left_in held ≡ []) }
        ensures begins { IfOk result (λ held. held.begins ≡ 0) }
        ensures taken { IfOk result (λ held. held.taken ≡ 0) }
    {
        let texts = TextList::new(alloc, texts)?;
        let place = texts.len();
        Ok(HeldTexts {
            texts,
            place,
            read: 0,
            begins: 0,
            taken: 0,
        })
    }

    /// Begins the first text of this name, or the empty text where there is none.
    pub fn begin(&mut self, name: &str) -> bool
        ensures there { result ≡ is_some (find_text self.old.texts name.now) }
        ensures left { left_in self.new ≡ unwrap_or (find_text self.old.texts name.now) [] }
        ensures texts { self.new.texts ≡ self.old.texts }
        ensures begins { CountsUp self.old.begins self.new.begins }
        ensures taken { self.new.taken ≡ 0 }
    {
        self.place = self.texts.place_of(name);
        self.read = 0;
        self.begins = counted_up(self.begins);
        self.taken = 0;
        self.place < self.texts.len()
    }

    /// Reads on in the text begun, as much as the buffer holds.
    pub fn read(&mut self, buf: &mut [u8]) -> usize
        ensures count { result ≡ min (length (left_in self.old)) (length buf.new) }
        ensures bytes { Consumes (Some (left_in self.old)) (Some (left_in self.new)) (take result buf.new) }
        ensures texts { self.new.texts ≡ self.old.texts }
        ensures begins { self.new.begins ≡ self.old.begins }
        ensures taken { self.new.taken ≡ min (self.old.taken + result) (2 ^ 63) }
    {
        let mut rest = self.texts.rest(self.place, self.read);
        let count = rest.read(buf).unwrap_or(0);
        self.read += count;
        self.taken = taken_more(self.taken, count);
        count
    }
}
