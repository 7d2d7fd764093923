//! A shelf that never fails.

ghost use Rattle.std.specs.Prelude.{◌≡◌, map, Some, IfOk};
ghost use Rattle.plan_io.specs.SureShelf.{texts_of, text_of, text_left, begin_count, taken_count, IsUnused};

use crate::failed::Failed;
use crate::held_texts::HeldTexts;
use crate::shelf::Shelf;
use std::alloc::{AllocError, Global};

/// Texts in memory, of which no call fails: a name that is not there is an empty text.
#[derive(Drop)]
pub struct SureShelf {
    held: HeldTexts,
}

impl SureShelf {
    /// Copies of these texts, each given with its name, none of them begun. Of two texts of one name
    /// the first counts.
    ///
    /// - Errors: want of memory.
    pub fn new(alloc: Global, texts: &[(&str, &[u8])]) -> Result<SureShelf, AllocError>
        ensures texts { IfOk result
            (λ shelf. texts_of shelf ≡ map (λ text. (text.0.now, text.1.now)) texts.now) }
        ensures unused { IfOk result IsUnused }
    {
        Ok(SureShelf {
            held: HeldTexts::new(alloc, texts)?,
        })
    }
}

impl Shelf for SureShelf {
    ghost text = { λ shelf name. Some (text_of shelf name) };

    ghost left = { λ shelf. Some (text_left shelf) };

    ghost faults = { λ _. 0 };

    ghost begins = { begin_count };

    ghost taken = { taken_count };

    fn begin(&mut self, name: &str) -> Result<(), Failed> {
        let _is_there = self.held.begin(name);
        Ok(())
    }

    fn read(&mut self, buf: &mut [u8]) -> Result<usize, Failed> {
        Ok(self.held.read(buf))
    }
}
