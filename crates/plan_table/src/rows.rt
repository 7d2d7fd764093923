//! The text of tables while it is written.

use std::alloc::Global;

/// The text so far, and a room for words that is written over.
#[derive(Drop)]
pub struct Rows {
    pub text: Vec<u8>,
    pub words: Vec<u8>,
}

impl Rows {
    ghost use Rattle.std.specs.Prelude.{◌≡◌, []};

    /// No text yet.
    pub fn new(alloc: Global) -> Rows
        ensures { result.text.items ≡ [] }
    {
        Rows {
            text: Vec::new(alloc),
            words: Vec::new(alloc),
        }
    }
}
