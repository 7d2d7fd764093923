//! Items that a reader gathers.

ghost use Rattle.std.specs.Prelude.{◌≡◌, ◌++◌, ◌∷◌, [], IfOk};

use std::alloc::{AllocFailed, Global};
use std::marker::Model;

/// Items in the order of the text.
#[derive(Drop)]
pub struct Rows<T> {
    rows: Vec<T>,
}

impl<T> Model for Rows<T> {
    ghost use Rattle.std.specs.Prelude.{List};

    ghost Value = { List T };

    ghost view = { λ a. a.rows.items };
}

impl<T> Rows<T> {
    /// No items.
    pub fn new(alloc: Global) -> Self
        ensures { result ≡ [] }
    {
        Rows {
            rows: Vec::new(alloc),
        }
    }

    /// One item more.
    pub fn push(&mut self, item: T) -> Result<(), AllocFailed<T>>
        ensures { IfOk result (λ _. self.new ≡ self.old ++ item ∷ []) }
    {
        self.rows.push(item)
    }

    /// The items.
    pub fn into_vec(self) -> Vec<T>
        ensures { result.items ≡ self }
    {
        self.rows
    }
}
