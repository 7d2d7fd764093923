//! The rule that counts all grains up to the rest.

use crate::counting::{Counting, put_both};
use crate::counting_rules::{CountingRule, Crossed};
use std::alloc::{AllocError, Global};

/// Counts all grains up to the rest, and in no periods.
#[derive(Clone, Copy, Debug)]
pub struct WholeRest;

impl CountingRule for WholeRest {
    fn countings(&self, alloc: Global, crossed: Crossed<'_>) -> Result<Vec<Counting>, AllocError> {
        put_both(alloc, &[], crossed)
    }
}
