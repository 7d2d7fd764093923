//! Which search a hub is of.

use search_worker::Search;
use std::marker::Brand;
use std::sync::ledger::Ledger;

/// A search, and the ledger of the paths that its pool accepts.
///
/// What comes out of a lock is known by its type alone, so the types of a hub name the search that they are of. Each
/// search picks its own.
pub trait Naming: Ledger + Search {}

impl Naming for Brand {}
