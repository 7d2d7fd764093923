//! Designs.

use gate_networks::{list_of, path_of};
use plan_base::{Design, Items, Path};
use std::alloc::Global;

/// The paths of a word, one for each demand.
fn paths_of(alloc: Global, word: &str) -> Option<Items<Path>> {
    let mut paths = Vec::new(alloc);
    for part in word.split(';') {
        paths.push(path_of(alloc, part)?).ok()?;
    }
    Some(Items::from_vec(paths))
}

/// The counts of a word, a list for each link.
fn counts_of(alloc: Global, word: &str) -> Option<Items<Items<u64>>> {
    let mut lists = Vec::new(alloc);
    for part in word.split(';') {
        lists.push(Items::from_vec(list_of(alloc, part)?)).ok()?;
    }
    Some(Items::from_vec(lists))
}

/// The design of two words: a path for each demand, and for each link its counts of modules, both parted by `;`.
///
/// - Gives: None where the words are not these, and where memory is wanting.
pub(crate) fn design_of(alloc: Global, words: &str) -> Option<Design> {
    let (paths, counts) = words.split_once(' ')?;
    Some(Design {
        paths: paths_of(alloc, paths)?,
        counts: counts_of(alloc, counts)?,
    })
}
