//! Copies of what a round has found.

ghost use Rattle.std.specs.Prelude.{◌≡◌, [], ◌∷◌, ◌++◌, IfOk};
ghost use Rattle.search_nodes.specs.Rounds.{paths_of};

use super::PoolRound;
use plan_base::{Items, Path};
use search_machine::Found;
use std::alloc::{AllocError, Global};

/// Puts a copy of the path that was found, if one was, behind the paths.
fn push_path(paths: &mut Vec<Path>, entry: &Option<Found>) -> Result<(), AllocError>
    ensures { IfOk result (λ _. paths.new.items ≡ paths.old.items ++ paths_of (entry.now ∷ [])) }
{
    match entry {
        Some(found) => {
            paths.push(found.path.copy()?)?;
            Ok(())
        }
        None => Ok(()),
    }
}

impl PoolRound {
    /// Copies of the paths that were found, in order of demands.
    ///
    /// - Errors: want of memory alone.
    pub fn paths(&self, alloc: Global) -> Result<Items<Path>, AllocError>
        ensures { IfOk result (λ paths. paths ≡ paths_of self.now.found) }
    {
        let mut paths = Vec::new(alloc);
        for entry in self.found.as_slice() {
            push_path(&mut paths, entry)?;
        }
        Ok(Items::from_vec(paths))
    }
}
