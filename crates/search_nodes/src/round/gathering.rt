//! Paths of a round that become columns.

ghost use Rattle.std.specs.Prelude.{◌≡◌, ◌<◌, ◌≤◌, length, IfOk, IsErr};
ghost use Rattle.plan_base.specs.declared.limits.TheConstants.{MAX_DEMANDS};
ghost use Rattle.plan_base.specs.First.{first_in};
ghost use Rattle.search_machine.specs.Gathering.{with_path_of, gathered, ungathered_at};
ghost use Rattle.search_nodes.specs.Rounds.{is_ungathered, IsFrontAdded};

use super::PoolRound;
use column_pool::ColumnPool;
use plan_base::DemandId;
use search_machine::Found;
use std::alloc::AllocError;

/// Whether a path was found for the demand that is none of its columns.
fn is_ungathered(columns: &ColumnPool, demand: DemandId, entry: &Option<Found>) -> bool
    requires { demand.0 < length columns.now }
    ensures { result ≡ is_ungathered columns.now demand.0 entry.now }
{
    match entry {
        Some(found) => !columns.has(demand, &found.path),
        None => false,
    }
}

/// Adds the path that was found for the demand, if one was, to its columns.
fn add_found(
    columns: &mut ColumnPool,
    demand: DemandId,
    entry: &Option<Found>,
) -> Result<(), AllocError>
    requires { demand.0 < length columns.old }
    ensures added { IfOk result (λ _. columns.new ≡ with_path_of columns.old demand.0 entry.now) }
    ensures unchanged { IsErr result → columns.new ≡ columns.old }
{
    match entry {
        Some(found) => {
            columns.add(demand, &found.path)?;
            Ok(())
        }
        None => Ok(()),
    }
}

impl PoolRound {
    /// The first demand whose path is none of its columns.
    ///
    /// - Takes: columns with a list for each demand.
    #[tactic(auto, using(plan_base::proofs::FirstFault::first_faults, crate::proofs::GatheredPaths::ungathered_paths))]
    pub fn first_ungathered(&self, columns: &ColumnPool) -> Option<DemandId>
        requires lists { length self.now.found ≤ length columns.now }
        requires few { length self.now.found ≤ MAX_DEMANDS }
        ensures { result ≡ first_in (ungathered_at columns.now) self.now.found }
    {
        for (place, entry) in self.found.as_slice().iter().enumerate() {
            let demand = DemandId(place as u32);
            if is_ungathered(columns, demand, entry) {
                return Some(demand);
            }
        }
        None
    }

    /// Adds the paths that were found to the columns of their demands, in order of demands.
    ///
    /// - Takes: columns with a list for each demand.
    /// - Errors: want of memory alone; then the paths of some of the first demands are added.
    pub fn add_to(&self, columns: &mut ColumnPool) -> Result<(), AllocError>
        requires lists { length self.now.found ≤ length columns.old }
        requires few { length self.now.found ≤ MAX_DEMANDS }
        ensures added { IfOk result (λ _. columns.new ≡ gathered columns.old self.now.found (length self.now.found)) }
        ensures front { IsErr result → IsFrontAdded columns.old self.now.found columns.new }
    {
        for (place, entry) in self.found.as_slice().iter().enumerate() {
            add_found(columns, DemandId(place as u32), entry)?;
        }
        Ok(())
    }
}
