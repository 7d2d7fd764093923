//! Designs for the paths of a round.

ghost use Rattle.std.specs.Prelude.{◌≤◌, IfOk, IfSome, IfNone, IsSomeAnd};
ghost use Rattle.plan_base.specs.Designs.{cost_of, IsGoodDesign};
ghost use Rattle.completions.specs.Completions.{ArePaths};
ghost use Rattle.incumbent.specs.Searches.{HasSearched, HasWaited};

use incumbent::DesignSearch;
use link_steps::StepTable;
use plan_base::{Design, Items, Path};
use std::alloc::{AllocError, Global};

/// A design that a search finds, which begins with these paths or with the cheapest design so far.
///
/// - Takes: how many nodes are examined.
/// - Gives: None where no search is due, and where there is no design to begin with.
/// - Errors: want of memory alone.
pub fn new_design(
    alloc: Global,
    table: &StepTable,
    paths: &Items<Path>,
    examined: u32,
    designs: &mut DesignSearch,
) -> Result<Option<Design>, AllocError>
    requires { ArePaths table.now paths.now }
    ensures good { IfOk result (λ found. IfSome found (λ design. IsGoodDesign table.now design)) }
    ensures made { IfOk result (λ found. IfSome found (λ design. HasSearched designs.old examined designs.new)) }
    ensures waited { IfOk result (λ found. IfNone found (HasWaited designs.old designs.new)) }
    ensures best { IfOk result (λ found. IfSome found (λ design. IsSomeAnd designs.new.best (λ best. cost_of table.now best ≤ cost_of table.now design))) }
{
    designs.next_design(alloc, table, paths, examined)
}
