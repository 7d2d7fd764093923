//! The step table of a network.

ghost use Rattle.std.specs.Prelude.{◌≡◌, IfSome};

use link_steps::StepTable;
use plan_base::Instance;
use std::alloc::Global;

/// The step table of an instance.
///
/// - Gives: None where a link takes too many steps, and where memory is wanting.
pub fn table_of(alloc: Global, inst: &Instance) -> Option<StepTable>
    ensures { IfSome result (λ table. table ≡ inst.now) }
{
    StepTable::make(alloc, inst).ok()
}
