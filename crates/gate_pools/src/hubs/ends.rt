//! The end of a dialogue with a hub.

ghost use Rattle.std.specs.Prelude.{◌≡◌, true, IfSome};
ghost use Rattle.search_machine.specs.PlanOf.{is_done};

use pool_core::Pool;
use proof_tree::Plan;

/// Adds whether the search of an ended hub is done, and searches to its end.
fn tell_search(pool: &mut Pool, text: &mut String) -> Option<()>
    ensures { IfSome result (λ _. is_done pool.new ≡ true) }
{
    write!(text, "end: done {}", pool.is_done()).ok()?;
    pool.finish().ok()?;
    Some(())
}

/// Adds what a plan claims.
fn tell_claim(plan: &Plan, text: &mut String) -> Option<()> {
    let cost = plan.design.as_ref().map(|found| found.0);
    write!(text, " plan {:?} cost {cost:?}\n", plan.status).ok()
}

/// Adds whether the search of an ended hub is done, and what its plan claims.
pub(crate) fn tell_plan(pool: Pool, text: &mut String) -> Option<()> {
    let mut pool = pool;
    tell_search(&mut pool, text)?;
    let plan = pool.into_plan().ok()?;
    tell_claim(&plan, text)
}
