//! Searches to their end, and the plans of them.

use super::telling::tell_progress;
use cert_format::write_plan;
use pool_core::Pool;
use proof_tree::Plan;
use std::alloc::Global;

/// Searches until nothing is left to do or the budget is spent, and adds how far the search is then.
pub(crate) fn tell_finished(pool: &mut Pool, text: &mut String) -> Option<()> {
    pool.finish().ok()?;
    tell_progress(pool, text)
}

/// Adds the lines of the text of a plan, each behind two blanks.
fn tell_lines(plan: &[u8], text: &mut String) -> Option<()> {
    for line in str::from_utf8(plan).ok()?.lines() {
        write!(text, "\n  {line}").ok()?;
    }
    Some(())
}

/// Adds a plan in the lines of a plan text.
fn tell_text(alloc: Global, plan: &Plan, text: &mut String) -> Option<()> {
    if !plan.fits() {
        return None;
    }
    let written = write_plan(alloc, plan).ok()?;
    tell_lines(written.as_slice(), text)
}

/// Adds the plan of a search that is done, in the lines of a plan text.
pub(crate) fn tell_plan(alloc: Global, pool: Pool, text: &mut String) -> Option<()> {
    if !pool.is_done() {
        return None;
    }
    let plan = pool.into_plan().ok()?;
    tell_text(alloc, &plan, text)
}
