//! Plans that are verified, each in the version of its row and in that of `upgrade`.

use crate::programs::{Program, ended_alone};
use crate::runs::{Row, ended_over};
use plan_io::{MemSink, NoGate, SureShelf};
use std::alloc::Global;
use std::sync::Wait;
use std::thread::Threads;

/// The texts that a plan is verified over.
#[derive(Clone, Copy)]
struct Case<'a> {
    network: &'a [u8],
    model: &'a [u8],
    plan: &'a [u8],
}

impl<'a> Case<'a> {
    /// The texts with their names.
    fn named(self) -> [(&'static str, &'a [u8]); 3] {
        [
            ("net", self.network),
            ("model", self.model),
            ("plan", self.plan),
        ]
    }

    /// Whether the verifier alone ends with this status and writes this line.
    fn ends_so(self, alloc: Global, status: u8, line: &[u8]) -> Option<bool> {
        let shelf = SureShelf::new(alloc, &self.named()).ok()?;
        let (ended, sink) = ended_alone(alloc, Program::Verifier, "net model plan", shelf)?;
        Some(ended == status && sink.bytes() == line)
    }
}

/// The text that `upgrade` writes of this plan, None where it ends otherwise.
fn upgraded<R: Threads + Wait + Sync>(rt: &R, alloc: Global, plan: &[u8]) -> Option<MemSink> {
    let (status, sink) = ended_over(rt, alloc, &[("plan", plan)], "upgrade plan", &NoGate)?;
    if status == 0 { Some(sink) } else { None }
}

/// Whether the verifier alone ends with this status and writes this line, also of the text that `upgrade` writes of a plan
/// that is accepted or rejected.
fn ends_so_twice<R: Threads + Wait + Sync>(
    rt: &R,
    alloc: Global,
    case: Case<'_>,
    status: u8,
    line: &[u8],
) -> Option<bool> {
    if !case.ends_so(alloc, status, line)? {
        return Some(false);
    }
    if status != 0 && status != 12 {
        return Some(true);
    }
    let second = upgraded(rt, alloc, case.plan)?;
    let plan = second.bytes();
    Case { plan, ..case }.ends_so(alloc, status, line)
}

/// Verifies a plan of a network and a model through the top call, and adds the name of the row, the status and the line.
/// None where the verifier alone ends otherwise, of this text or of the one that `upgrade` writes of a plan that is
/// accepted or rejected, or a text is not there.
pub(crate) fn plan_row<R: Threads + Wait + Sync>(
    row: Row<'_, R>,
    plan: &str,
    text: &mut String,
) -> Option<()> {
    let (name, names) = row.rest.split_once(' ')?;
    let (network, model) = row.texts.find_two(names)?;
    let plan = plan.as_bytes();
    let case = Case {
        network,
        model,
        plan,
    };
    let line = "verify net model plan";
    let (status, sink) = ended_over(row.rt, row.alloc, &case.named(), line, &NoGate)?;
    if !ends_so_twice(row.rt, row.alloc, case, status, sink.bytes())? {
        return None;
    }
    let line = str::from_utf8(sink.bytes()).ok()?;
    write!(text, "{name} {status} {line}").ok()
}

/// Verifies a plan of a network and a model that is like the text of a base: of each two lines the second one stands in the
/// place of the first. None where the row is not in form, and as of `plan_row`.
pub(crate) fn changed_row<R: Threads + Wait + Sync>(
    row: Row<'_, R>,
    changes: &str,
    text: &mut String,
) -> Option<()> {
    let (rest, base) = row.rest.rsplit_once(' ')?;
    let mut plan = String::from_str(row.alloc, row.texts.find(base)?).ok()?;
    let mut part = None;
    for line in changes.lines() {
        part = match part {
            None => Some(line),
            Some(part) => {
                plan = with_line(row.alloc, plan.as_str(), part, line)?;
                None
            }
        };
    }
    plan_row(
        Row::of(row.rt, row.alloc, row.texts, rest),
        plan.as_str(),
        text,
    )
}

/// The text with this line in the place of that one. None where it has no such line.
fn with_line(alloc: Global, text: &str, line: &str, other: &str) -> Option<String> {
    let mut changed = String::new(alloc);
    let mut is_found = false;
    for old in text.lines() {
        let new = if !is_found && old == line {
            is_found = true;
            other
        } else {
            old
        };
        write!(changed, "{new}\n").ok()?;
    }
    if is_found { Some(changed) } else { None }
}
