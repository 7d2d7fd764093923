//! The master step, compared with a plain slow twin on made briefs.
//!
//! The instances are small and come from a small generator, the same ones in each run: three nodes with eight links
//! between them, loads and capacities of a few grains, and up to six columns a demand. The links of most share the capacity
//! of both directions, those of some have it for each; of some briefs the places may carry only some of their loads. The
//! twin tries all loads in the ranges for each link's value, there and back, and works with signed numbers. `advance`,
//! `value` and `gain` must answer what it answers, and `best_step` must not be worse. Written is how many briefs were raised
//! and how many stalled, and that the two links of docs/METHOD.md come out as they are worked out there (`worked`). Begin at
//! `raises`.

ghost use Rattle.std.specs.Prelude.{◌≡◌, IfSome};

mod columns;
mod made;
mod twin;
mod worked;

use column_pool::Brief;
use columns::are_values;
use cut_values::CutTable;
use gate_draws::Draws;
use gate_networks::table_of;
use made::{made_brief, made_instance};
use master_step::{NodeMaster, Step, advance, best_step};
use plan_base::{Instance, Items, Orient};
use std::alloc::Global;
use twin::{Found, slow_step};
use worked::are_as_worked_out;

/// Which briefs are compared.
#[derive(Clone, Copy)]
struct Kind {
    briefs: u32,
    orient: Orient,
    /// Whether some places may carry only some of their loads.
    is_ranged: bool,
}

/// Briefs of links with one place, and with a place for each direction, over whole ranges and over smaller ones.
const KINDS: [Kind; 4] = [
    Kind {
        briefs: 400,
        orient: Orient::Undirected,
        is_ranged: false,
    },
    Kind {
        briefs: 60,
        orient: Orient::Bidirected,
        is_ranged: false,
    },
    Kind {
        briefs: 200,
        orient: Orient::Undirected,
        is_ranged: true,
    },
    Kind {
        briefs: 60,
        orient: Orient::Bidirected,
        is_ranged: true,
    },
];

/// The table of an instance, without cuts.
///
/// - Gives: None where a link takes too many steps, and where memory is wanting.
#[tactic(auto, using(proof_tree::proofs::CutlessPlans::no_cuts))]
fn cutless_table(alloc: Global, inst: &Instance) -> Option<CutTable>
    ensures { IfSome result (λ table. table.problem ≡ inst.now) }
{
    let steps = table_of(alloc, inst)?;
    CutTable::new(alloc, steps, Items::new(alloc)).ok()
}

/// Whether a step is what the twin found.
fn is_step(step: &Step, found: &Found) -> bool {
    match step {
        Step::Raised { prices, old, new } => {
            found.new == Some(*new) && found.old == *old && found.has_prices(prices.as_slice())
        }
        Step::Same { value } => found.new.is_none() && found.old == *value,
        Step::Bare { .. } => false,
    }
}

/// Whether the better of step and ascent is no worse than what the twin found.
fn is_no_worse(step: &Step, found: &Found) -> bool {
    match step {
        Step::Raised { old, new, .. } => {
            found.old == *old && found.new.unwrap_or(found.old) <= *new
        }
        Step::Same { .. } => found.new.is_none(),
        Step::Bare { .. } => false,
    }
}

/// Whether the step of a brief is what the twin found, and the better of it and an ascent no worse.
fn steps_agree(alloc: Global, table: &CutTable, brief: &Brief, found: &Found) -> bool {
    let inst = table.instance();
    if !brief.fits(inst, table) {
        return false;
    }
    let node = NodeMaster { table, brief };
    let step_agrees = match advance(alloc, &node) {
        Ok(step) => is_step(&step, found),
        Err(_) => false,
    };
    step_agrees
        && match best_step(alloc, &node) {
            Ok(best) => is_no_worse(&best, found),
            Err(_) => false,
        }
}

/// Whether all answers for a brief are as the twin found.
fn all_agree(alloc: Global, inst: &Instance, brief: &Brief, found: &Found) -> bool {
    match cutless_table(alloc, inst) {
        Some(table) => {
            steps_agree(alloc, &table, brief, found) && are_values(alloc, &table, brief, found)
        }
        None => false,
    }
}

/// Whether the prices of a brief are raised. None where an answer is not what the twin found.
fn brief_raises(alloc: Global, inst: &Instance, brief: &Brief) -> Option<bool> {
    let found = slow_step(alloc, inst, brief)?;
    if !all_agree(alloc, inst, brief, &found) {
        return None;
    }
    Some(found.new.is_some())
}

/// Whether the prices of the brief of this number are raised. None where an answer is not what the twin found.
fn raises(alloc: Global, number: u32, kind: Kind) -> Option<bool> {
    let mut draws = Draws::begin(number);
    let inst = made_instance(alloc, &mut draws, kind.orient)?;
    let brief = made_brief(alloc, &inst, &mut draws, kind.is_ranged)?;
    brief_raises(alloc, &inst, &brief)
}

/// What the briefs of a kind are called.
fn name_of(kind: Kind) -> &'static str {
    if kind.is_ranged {
        "briefs under ranges"
    } else {
        "briefs"
    }
}

/// Adds how many briefs are raised, or the first one of which an answer is not what the twin found.
fn tell_briefs(alloc: Global, kind: Kind, text: &mut String) -> Option<()> {
    let Kind { briefs, .. } = kind;
    let mut raised: u32 = 0;
    for number in 0..briefs {
        match raises(alloc, number, kind) {
            Some(true) => raised = raised.saturating_add(1),
            Some(false) => {}
            None => return write!(text, "brief {number} differs\n").ok(),
        }
    }
    let stalled = briefs.saturating_sub(raised);
    let name = name_of(kind);
    write!(
        text,
        "{briefs} {name}, {raised} raised, {stalled} stalled\n"
    )
    .ok()
}

/// Adds a line where the two links come out as worked out. None where they do not.
fn tell_two_links(alloc: Global, text: &mut String) -> Option<()> {
    if are_as_worked_out(alloc)? {
        return text.push_str("two links as worked out\n").ok();
    }
    None
}

/// Adds what becomes of all briefs, and of the two links.
pub(crate) fn tell_masters(alloc: Global, text: &mut String) -> Option<()> {
    for kind in KINDS {
        tell_briefs(alloc, kind, text)?;
    }
    tell_two_links(alloc, text)
}
