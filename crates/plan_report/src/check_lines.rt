//! The line of a network that was checked.

ghost use Rattle.std.specs.Prelude.{◌≡◌, ◌++◌, length, IfOk, OnOk};
ghost use Rattle.plan_report.specs.Lines.{IsCheckLine, HaveSteps, sizes_text};
ghost use Rattle.plan_base.specs.Facts.{total_load};

use crate::numbers::push_number;
use link_steps::StepTable;
use plan_base::{Instance, LinkId};
use scaled_numbers::write_grains;
use std::alloc::{AllocError, Global};

/// Decimals behind the point of a load in load grains.
pub const LOAD_SCALE: u32 = 6;

/// The steps of all links, together.
#[tactic(auto, using(crate::proofs::Steps::more_steps, crate::proofs::Steps::no_steps))]
fn steps_in_all(table: &StepTable, links: u32) -> u64
    requires { links ≡ length table.now.links }
    ensures steps { HaveSteps table.now links result }
{
    let mut all = 0u64;
    for place in 0..links {
        all += u64::from(table.steps(LinkId(place)));
    }
    all
}

/// Writes the counts of nodes, links and demands, and the total load.
pub fn push_sizes(text: &mut Vec<u8>, inst: &Instance) -> Result<(), AllocError>
    ensures { OnOk result (text.new.items ≡ text.old.items ++ sizes_text inst.now) }
{
    text.extend_from_slice(b" nodes")?;
    push_number(text, u64::from(inst.nodes()))?;
    text.extend_from_slice(b" links")?;
    push_number(text, u64::from(inst.links()))?;
    text.extend_from_slice(b" demands")?;
    push_number(text, u64::from(inst.demands()))?;
    text.extend_from_slice(b" load ")?;
    write_grains(u128::from(inst.total_load()), LOAD_SCALE, text)
}

/// The line of an instance: how many nodes, links and demands it has, its total load, and the steps of
/// all its links together.
///
/// - Takes: the instance, and its step table.
/// - Errors: want of memory alone.
/// - Rule: docs/FORMATS.md, "The line of `check`".
pub fn check_line(alloc: Global, inst: &Instance, table: &StepTable) -> Result<Vec<u8>, AllocError>
    requires { table.now ≡ inst.now }
    ensures { IfOk result (λ text. IsCheckLine inst.now text.items) }
{
    let steps = steps_in_all(table, inst.links());
    let mut text = Vec::from_slice(alloc, b"GOOD")?;
    push_sizes(&mut text, inst)?;
    text.extend_from_slice(b" steps")?;
    push_number(&mut text, steps)?;
    text.push(b'\n')?;
    Ok(text)
}
