//! The words of the line.

ghost use Rattle.std.specs.Prelude.{◌≡◌, ◌++◌, decimal, OnOk, IfOk};
ghost use Rattle.scaled_numbers.specs.Canonical.{grains_text};
ghost use Rattle.run_progress.specs.Lines.{best_cost_text, search_bound_text, time_text, search_text, standing_text, progress_text};

use itoa::Buffer;
use plan_io::Standing;
use scaled_numbers::write_grains;
use std::alloc::{AllocError, Global};

/// How many places of a cost, in cost grains, are behind the point.
pub const COST_SCALE: u32 = 12;

/// Writes a number.
fn push_number(text: &mut Vec<u8>, number: u64) -> Result<(), AllocError>
    ensures { OnOk result (text.new.items ≡ text.old.items ++ decimal number) }
{
    text.extend_from_slice(Buffer::new().format(number).as_bytes())
}

/// Writes words and a cost, in the unit of a network file.
fn push_amount(text: &mut Vec<u8>, words: &[u8], amount: u128) -> Result<(), AllocError>
    ensures { OnOk result (text.new.items ≡ text.old.items ++ words.now ++ grains_text amount COST_SCALE) }
{
    text.extend_from_slice(words)?;
    write_grains(amount, COST_SCALE, text)
}

/// Writes the cost of the best design, in the unit of a network file, or that there is no design.
fn push_cost(text: &mut Vec<u8>, cost: Option<u128>) -> Result<(), AllocError>
    ensures { OnOk result (text.new.items ≡ text.old.items ++ best_cost_text cost) }
{
    match cost {
        Some(cost) => push_amount(text, b"cost ", cost),
        None => text.extend_from_slice(b"no design yet"),
    }
}

/// Writes the bound of a search, in the unit of a network file, where one is told.
fn push_bound(text: &mut Vec<u8>, bound: Option<u128>) -> Result<(), AllocError>
    ensures { OnOk result (text.new.items ≡ text.old.items ++ search_bound_text bound) }
{
    match bound {
        Some(bound) => push_amount(text, b", bound ", bound),
        None => Ok(()),
    }
}

/// Writes so many seconds as minutes and two digits of seconds.
fn push_time(text: &mut Vec<u8>, seconds: u64) -> Result<(), AllocError>
    ensures { OnOk result (text.new.items ≡ text.old.items ++ time_text seconds) }
{
    push_number(text, seconds / 60)?;
    text.push(b':')?;
    push_number(text, seconds % 60 / 10)?;
    push_number(text, seconds % 60 % 10)
}

/// Writes how far a search is: the cost of the best design and the bound, which a narrow terminal shows too; the nodes that
/// are examined and may be, and how many workers there are.
fn push_search(text: &mut Vec<u8>, standing: Standing, workers: u32) -> Result<(), AllocError>
    ensures { OnOk result (text.new.items ≡ text.old.items ++ search_text standing workers) }
{
    push_cost(text, standing.cost)?;
    push_bound(text, standing.bound)?;
    text.extend_from_slice(b", nodes ")?;
    push_number(text, u64::from(standing.examined))?;
    text.extend_from_slice(b" of ")?;
    push_number(text, u64::from(standing.budget))?;
    text.extend_from_slice(b", workers ")?;
    push_number(text, u64::from(workers))
}

/// Writes how far a run is.
fn push_standing(
    text: &mut Vec<u8>,
    standing: Option<Standing>,
    workers: u32,
) -> Result<(), AllocError>
    ensures { OnOk result (text.new.items ≡ text.old.items ++ standing_text standing workers) }
{
    match standing {
        Some(standing) => push_search(text, standing, workers),
        None => text.extend_from_slice(b"working"),
    }
}

/// How long a run has taken, and how far it is.
///
/// - Takes: how far its search is, None where nothing was told of one; how many workers there are; the seconds since the
///   run began.
/// - Errors: want of memory alone.
pub fn line_of(
    alloc: Global,
    standing: Option<Standing>,
    workers: u32,
    seconds: u64,
) -> Result<Vec<u8>, AllocError>
    ensures { IfOk result (λ text. text.items ≡ progress_text standing workers seconds) }
{
    let mut text = Vec::new(alloc);
    push_time(&mut text, seconds)?;
    text.extend_from_slice(b", ")?;
    push_standing(&mut text, standing, workers)?;
    Ok(text)
}
