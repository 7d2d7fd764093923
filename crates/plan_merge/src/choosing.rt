//! Which open leaves are a part's, and which of these a search begins at.

ghost use Rattle.std.specs.Prelude.{◌≡◌, ◌<◌, ◌≤◌, length, count_by, All, IfOk};
ghost use Rattle.plan_merge.specs.Choosing.{key_of, IsOrder, IsPart, AreChosen, AreChosenBy, rank_of};

use crate::bounded_record::{BoundedRecord, is_open};
use std::alloc::{AllocError, Global};

/// The most parts that open leaves are shared out to.
pub const MAX_PARTS: u32 = 4096;

/// One of several parts of the open leaves.
#[derive(Clone, Copy, Debug)]
pub struct Part {
    /// Its number, from 1.
    pub number: u32,
    /// How many parts there are.
    pub parts: u32,
}

/// What an open leaf is ordered by: whether it has no bound, its bound in cost grains or 0, and its place.
fn key_of(record: &BoundedRecord, place: usize) -> (bool, i128, usize)
    ensures { result ≡ key_of record.now place }
{
    match record.bound {
        Some(bound) => (false, bound, place),
        None => (true, 0, place),
    }
}

/// The open leaves in order: by their bounds, those without a bound last, then by their places.
fn ordered(alloc: Global, records: &[BoundedRecord]) -> Result<Vec<(bool, i128, usize)>, AllocError>
    ensures order { IfOk result (λ keys. IsOrder records.now keys.items) }
    ensures within { IfOk result (λ keys. All (λ key. key.2 < length records.now) keys.items) }
{
    let mut keys = Vec::new(alloc);
    for (place, record) in records.iter().enumerate() {
        if is_open(&record.node) {
            keys.push(key_of(record, place))?;
        }
    }
    keys.sort_unstable();
    Ok(keys)
}

/// The rank of one of the part's leaves.
fn rank_of(part: Part, turn: u32) -> usize
    requires { IsPart part }
    ensures { result ≡ rank_of part turn }
{
    (part.number - 1) as usize + turn as usize * part.parts as usize
}

/// For each of so many records whether it is one of the part's first leaves in this order.
fn chosen_by(
    alloc: Global,
    keys: &[(bool, i128, usize)],
    part: Part,
    budget: u32,
    count: usize,
) -> Result<Vec<bool>, AllocError>
    requires part { IsPart part }
    requires within { All (λ key. key.2 < count) keys.now }
    ensures chosen { IfOk result (λ chosen. AreChosenBy keys.now part budget count chosen.items) }
    ensures few { IfOk result (λ chosen. count_by (λ one. one) chosen.items ≤ budget) }
{
    let mut chosen = vec![in alloc; false; count]?;
    for turn in 0..budget {
        let rank = rank_of(part, turn);
        if rank < keys.len() {
            chosen[keys[rank].2] = true;
        }
    }
    Ok(chosen)
}

/// For each record whether it is one of the part's first open leaves. The open leaves are ordered by their bounds, those
/// without one last, then by their places; dealt out in turn to the parts; and of the part's the first so many are chosen.
///
/// - Takes: records in preorder; a part; the further nodes that a search may examine.
/// - Errors: want of memory alone.
/// - Rule: docs/DEFINITIONS.md, "Going on".
/// - Time: that of sorting the open leaves.
pub fn parts(
    alloc: Global,
    records: &[BoundedRecord],
    part: Part,
    budget: u32,
) -> Result<Vec<bool>, AllocError>
    requires { IsPart part }
    ensures chosen { IfOk result (λ chosen. AreChosen records.now part budget chosen.items) }
    ensures few { IfOk result (λ chosen. count_by (λ one. one) chosen.items ≤ budget) }
{
    let keys = ordered(alloc, records)?;
    chosen_by(alloc, &keys, part, budget, records.len())
}
