//! The cuts that a place crosses.

ghost use Rattle.std.specs.Prelude.{◌≡◌, ◌<◌, ◌≤◌, length, IfOk};
ghost use Rattle.plan_base.specs.Places.{places};
ghost use Rattle.proof_tree.specs.declared.limits.TheConstants.{MAX_CUTS};
ghost use Rattle.proof_tree.specs.Cuts.{AreRests};
ghost use Rattle.cut_values.specs.Crossings.{crossings_on, AreCrossingRows};

use link_steps::Batch;
use plan_base::{Instance, Items};
use proof_tree::Cut;
use std::alloc::{AllocError, Global};

/// A cut as a place that crosses it sees it.
#[derive(Clone, Copy, Debug, PartialEq, Eq)]
pub struct Crossing {
    /// The number of the cut in its list.
    pub number: u32,
    /// Which grains of the place's load it counts.
    pub batch: Batch,
}

/// The cuts that a place crosses, in the order of the list.
fn crossings_on(
    alloc: Global,
    inst: &Instance,
    cuts: &[Cut],
    rests: &[u64],
    place: u32,
) -> Result<Vec<Crossing>, AllocError>
    requires place { place < places inst.now }
    requires few { length cuts.now ≤ MAX_CUTS }
    requires rests { AreRests inst.now cuts.now rests.now }
    ensures { IfOk result (λ row. row.items ≡ crossings_on inst.now cuts.now place) }
{
    let mut row = Vec::new(alloc);
    for number in 0..cuts.len() {
        let cut = &cuts[number];
        if cut.crosses(inst, place) {
            let batch = cut.batch(inst, place, rests[number]);
            row.push(Crossing {
                number: number as u32,
                batch,
            })?;
        }
    }
    Ok(row)
}

/// For each place the cuts that it crosses.
///
/// - Errors: want of memory alone.
/// - Time: the places times the cuts.
pub fn crossing_rows(
    alloc: Global,
    inst: &Instance,
    cuts: &[Cut],
    rests: &[u64],
) -> Result<Vec<Items<Crossing>>, AllocError>
    requires few { length cuts.now ≤ MAX_CUTS }
    requires rests { AreRests inst.now cuts.now rests.now }
    ensures count { IfOk result (λ rows. length rows.items ≡ places inst.now) }
    ensures rows { IfOk result (λ rows. AreCrossingRows inst.now cuts.now rows.items (places inst.now)) }
{
    let mut rows = Vec::new(alloc);
    for place in 0..inst.places() {
        let row = crossings_on(alloc, inst, cuts, rests, place)?;
        rows.push(Items::from_vec(row))?;
    }
    Ok(rows)
}
