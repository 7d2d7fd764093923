//! The rule that halves the widest range, whatever an ascent has seen.

ghost use Rattle.std.specs.Prelude.{◌<◌, ◌≤◌};
ghost use Rattle.plan_base.specs.Places.{places};

use crate::split_rules::{Proposal, SplitNode, SplitRule};
use link_steps::LoadRange;

/// Divides at the end of the step below the middle of the range. Its worth is the width of the range, in load grains.
#[derive(Clone, Copy, Debug)]
pub struct Middle;

/// The load in the middle of a range, in load grains.
fn middle_of(range: LoadRange) -> u64
    ensures { result ≤ range.most }
{
    let half = range.most / 2 + range.least / 2;
    half.min(range.most)
}

impl SplitRule for Middle {
    /// None where the range lies above the end of the step below its middle.
    #[tactic(auto, using(crate::proofs::RangeLaws::within_total))]
    fn proposal(&self, node: SplitNode<'_>, place: u32) -> Option<Proposal> {
        let SplitNode {
            table,
            ranges,
            averages: _averages,
        } = node;
        let link = table.instance().link_of_place(place);
        let range = ranges.at(place);
        let load = table.step_below(link, middle_of(range))?;
        if load < range.least {
            return None;
        }
        Some(Proposal {
            load,
            worth: u128::from(range.most.saturating_sub(range.least)),
        })
    }
}
