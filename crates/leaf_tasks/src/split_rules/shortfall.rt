//! The rule by how much a step costs above what it costs on average.

ghost use Rattle.std.specs.Prelude.{◌<◌, ◌≤◌};
ghost use Rattle.plan_base.specs.Places.{places};

use crate::split_rules::{Proposal, SplitNode, SplitRule};
use link_steps::LoadRange;

/// Divides at the end of the step below the averaged load. Its worth is by how much the step that this load needs costs above
/// the averaged cost, in cost grains, times a weight.
#[derive(Clone, Copy, Debug)]
pub struct Shortfall;

/// The weight of a split: five times the averaged load that lies in the step that it cuts off, in 64ths of the width of this
/// step, at least 1 and at most 64. Where little does, the left child has little to move, and its bound hardly rises.
fn weight(above: u64, width: u64) -> u128 {
    let parts = 320 * u128::from(above) / u128::from(width.max(1));
    parts.min(64).max(1)
}

/// The load of a range that is nearest to this one, in load grains.
fn nearest(range: LoadRange, load: u64) -> u64
    ensures { result ≤ range.most }
{
    load.max(range.least).min(range.most)
}

impl SplitRule for Shortfall {
    /// None where the step that the averaged load needs does not cost more than the averaged cost, or the range lies above
    /// the end of the step below.
    #[tactic(auto, using(crate::proofs::RangeLaws::within_total))]
    fn proposal(&self, node: SplitNode<'_>, place: u32) -> Option<Proposal> {
        let SplitNode {
            table,
            ranges,
            averages,
        } = node;
        let link = table.instance().link_of_place(place);
        let range = ranges.at(place);
        let load = nearest(range, averages.loads.as_slice()[place as usize]);
        let cost = table.at(link, load)?;
        let mean = averages.costs.as_slice()[link.0 as usize];
        if cost <= mean {
            return None;
        }
        let end = table.step_below(link, load)?;
        if end < range.least {
            return None;
        }
        let rest = LoadRange {
            least: load,
            most: range.most,
        };
        let reach = table.first_step_end(link, rest).unwrap_or(range.most);
        let weight = weight(load.saturating_sub(end), reach.saturating_sub(end));
        Some(Proposal {
            load: end,
            worth: (cost - mean).saturating_mul(weight),
        })
    }
}
