//! Rules by which a node is divided at a load of a place. No proof rests on what a rule proposes: whoever divides a node tests
//! the split. A further rule is a module here with a `SplitRule`, and takes effect where `load_split` names it.

ghost use Rattle.std.specs.Prelude.{◌<◌, IfSome};
ghost use Rattle.plan_base.specs.Places.{places};
ghost use Rattle.link_steps.specs.Ranges.{AreRanges};
ghost use Rattle.master_step.specs.Ascents.{HaveSizes};

mod middle;
mod shortfall;

use branch_tree::LoadSplit;
use link_steps::{Ranges, StepTable};
use master_step::Averages;
pub use middle::Middle;
pub use shortfall::Shortfall;

/// A node that is to be divided, as a rule sees it.
#[derive(Clone, Copy)]
pub struct SplitNode<'a> {
    /// The instance with the steps of its links.
    pub table: &'a StepTable,
    /// The loads that the node leaves each place.
    pub ranges: &'a Ranges,
    /// The averages of an ascent over these ranges.
    pub averages: &'a Averages,
    ghost ranges_fit: { AreRanges table.now ranges.now },
    ghost sizes: { HaveSizes table.now averages.now },
}

/// A load of a place, in load grains, and how much is expected of a split there: a number that is compared with those of
/// other places, by the same rule alone.
#[derive(Clone, Copy, Debug)]
pub struct Proposal {
    pub load: u64,
    pub worth: u128,
}

/// How a load is chosen by which a node is divided.
pub trait SplitRule {
    /// What the rule proposes at a place; None where it proposes no split there.
    fn proposal(&self, node: SplitNode<'_>, place: u32) -> Option<Proposal>
        requires place { place < places node.table.now };
}

/// The split of the greatest worth, the first of equal ones.
///
/// - Takes: a rule, and the node that it is asked about.
/// - Gives: None where it proposes nothing of a worth above 0.
/// - Time: one proposal for each place.
pub fn best_split<R: SplitRule>(rule: &R, node: SplitNode<'_>) -> Option<LoadSplit> {
    let mut most: u128 = 0;
    let mut found = None;
    for place in 0..node.table.instance().places() {
        if let Some(Proposal { load, worth }) = rule.proposal(node, place) {
            if worth > most {
                most = worth;
                found = Some(LoadSplit { place, load });
            }
        }
    }
    found
}
