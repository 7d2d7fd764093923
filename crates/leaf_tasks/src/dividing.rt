//! By which loads a node is divided. No contract rests on it: whoever divides a node tests the split.

ghost use Rattle.std.specs.Prelude.{IfSome};
ghost use Rattle.link_steps.specs.Ranges.{AreRanges};
ghost use Rattle.master_step.specs.Ascents.{HaveSizes};

use crate::split_rules::{Shortfall, SplitNode, best_split};
use branch_tree::LoadSplit;
use link_steps::{Ranges, StepTable};
use master_step::Averages;

/// The loads by which a node is divided that has these ranges: the split of the greatest worth by the rule of the search.
///
/// - Takes: the table of an instance; ranges of its places, and the averages of an ascent over them.
/// - Gives: None where no place has a split.
/// - Time: one look at the steps of a link for each place.
pub fn load_split(table: &StepTable, ranges: &Ranges, averages: &Averages) -> Option<LoadSplit>
    requires ranges { AreRanges table.now ranges.now }
    requires sizes { HaveSizes table.now averages.now }
{
    let node = SplitNode {
        table,
        ranges,
        averages,
    };
    best_split(&Shortfall, node)
}

/// The loads by which a node is divided that has these ranges; None where there are no averages.
pub(crate) fn split_of(
    table: &StepTable,
    ranges: &Ranges,
    averages: &Option<Averages>,
) -> Option<LoadSplit>
    requires ranges { AreRanges table.now ranges.now }
    requires sizes { IfSome averages.now (HaveSizes table.now) }
{
    match averages {
        Some(averages) => load_split(table, ranges, averages),
        None => None,
    }
}
