//! The master problem of a search node.

ghost use Rattle.column_pool.specs.Briefs.{IsBriefFor};

use column_pool::Brief;
use cut_values::CutTable;

/// The master problem of a search node: what a brief tells of the node, beside the table that it fits.
#[derive(Clone, Copy)]
pub struct NodeMaster<'a> {
    /// The instance, the steps of its links, and the cuts.
    pub table: &'a CutTable,
    pub brief: &'a Brief,
    ghost brief_fits: { IsBriefFor table.now.problem table.now.cuts brief.now.prices brief.now.ranges brief.now.columns },
}
