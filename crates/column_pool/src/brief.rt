//! What a master step is told.

ghost use Rattle.std.specs.Prelude.{◌≡◌, ◌<◌, ◌↔◌, length, IsTrue};
ghost use Rattle.column_pool.specs.Columns.{columns_at};
ghost use Rattle.column_pool.specs.Briefs.{ArePathsOf, AreAllPaths, IsBriefFor};

use cut_values::CutTable;
use link_steps::Ranges;
use plan_base::{BranchId, DemandId, Instance, Items, Path, Prices, is_simple_path};

/// Whether each path of the demand's list is a simple path of it.
fn are_paths(inst: &Instance, columns: &[Items<Path>], demand: DemandId) -> bool
    requires demand { demand.0 < length inst.now.demands }
    requires count { length columns.now ≡ length inst.now.demands }
    ensures { IsTrue result ↔ ArePathsOf inst.now demand.0 (columns_at columns.now demand.0) }
{
    columns[demand.0 as usize]
        .as_slice()
        .iter()
        .all(|path| is_simple_path(inst, demand, path))
}

/// Whether each path of each list is a simple path of the demand of that place.
fn are_all_paths(inst: &Instance, columns: &[Items<Path>]) -> bool
    requires { length columns.now ≡ length inst.now.demands }
    ensures { IsTrue result ↔ AreAllPaths inst.now columns.now (length inst.now.demands) }
{
    for place in 0..inst.demands() {
        if !are_paths(inst, columns, DemandId(place)) {
            return false;
        }
    }
    true
}

/// What a master step is told of a search node: the prices and rates of a complete version, and the columns that it chooses
/// among.
#[derive(Debug, Drop)]
pub struct Brief {
    /// The search node.
    pub node: BranchId,
    /// The version of its prices.
    pub version: u64,
    /// One price for each place, in thousandths of a cost grain per load grain, and behind them one rate for each cut, in
    /// thousandths of a cost grain per counted grain.
    pub prices: Prices,
    /// For each place the loads that the node lets it carry.
    pub ranges: Ranges,
    /// For each demand the columns that the node permits, in order.
    pub columns: Items<Items<Path>>,
    /// Whether the node's crowd prices were tried.
    pub crowd_tried: bool,
    /// Whether enough versions of the node were complete, so that none is to follow.
    pub has_enough: bool,
    /// What the best design known costs, in cost grains.
    pub incumbent: Option<u128>,
    /// What the costs of all designs are multiples of, in cost grains.
    pub unit: u128,
}

impl Brief {
    /// Whether the brief is one for the instance with the table's cuts: its prices, rates and ranges fit, and it has one list
    /// of columns for each demand, each of simple paths of that demand. Takes no memory.
    ///
    /// - Rule: docs/METHOD.md, "Columns".
    /// - Time: that of `CutTable::are_numbers`, and linear in the places, their links' modules and the arcs of all columns.
    pub fn fits(&self, inst: &Instance, table: &CutTable) -> bool
        requires { table.now.problem ≡ inst.now }
        ensures { IsTrue result ↔ IsBriefFor inst.now table.now.cuts self.now.prices self.now.ranges self.now.columns }
    {
        table.are_numbers(&self.prices)
            && self.ranges.fits(inst)
            && self.columns.len() == inst.demands() as usize
            && are_all_paths(inst, self.columns.as_slice())
    }
}
