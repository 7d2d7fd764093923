//! What a master step goes by: it came out of the lock, and was tested.

ghost use Rattle.std.specs.Prelude.{◌≡◌, ◌<◌, ◌/◌, ◌↔◌, length, IsTrue, IfOk, IfSome, IsSome};
ghost use Rattle.plan_base.specs.Arcs.{demand_at};
ghost use Rattle.plan_base.specs.Paths.{IsSimplePath};
ghost use Rattle.arc_restrict.specs.Rows.{forbids, HasSizeOf};
ghost use Rattle.completions.specs.Completions.{ArePaths};
ghost use Rattle.leaf_tasks.specs.Limits.{AreFitted};
ghost use Rattle.search_worker.specs.Briefs.{columns_at, HasColumns, IsTellable};

use crate::search::Search;
use arc_restrict::{Restriction, price_along};
use column_pool::Brief;
use cut_values::CutTable;
use leaf_tasks::paths_within;
use plan_base::{BranchId, DemandId, Instance, Items, Path};
use std::alloc::{AllocError, Global};
use std::marker::PhantomData;

/// What a master step is told of a complete version. It fits the instance and the cuts of the search, and each demand has a
/// column.
#[derive(Drop)]
pub struct Told<N: Search> {
    brief: Brief,
    of: PhantomData<N>,
    ghost tellable: { IsTellable N.problem N.cuts brief },
}

/// Whether each demand has a column.
fn has_columns(inst: &Instance, columns: &[Items<Path>]) -> bool
    requires { length columns.now ≡ length inst.now.demands }
    ensures { IsTrue result ↔ HasColumns inst.now (columns_at columns.now) }
{
    for place in 0..inst.demands() {
        if columns[place as usize].is_empty() {
            return false;
        }
    }
    true
}

/// Where among the columns of a demand one stands that none undercuts.
fn least_place(inst: &Instance, prices: &[u128], columns: &[Path]) -> usize
    requires { 0 < length columns.now }
    ensures { result < length columns.now }
{
    let mut least = 0;
    for place in 1..columns.len() {
        let price = price_along(inst, prices, columns[place].as_slice());
        if price < price_along(inst, prices, columns[least].as_slice()) {
            least = place;
        }
    }
    least
}

impl<N: Search> Told<N> {
    /// What came out of the lock, where it fits the instance and the cuts, and each demand has a column.
    pub fn tested(inst: &Instance, table: &CutTable, brief: Brief) -> Option<Told<N>>
        requires inst { inst.now ≡ N.problem }
        requires problem { table.now.problem ≡ N.problem }
        requires cuts { table.now.cuts ≡ N.cuts }
        ensures some { IsSome result ↔ IsTellable inst.now table.now.cuts brief }
        ensures brief { IfSome result (λ told. told.brief ≡ brief) }
    {
        if !brief.fits(inst, table) {
            return None;
        }
        if !has_columns(inst, brief.columns.as_slice()) {
            return None;
        }
        Some(Told {
            brief,
            of: PhantomData,
        })
    }

    /// The brief.
    pub fn brief(&self) -> &Brief
        ensures value { result.now ≡ self.now.brief }
        ensures tellable { IsTellable N.problem N.cuts result.now }
    {
        &self.brief
    }

    /// How many nodes were examined, at least, when the node was made: nodes are made two at a time.
    pub fn examined(&self) -> u32
        ensures { result ≡ self.now.brief.node.0 / 2 }
    {
        self.brief.node.0 / 2
    }

    /// A copy of a column of the demand that none undercuts.
    fn least_path(&self, inst: &Instance, demand: DemandId) -> Result<Path, AllocError>
        requires inst { inst.now ≡ N.problem }
        requires demand { demand.0 < length inst.now.demands }
        ensures { IfOk result (IsSimplePath inst.now (demand_at inst.now demand.0)) }
    {
        let columns = self.brief.columns.as_slice()[demand.0 as usize].as_slice();
        let place = least_place(inst, self.brief.prices.as_slice(), columns);
        columns[place].copy()
    }

    /// For each demand a copy of a column that none undercuts, in order.
    pub fn least_paths(&self, alloc: Global, inst: &Instance) -> Result<Items<Path>, AllocError>
        requires { inst.now ≡ N.problem }
        ensures { IfOk result (ArePaths inst.now) }
    {
        let mut paths = Vec::with_capacity(alloc, inst.demands() as usize)?;
        for number in 0..inst.demands() {
            let path = self.least_path(inst, DemandId(number))?;
            paths.push(path)?;
        }
        Ok(Items::from_vec(paths))
    }

    /// The node of the version.
    pub fn node(&self) -> BranchId
        ensures { result ≡ self.now.brief.node }
    {
        self.brief.node
    }

    /// The paths, where those that have more arcs than their demands' limits are replaced, as far as what is forbidden
    /// at the node permits others. What does not fit the instance replaces none.
    ///
    /// - Errors: want of memory alone. The paths are spent.
    pub fn paths_within(
        &self,
        alloc: Global,
        inst: &Instance,
        rows: &Restriction,
        paths: Items<Path>,
    ) -> Result<Items<Path>, AllocError>
        requires inst { inst.now ≡ N.problem }
        requires paths { ArePaths inst.now paths }
        ensures paths { IfOk result (ArePaths inst.now) }
        ensures each { IfOk result (λ fitted. HasSizeOf inst.now rows.now → AreFitted inst.now (forbids rows.now) self.now.brief.prices paths fitted) }
    {
        if !rows.fits(inst) {
            return Ok(paths);
        }
        paths_within(alloc, inst, &self.brief.prices, rows, paths)
    }
}
