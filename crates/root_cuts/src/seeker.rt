//! The search for cuts as a whole.

ghost use Rattle.std.specs.Prelude.{◌≡◌, ◌*◌, ◌≤◌, length, IfOk, OnOk};
ghost use Rattle.proof_tree.specs.Cuts.{IsCutList};
ghost use Rattle.root_cuts.specs.declared.limits.TheConstants.{MAX_ROUNDS, MAX_TRIED};

use crate::bounding::bound_at;
use crate::designs::laid_cost;
use crate::limits::{LARGE_SHARE, MAX_ROUNDS, MAX_TRIED, SEEN_TURNS};
use crate::lists::{copy_of, tested};
use crate::rising::Aim;
use crate::rounds::{Standing, go_rounds};
use crate::trying::{first_nodes, try_nodes};
use arc_restrict::Restriction;
use column_pool::ColumnPool;
use cut_separation::CutSearch;
use cut_values::{CutTable, SeenLoads};
use link_steps::{Ranges, StepTable, cost_unit};
use plan_base::{DemandId, Instance, Items, Link, LinkId, Path};
use proof_tree::Cut;
use std::alloc::{AllocError, Global};

/// What all parts of the search for cuts look at.
#[derive(Clone, Copy)]
pub(crate) struct Ground<'a> {
    pub(crate) alloc: Global,
    pub(crate) inst: &'a Instance,
    /// No arc is forbidden.
    pub(crate) none: &'a Restriction,
    /// All loads of each place.
    pub(crate) whole: &'a Ranges,
}

/// Where cuts are found: among sets of nodes, at the loads that ascents have seen; and what the ascents go by.
#[derive(Drop)]
pub(crate) struct Sight {
    pub(crate) search: CutSearch,
    pub(crate) seen: SeenLoads,
    pub(crate) columns: ColumnPool,
    pub(crate) aim: Aim,
}

impl Sight {
    /// No loads are seen yet.
    fn new(
        ground: Ground<'_>,
        table: &CutTable,
        columns: ColumnPool,
        aim: Aim,
    ) -> Result<Sight, AllocError>
        requires { table.now.problem ≡ ground.inst.now }
        ensures { IfOk result (λ sight. sight.columns ≡ columns) }
    {
        let search = CutSearch::new(ground.alloc, ground.inst, table.steps())?;
        let seen = SeenLoads::new(ground.alloc, ground.inst, SEEN_TURNS)?;
        Ok(Sight {
            search,
            seen,
            columns,
            aim,
        })
    }
}

/// How many rounds and nodes a budget of nodes is worth: what they cost together is less than the nodes.
fn effort_of(budget: u32) -> (u32, u32)
    ensures rounds { (8 * result.0 ≤ budget) × (result.0 ≤ MAX_ROUNDS) }
    ensures nodes { (4 * result.1 ≤ budget) × (result.1 ≤ MAX_TRIED) }
{
    (MAX_ROUNDS.min(budget / 8), MAX_TRIED.min(budget / 4))
}

/// The first column of each demand; None where one has none.
fn first_columns(
    alloc: Global,
    inst: &Instance,
    columns: &ColumnPool,
) -> Result<Option<Items<Path>>, AllocError>
    requires { length columns.now ≡ length inst.now.demands }
{
    let mut paths = Vec::new(alloc);
    for place in 0..inst.demands() {
        let demand = DemandId(place);
        if columns.count(demand) == 0 {
            return Ok(None);
        }
        paths.push(columns.column(demand, 0).copy()?)?;
    }
    Ok(Some(Items::from_vec(paths)))
}

/// The aim of the ascents: what a design costs that is laid from least paths. None where there is none.
fn aim_of(
    ground: Ground<'_>,
    table: &CutTable,
    columns: &ColumnPool,
) -> Result<Option<Aim>, AllocError>
    requires table { table.now.problem ≡ ground.inst.now }
    requires count { length columns.now ≡ length ground.inst.now.demands }
{
    let Some(paths) = first_columns(ground.alloc, ground.inst, columns)? else {
        return Ok(None);
    };
    match laid_cost(ground.alloc, table.steps(), &paths)? {
        Some(cost) => Ok(Some(Aim {
            cost,
            unit: cost_unit(ground.inst),
        })),
        None => Ok(None),
    }
}

/// What the cheapest module of a link that has a capacity costs, in cost grains; 0 where no module has one.
fn cheapest_module(link: &Link) -> u128 {
    let mut cheapest: Option<u128> = None;
    for module in link.modules.as_slice() {
        if module.capacity > 0 {
            let least = cheapest.unwrap_or(module.cost);
            cheapest = Some(least.min(module.cost));
        }
    }
    cheapest.unwrap_or(0)
}

/// Whether modules are so large beside all that is carried that cuts may be worth their time: a cut rounds capacities up to
/// whole modules, and about one module a link is all that this can cost.
fn are_modules_large(inst: &Instance, bound: i128) -> bool {
    let mut total: u128 = 0;
    for place in 0..inst.links() {
        total = total.saturating_add(cheapest_module(inst.link(LinkId(place))));
    }
    total.saturating_mul(LARGE_SHARE) >= u128::try_from(bound).unwrap_or(0)
}

/// Where the rounds begin, and what they aim at. None where a demand has no path, no design is laid, or modules are small.
fn opened(
    ground: Ground<'_>,
    table: &CutTable,
    columns: &mut ColumnPool,
) -> Result<Option<(Standing, Aim)>, AllocError>
    requires table { table.now.problem ≡ ground.inst.now }
    requires count { length columns.old ≡ length ground.inst.now.demands }
    ensures { OnOk result (length columns.new ≡ length ground.entry.inst.now.demands) }
{
    let start = table.start_numbers(ground.alloc)?;
    let Some(bound) = bound_at(ground, table, ground.whole, &start, columns)? else {
        return Ok(None);
    };
    if !are_modules_large(ground.inst, bound) {
        return Ok(None);
    }
    let Some(aim) = aim_of(ground, table, columns)? else {
        return Ok(None);
    };
    Ok(Some((Standing::at(ground, start, bound)?, aim)))
}

/// Puts the cuts in the table that rounds and the short search behind them find, where the search for cuts may begin.
fn seek(ground: Ground<'_>, table: &mut CutTable, budget: u32) -> Result<(), AllocError>
    requires { table.old.problem ≡ ground.inst.now }
    ensures { table.new.problem ≡ table.old.problem }
{
    let mut columns = ColumnPool::new(ground.alloc, ground.inst)?;
    let Some((mut standing, aim)) = opened(ground, table, &mut columns)? else {
        return Ok(());
    };
    let mut sight = Sight::new(ground, table, columns, aim)?;
    let (rounds, tried) = effort_of(budget);
    go_rounds(ground, table, rounds, &mut sight, &mut standing)?;
    if table.count() == 0 {
        return Ok(());
    }
    let mut nodes = first_nodes(ground, standing.best.copy()?)?;
    try_nodes(ground, table, tried, &mut sight, &mut nodes)
}

/// Puts the cuts in a table that are found for the instance.
fn put_found(
    alloc: Global,
    inst: &Instance,
    table: &mut CutTable,
    budget: u32,
) -> Result<(), AllocError>
    requires { table.old.problem ≡ inst.now }
    ensures { table.new.problem ≡ table.old.problem }
{
    let none = Restriction::none(alloc, inst)?;
    let whole = Ranges::whole(alloc, inst)?;
    let ground = Ground {
        alloc,
        inst,
        none: &none,
        whole: &whole,
    };
    seek(ground, table, budget)
}

/// Cuts for a search, and the step table again.
///
/// - Takes: the instance and its step table; how many nodes the search may examine.
/// - Gives: the step table, and cuts that a plan of the instance may have; none where the budget is small, where modules
///   are small beside all that is carried, or where rates help nothing.
/// - Errors: want of memory alone.
/// - Rule: docs/METHOD.md, "Where cuts come from".
/// - Time: that of at most 14 ascents of a search at the whole region, of as many rounds of `CutSearch::extend`, and of the
///   examination of at most 60 nodes.
pub fn found_cuts(
    alloc: Global,
    inst: &Instance,
    steps: StepTable,
    budget: u32,
) -> Result<(StepTable, Items<Cut>), AllocError>
    requires { steps ≡ inst.now }
    ensures steps { IfOk result (λ found. found.0 ≡ inst.now) }
    ensures cuts { IfOk result (λ found. IsCutList inst.now found.1) }
{
    let mut table = CutTable::new(alloc, steps, tested(alloc, inst, Vec::new(alloc)))?;
    put_found(alloc, inst, &mut table, budget)?;
    let cuts = Items::from_vec(copy_of(alloc, table.cuts())?);
    Ok((table.into_steps(), cuts))
}
