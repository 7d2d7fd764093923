//! A large neighbourhood search: a group of demands is taken off and laid again, and what comes of it is accepted or
//! taken back.

ghost use Rattle.std.specs.Prelude.{◌≡◌, ◌<◌, ◌%◌, min, length, IfOk, OnOk};
ghost use Rattle.completions.specs.Completions.{ArePaths};
ghost use Rattle.demand_routing.specs.Routings.{IsRouting};
ghost use Rattle.incumbent.specs.Rounds.{AreDemands, IsSearch};
ghost use Rattle.incumbent.specs.Searches.{far_load};

use crate::cooling::Cooling;
use crate::draws::Draws;
use crate::group::{draw_group, group_size};
use crate::held::Held;
use demand_routing::{Routing, set_path};
use link_steps::StepTable;
use plan_base::{DemandId, Instance, Items, Path};
use std::alloc::{AllocError, Global};

/// The most turns of single reroutes over all demands.
const MAX_TURNS: u32 = 32;

/// The most turns of single reroutes over the demands of a group.
const GROUP_TURNS: u32 = 4;

/// What a search works on.
#[derive(Drop)]
pub struct Rounds {
    /// The design that is changed.
    now: Routing,
    /// The design that was accepted last.
    accepted: Held,
    /// The cheapest design met.
    best: Held,
    /// The demands that are taken off.
    group: Vec<DemandId>,
    draws: Draws,
}

/// Lays all demands on their paths.
fn put_all_on(table: &StepTable, routing: &mut Routing)
    requires routing { IsRouting table.now routing.old }
    ensures routing { IsRouting table.now routing.new }
{
    let inst = table.instance();
    for place in 0..inst.demands() {
        routing.put_on(table, DemandId(place));
    }
}

/// Reroutes each demand once where that helps, and tells behind how many demands it helped last, 0 where it helped none.
/// Where it helps none of so many first ones, the others are passed over.
fn reroute_each(table: &StepTable, until: u32, routing: &mut Routing) -> Result<u32, AllocError>
    requires routing { IsRouting table.now routing.old }
    ensures routing { IsRouting table.now routing.new }
{
    let inst = table.instance();
    let mut last = 0;
    for place in 0..inst.demands() {
        if last == 0 && place >= until {
            break;
        }
        if routing.reroute(table, DemandId(place))? {
            last = place + 1;
        }
    }
    Ok(last)
}

/// Reroutes the demands until none helps or all turns are spent.
fn reroute_all(table: &StepTable, routing: &mut Routing) -> Result<(), AllocError>
    requires routing { IsRouting table.now routing.old }
    ensures routing { IsRouting table.now routing.new }
{
    let inst = table.instance();
    let mut until = inst.demands();
    for _turn in 0..MAX_TURNS {
        until = reroute_each(table, until, routing)?;
        if until == 0 {
            break;
        }
    }
    Ok(())
}

/// Where a turn of single reroutes helped last: behind how many demands of its list, and how many searches there were then.
#[derive(Clone, Copy)]
struct LastHelp {
    places: usize,
    searches: u32,
}

/// Reroutes each demand of a group once where that helps, and tells where it helped last. Where it helps none of so many
/// first ones, the others are passed over.
fn reroute_group(
    table: &StepTable,
    group: &[DemandId],
    until: usize,
    routing: &mut Routing,
) -> Result<Option<LastHelp>, AllocError>
    requires routing { IsRouting table.now routing.old }
    requires group { AreDemands table.now group.now }
    ensures routing { IsRouting table.now routing.new }
{
    let mut last = None;
    let mut tried = 0usize;
    for demand in group {
        if last.is_none() && tried >= until {
            break;
        }
        tried = tried.saturating_add(1);
        if routing.reroute(table, *demand)? {
            last = Some(LastHelp {
                places: tried,
                searches: routing.searches,
            });
        }
    }
    Ok(last)
}

/// Reroutes the demands of a group until none helps or all turns are spent. What was tried in vain since the last one that
/// helped is not tried again, and counts as if it were.
fn touch_up(table: &StepTable, group: &[DemandId], routing: &mut Routing) -> Result<(), AllocError>
    requires routing { IsRouting table.now routing.old }
    requires group { AreDemands table.now group.now }
    ensures routing { IsRouting table.now routing.new }
{
    let mut until = group.len();
    let mut vain = 0u32;
    for _turn in 0..GROUP_TURNS {
        let Some(last) = reroute_group(table, group, until, routing)? else {
            routing.searches = routing.searches.saturating_add(vain);
            break;
        };
        until = last.places;
        vain = routing.searches.saturating_sub(last.searches);
    }
    Ok(())
}

/// Takes the demands of a group off.
fn destroy(table: &StepTable, group: &[DemandId], routing: &mut Routing)
    requires routing { IsRouting table.now routing.old }
    requires group { AreDemands table.now group.now }
    ensures routing { IsRouting table.now routing.new }
{
    for demand in group {
        let _fall = routing.take_off(table, *demand, false);
    }
}

/// Lays the demands of a group one by one, and tells whether each found a path.
fn repair(
    table: &StepTable,
    group: &[DemandId],
    far: u128,
    routing: &mut Routing,
) -> Result<bool, AllocError>
    requires routing { IsRouting table.now routing.old }
    requires group { AreDemands table.now group.now }
    ensures routing { IsRouting table.now routing.new }
{
    for demand in group {
        if !routing.lay_far(table, *demand, far)? {
            return Ok(false);
        }
    }
    Ok(true)
}

/// Keeps the paths of the demands of a group.
#[tactic(auto, using(demand_routing::proofs::ReroutingLaws::paths_set))]
fn keep_group(
    inst: &Instance,
    group: &[DemandId],
    paths: &[Path],
    kept: &mut Vec<Path>,
) -> Result<(), AllocError>
    requires group { AreDemands inst.now group.now }
    requires paths { ArePaths inst.now paths.now }
    requires kept { ArePaths inst.now kept.old.items }
    ensures kept { OnOk result (ArePaths inst.now kept.new.items) }
{
    for demand in group {
        set_path(kept, *demand, &paths[demand.0 as usize])?;
    }
    Ok(())
}

/// Whether a demand is laid on this path.
fn is_laid_on(routing: &Routing, demand: DemandId, path: &Path) -> bool {
    let place = demand.0 as usize;
    match (routing.laid.get(place), routing.paths.get(place)) {
        (Some(true), Some(own)) => own == path,
        _ => false,
    }
}

/// Lays the demands of a group on their paths among these, in place of their own.
fn set_group_back(
    table: &StepTable,
    group: &[DemandId],
    paths: &[Path],
    routing: &mut Routing,
) -> Result<(), AllocError>
    requires group { AreDemands table.now group.now }
    requires paths { ArePaths table.now paths.now }
    requires routing { IsRouting table.now routing.old }
    ensures routing { OnOk result (IsRouting table.now routing.new) }
{
    for demand in group {
        let path = &paths[demand.0 as usize];
        if !is_laid_on(routing, *demand, path) {
            routing.set_back(table, *demand, path)?;
        }
    }
    Ok(())
}

/// These paths, laid and rerouted until no single reroute helps; none of its searches counts.
fn first_routing(alloc: Global, table: &StepTable, paths: Vec<Path>) -> Result<Routing, AllocError>
    requires paths { ArePaths table.now paths.items }
    ensures routing { IfOk result (IsRouting table.now) }
{
    let inst = table.instance();
    let mut routing = Routing::new(alloc, inst, paths)?;
    put_all_on(table, &mut routing);
    reroute_all(table, &mut routing)?;
    routing.searches = 0;
    Ok(routing)
}

/// What a search holds beside its routing at its start: the paths that it accepted, the best ones, and room for a group.
fn room_beside(
    alloc: Global,
    inst: &Instance,
    now: &Routing,
) -> Result<(Held, Held, Vec<DemandId>), AllocError>
    ensures accepted { IfOk result (λ room. room.0.paths.items ≡ now.now.paths.items) }
    ensures best { IfOk result (λ room. room.1.paths.items ≡ now.now.paths.items) }
    ensures group { IfOk result (λ room. AreDemands inst.now room.2.items) }
{
    let accepted = Held::new(alloc, inst, &now.paths, now.cost)?;
    let best = Held::new(alloc, inst, &now.paths, now.cost)?;
    let group = Vec::with_capacity(alloc, inst.demands() as usize)?;
    Ok((accepted, best, group))
}

impl Rounds {
    /// The search that begins with these paths once no single reroute helps.
    pub(crate) fn new(
        alloc: Global,
        table: &StepTable,
        paths: Vec<Path>,
        seed: u32,
    ) -> Result<Rounds, AllocError>
        requires paths { ArePaths table.now paths.items }
        ensures search { IfOk result (IsSearch table.now) }
    {
        let inst = table.instance();
        let draws = Draws::new(&paths, seed);
        let now = first_routing(alloc, table, paths)?;
        let (accepted, best, group) = room_beside(alloc, inst, &now)?;
        Ok(Rounds {
            accepted,
            best,
            group,
            now,
            draws,
        })
    }

    /// Draws how far more load is looked at: 2, 4, 8 or 16 times the mean load of a demand.
    fn draw_far(&mut self, inst: &Instance) -> u128
        requires some { 0 < length inst.now.demands }
        requires search { IsSearch inst.now self.old }
        ensures search { IsSearch inst.now self.new }
        ensures far { result ≡ far_load inst.now (self.new.draws.state % 4) }
    {
        let mean = u128::from(inst.total_load() / u64::from(inst.demands())).max(1);
        match self.draws.below(4) {
            0 => 2 * mean,
            1 => 4 * mean,
            2 => 8 * mean,
            _ => 16 * mean,
        }
    }

    /// Takes a group off and lays it again, and tells whether each demand found a path.
    fn try_group(&mut self, table: &StepTable) -> Result<bool, AllocError>
        requires search { IsSearch table.now self.old }
        requires some { 0 < length table.now.demands }
        ensures search { OnOk result (IsSearch table.now self.new) }
    {
        let inst = table.instance();
        let far = self.draw_far(inst);
        destroy(table, &self.group, &mut self.now);
        if !repair(table, &self.group, far, &mut self.now)? {
            return Ok(false);
        }
        touch_up(table, &self.group, &mut self.now)?;
        Ok(true)
    }

    /// Keeps the paths that the group has now.
    fn accept(&mut self, inst: &Instance) -> Result<(), AllocError>
        requires search { IsSearch inst.now self.old }
        ensures search { OnOk result (IsSearch inst.now self.new) }
        ensures accepted { OnOk result (self.new.accepted.cost ≡ self.old.now.cost) }
        ensures best { OnOk result (self.new.best.cost ≡ min self.old.best.cost self.old.now.cost) }
    {
        keep_group(inst, &self.group, &self.now.paths, &mut self.accepted.paths)?;
        self.accepted.cost = self.now.cost;
        if self.now.cost < self.best.cost {
            inst.lawful();
            self.best.set_to(&self.now.paths, self.now.cost)?;
        }
        Ok(())
    }

    /// Gives the group the paths back that were accepted last.
    fn take_back(&mut self, table: &StepTable) -> Result<(), AllocError>
        requires search { IsSearch table.now self.old }
        ensures search { OnOk result (IsSearch table.now self.new) }
    {
        set_group_back(table, &self.group, &self.accepted.paths, &mut self.now)
    }

    /// One round, which takes at most so many demands off.
    fn round(&mut self, table: &StepTable, cooling: &Cooling, most: usize) -> Result<(), AllocError>
        requires search { IsSearch table.now self.old }
        requires some { 0 < length table.now.demands }
        ensures search { OnOk result (IsSearch table.now self.new) }
    {
        let inst = table.instance();
        draw_group(
            inst,
            &self.now.paths,
            most,
            &mut self.draws,
            &mut self.group,
        )?;
        if !self.try_group(table)? {
            return self.take_back(table);
        }
        let slack = cooling.slack(self.now.searches, self.draws.ones());
        if self.now.cost <= self.accepted.cost.saturating_add(slack) {
            self.accept(inst)
        } else {
            self.take_back(table)
        }
    }

    /// Rounds until one of so many equal shares of the searches is spent.
    fn spend_searches(&mut self, table: &StepTable, shares: u32) -> Result<(), AllocError>
        requires search { IsSearch table.now self.old }
        requires some { 0 < length table.now.demands }
        ensures search { OnOk result (IsSearch table.now self.new) }
    {
        let inst = table.instance();
        let cooling = Cooling::new(inst, self.now.cost, shares);
        let most = group_size(inst, cooling.limit());
        for _round in 0..cooling.limit() {
            if self.now.searches >= cooling.limit() {
                break;
            }
            self.round(table, &cooling, most)?;
        }
        Ok(())
    }

    /// Rounds until one of so many equal shares of the searches is spent; none where there are no demands.
    pub(crate) fn run(&mut self, table: &StepTable, shares: u32) -> Result<(), AllocError>
        requires search { IsSearch table.now self.old }
        ensures search { OnOk result (IsSearch table.now self.new) }
    {
        let inst = table.instance();
        if inst.demands() == 0 {
            return Ok(());
        }
        self.spend_searches(table, shares)
    }

    /// The paths of the cheapest design met.
    pub(crate) fn into_best(self) -> Items<Path>
        ensures { result ≡ self.best.paths.items }
    {
        Items::from_vec(self.best.paths)
    }
}
