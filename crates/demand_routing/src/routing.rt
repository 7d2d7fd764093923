//! Paths of all demands, what the places carry and what the links cost with them.

ghost use Rattle.std.specs.Prelude.{ℕ, ◌≡◌, ◌<◌, ◌≤◌, ◌+◌, ◌-◌, ◌^◌, min, true, false, if◌then◌else◌, Some, None, length, slice_set, IfOk, OnOk, IfSome, IfNone, IsTrue, IsFalse};
ghost use Rattle.std.specs.Option.{unwrap_or};
ghost use Rattle.plan_base.specs.Arcs.{demand_at};
ghost use Rattle.plan_base.specs.Designs.{path_at};
ghost use Rattle.least_path.specs.Paths.{IsBelow};
ghost use Rattle.completions.specs.Completions.{ArePaths, with_paths};
ghost use Rattle.demand_routing.specs.Routings.{IsRouting, HasSameRoutes, IsPathOf, IsRiseOf, IsCheapestWay, IsCheaperWay, IsLeastWay, HasNoWay, HasNoCheaperWay, HasNoFarWay, IsStuck, IsCostWith, IsCostWithout, IsMoved, is_marked};

use crate::copies::set_path;
use crate::limits::LimitedRoom;
use crate::loads::change_load;
use crate::weights::{FarRises, Held, Rises, rise_along};
use link_steps::StepTable;
use plan_base::limits::{MAX_LINKS, MAX_PLACES};
use plan_base::{DemandId, Instance, Path};
use std::alloc::{AllocError, Global};

/// A path for each demand, what the places carry and what the links cost with those that are laid.
#[derive(Debug, Drop)]
pub struct Routing {
    pub paths: Vec<Path>,
    /// For each demand whether its load is on the places of its path.
    pub laid: Vec<bool>,
    /// For each place, in load grains. They lie apart from the rest, so that a search takes little of the stack.
    pub loads: Box<[u128; MAX_PLACES]>,
    /// The sum of the step costs, in cost grains.
    pub cost: u128,
    /// How many least paths were searched for.
    pub searches: u32,
    /// For each place where among its link's steps that of its link's need is looked for first.
    nears: Box<[u32; MAX_PLACES]>,
    /// For each link a step cost of it, and the loads that this is of.
    helds: Box<[Held; MAX_LINKS]>,
    room: LimitedRoom,
}

impl Routing {
    /// These paths, none of them laid.
    pub fn new(alloc: Global, inst: &Instance, paths: Vec<Path>) -> Result<Routing, AllocError>
        requires { ArePaths inst.now paths.items }
        ensures routing { IfOk result (IsRouting inst.now) }
        ensures paths { IfOk result (λ routing. routing.paths.items ≡ paths.items) }
        ensures off { IfOk result (λ routing. (k : ℕ) → k < length inst.now.demands → is_marked routing.laid.items k ≡ false) }
        ensures cost { IfOk result (λ routing. routing.cost ≡ 0) }
    {
        Ok(Routing {
            paths,
            laid: vec![in alloc; false; inst.demands() as usize]?,
            loads: Box::new(alloc, [0; MAX_PLACES])?,
            cost: 0,
            searches: 0,
            nears: Box::new(alloc, [0; MAX_PLACES])?,
            helds: Box::new(alloc, [Held::none(); MAX_LINKS])?,
            room: LimitedRoom::new(alloc, inst)?,
        })
    }

    /// Lays a demand that is off on the places of its path, or takes one that is laid off them. The cost stays what it is.
    fn mark(&mut self, table: &StepTable, demand: DemandId, laid: bool)
        requires demand { demand.0 < length table.now.demands }
        requires routing { IsRouting table.now self.old }
        requires other { is_marked self.old.laid.items demand.0 ≡ (if laid then false else true) }
        ensures routing { IsRouting table.now self.new }
        ensures paths { self.new.paths ≡ self.old.paths }
        ensures laid { self.new.laid.items ≡ slice_set self.old.laid.items demand.0 laid }
        ensures searches { self.new.searches ≡ self.old.searches }
        ensures cost { self.new.cost ≡ self.old.cost }
    {
        let inst = table.instance();
        inst.lawful();
        let place = demand.0 as usize;
        let load = inst.demand(demand).load;
        change_load(
            inst,
            &mut self.loads,
            self.paths[place].as_slice(),
            load,
            laid,
        );
        self.laid[place] = laid;
    }

    /// What the step costs rise by where the load of a demand comes to what the places of its path carry, in cost grains;
    /// None where a link cannot carry that. The step costs with the load are held, or those without it.
    fn rise(&mut self, table: &StepTable, demand: DemandId, with_load: bool) -> Option<u128>
        requires demand { demand.0 < length table.now.demands }
        requires routing { IsRouting table.now self.old }
        ensures routing { IsRouting table.now self.new }
        ensures same { HasSameRoutes self.old self.new }
        ensures searches { self.new.searches ≡ self.old.searches }
        ensures cost { self.new.cost ≡ self.old.cost }
        ensures rise { IsRiseOf table.now self.new.loads.value self.new.paths.items demand.0 result }
    {
        let load = table.instance().demand(demand).load;
        rise_along(
            table,
            &self.loads,
            &mut self.nears,
            &mut self.helds,
            self.paths[demand.0 as usize].as_slice(),
            load,
            with_load,
        )
    }

    /// Lays a demand that is off on the places of its path, where it is known what the step costs rise by.
    fn lay(&mut self, table: &StepTable, demand: DemandId, rise: Option<u128>)
        requires demand { demand.0 < length table.now.demands }
        requires routing { IsRouting table.now self.old }
        requires off { is_marked self.old.laid.items demand.0 ≡ false }
        requires rise { IsRiseOf table.now self.old.loads.value self.old.paths.items demand.0 rise }
        ensures routing { IsRouting table.now self.new }
        ensures paths { self.new.paths ≡ self.old.paths }
        ensures on { is_marked self.new.laid.items demand.0 ≡ true }
        ensures searches { self.new.searches ≡ self.old.searches }
        ensures cost { IsCostWith table.now self.old.loads.value self.new.paths.items demand.0 self.old.cost self.new.cost }
    {
        self.mark(table, demand, true);
        self.cost = self.cost.saturating_add(rise.unwrap_or(u128::MAX));
    }

    /// Lays a demand on the places of its path. One that is laid stays so.
    pub fn put_on(&mut self, table: &StepTable, demand: DemandId)
        requires demand { demand.0 < length table.now.demands }
        requires routing { IsRouting table.now self.old }
        ensures routing { IsRouting table.now self.new }
        ensures paths { self.new.paths ≡ self.old.paths }
        ensures on { is_marked self.new.laid.items demand.0 ≡ true }
        ensures searches { self.new.searches ≡ self.old.searches }
        ensures cost { is_marked self.old.laid.items demand.0 ≡ false → IsCostWith table.now self.old.loads.value self.new.paths.items demand.0 self.old.cost self.new.cost }
        ensures laid { is_marked self.old.laid.items demand.0 ≡ true → self.new.cost ≡ self.old.cost }
    {
        if self.laid[demand.0 as usize] {
            return;
        }
        let rise = self.rise(table, demand, true);
        self.lay(table, demand, rise);
    }

    /// Takes a demand off the places of its path, and tells what their step costs fall by, in cost grains. One that is off
    /// stays so. Where it may come back, the step costs with it stay held.
    pub fn take_off(
        &mut self,
        table: &StepTable,
        demand: DemandId,
        comes_back: bool,
    ) -> Option<u128>
        requires demand { demand.0 < length table.now.demands }
        requires routing { IsRouting table.now self.old }
        ensures routing { IsRouting table.now self.new }
        ensures paths { self.new.paths ≡ self.old.paths }
        ensures off { is_marked self.new.laid.items demand.0 ≡ false }
        ensures searches { self.new.searches ≡ self.old.searches }
        ensures cost { self.new.cost ≡ self.old.cost - unwrap_or result 0 }
        ensures fall { IfSome result (λ fall. IsRiseOf table.now self.new.loads.value self.new.paths.items demand.0 (Some fall)) }
        ensures none { is_marked self.old.laid.items demand.0 ≡ true → IfNone result (IsRiseOf table.now self.new.loads.value self.new.paths.items demand.0 None) }
        ensures without { IsCostWithout table.now self.old demand.0 self.new.loads.value self.new.cost }
    {
        if !self.laid[demand.0 as usize] {
            return None;
        }
        self.mark(table, demand, false);
        let fall = self.rise(table, demand, comes_back);
        self.cost = self.cost.saturating_sub(fall.unwrap_or(0));
        fall
    }

    /// Searches for a path within the demand's limit that raises the step costs least, puts it into the room, and gives the
    /// rise in cost grains, where that is less than this one.
    #[tactic(auto, using(crate::proofs::WeighedLaws::added_count, crate::proofs::WeighedLaws::cheapest_way, crate::proofs::WeighedLaws::no_cheaper_way))]
    fn search(
        &mut self,
        table: &StepTable,
        demand: DemandId,
        own: Option<u128>,
    ) -> Result<Option<u128>, AllocError>
        requires demand { demand.0 < length table.now.demands }
        requires routing { IsRouting table.now self.old }
        ensures routing { IsRouting table.now self.new }
        ensures same { HasSameRoutes self.old self.new }
        ensures searches { self.new.searches ≡ min (self.old.searches + 1) (2 ^ 32 - 1) }
        ensures no_fewer { self.old.searches ≤ self.new.searches }
        ensures cost { self.new.cost ≡ self.old.cost }
        ensures cheapest { IfOk result (λ found. IfSome found (IsCheapestWay table.now self.new.loads.value (demand_at table.now demand.0) self.new.room)) }
        ensures below { IfOk result (λ found. IfSome found (IsBelow own)) }
        ensures none { IfOk result (λ found. IfNone found (HasNoCheaperWay table.now self.new.loads.value (demand_at table.now demand.0) own)) }
    {
        let inst = table.instance();
        let demand = inst.demand(demand);
        self.searches = self.searches.saturating_add(1);
        let rises = Rises {
            table,
            loads: &self.loads,
            helds: &self.helds,
            nears: &self.nears,
            load: demand.load,
        };
        self.room.search_below(inst, &rises, demand, own)
    }

    /// Searches for a path of least weight within the demand's limit, where far more load is looked at too, and puts it
    /// into the room.
    #[tactic(auto, using(crate::proofs::WeighedLaws::far_count, crate::proofs::WeighedLaws::least_way, crate::proofs::WeighedLaws::no_far_way))]
    fn search_far(
        &mut self,
        table: &StepTable,
        demand: DemandId,
        far: u128,
    ) -> Result<Option<u128>, AllocError>
        requires demand { demand.0 < length table.now.demands }
        requires routing { IsRouting table.now self.old }
        ensures routing { IsRouting table.now self.new }
        ensures same { HasSameRoutes self.old self.new }
        ensures searches { self.new.searches ≡ min (self.old.searches + 1) (2 ^ 32 - 1) }
        ensures cost { self.new.cost ≡ self.old.cost }
        ensures least { IfOk result (λ found. IfSome found (IsLeastWay table.now self.new.loads.value (demand_at table.now demand.0) far self.new.room)) }
        ensures none { IfOk result (λ found. IfNone found (HasNoFarWay table.now self.new.loads.value (demand_at table.now demand.0) far)) }
    {
        let inst = table.instance();
        let demand = inst.demand(demand);
        self.searches = self.searches.saturating_add(1);
        let rises = Rises {
            table,
            loads: &self.loads,
            helds: &self.helds,
            nears: &self.nears,
            load: demand.load,
        };
        let far_rises = FarRises { rises, far };
        self.room.search_below(inst, &far_rises, demand, None)
    }

    /// Gives a demand that is off the path in the room.
    fn take_path(&mut self, table: &StepTable, demand: DemandId)
        requires demand { demand.0 < length table.now.demands }
        requires routing { IsRouting table.now self.old }
        requires off { is_marked self.old.laid.items demand.0 ≡ false }
        requires simple { IsPathOf table.now demand.0 self.old.room }
        ensures routing { IsRouting table.now self.new }
        ensures laid { self.new.laid ≡ self.old.laid }
        ensures loads { self.new.loads.value ≡ self.old.loads.value }
        ensures searches { self.new.searches ≡ self.old.searches }
        ensures cost { self.new.cost ≡ self.old.cost }
        ensures path { path_at (with_paths self.new.paths.items) demand.0 ≡ self.old.room }
    {
        self.room.swap(&mut self.paths[demand.0 as usize]);
    }

    /// Searches for a path within the limit that raises the step costs by less than this, and gives it to the demand, which
    /// is off.
    #[tactic(auto, using(crate::proofs::WeighedLaws::cheapest_simple, crate::proofs::WeighedLaws::no_way))]
    fn take_cheaper(
        &mut self,
        table: &StepTable,
        demand: DemandId,
        own: Option<u128>,
    ) -> Result<bool, AllocError>
        requires demand { demand.0 < length table.now.demands }
        requires routing { IsRouting table.now self.old }
        requires off { is_marked self.old.laid.items demand.0 ≡ false }
        ensures routing { IsRouting table.now self.new }
        ensures laid { self.new.laid ≡ self.old.laid }
        ensures loads { self.new.loads.value ≡ self.old.loads.value }
        ensures cost { self.new.cost ≡ self.old.cost }
        ensures no_fewer { self.old.searches ≤ self.new.searches }
        ensures one_more { self.new.searches ≤ self.old.searches + 1 }
        ensures searches { IfNone own (self.new.searches ≡ min (self.old.searches + 1) (2 ^ 32 - 1)) }
        ensures kept { IfOk result (λ taken. IsFalse taken → self.new.paths ≡ self.old.paths) }
        ensures cheaper { IfOk result (λ taken. IsTrue taken → IsCheaperWay table.now self.new.loads.value (demand_at table.now demand.0) own (path_at (with_paths self.new.paths.items) demand.0)) }
        ensures none { IfOk result (λ taken. IsFalse taken → IfNone own (HasNoWay table.now self.new.loads.value (demand_at table.now demand.0))) }
    {
        if let Some(0) = own {
            return Ok(false);
        }
        let Some(_rise) = self.search(table, demand, own)? else {
            return Ok(false);
        };
        self.take_path(table, demand);
        Ok(true)
    }

    /// Moves a demand to the path within its limit that raises the step costs least, where that is cheaper than its own.
    pub fn reroute(&mut self, table: &StepTable, demand: DemandId) -> Result<bool, AllocError>
        requires demand { demand.0 < length table.now.demands }
        requires routing { IsRouting table.now self.old }
        ensures routing { IsRouting table.now self.new }
        ensures on { OnOk result (is_marked self.new.laid.items demand.0 ≡ true) }
        ensures cost { OnOk result (IsMoved table.now demand.0 self.old self.new) }
        ensures kept { IfOk result (λ helps. IsFalse helps → self.new.paths ≡ self.old.paths) }
        ensures no_fewer { self.old.searches ≤ self.new.searches }
        ensures one_more { self.new.searches ≤ self.old.searches + 1 }
    {
        let own = self.take_off(table, demand, true);
        let helps = self.take_cheaper(table, demand, own)?;
        match own {
            Some(_) if !helps => self.lay(table, demand, own),
            _ => self.put_on(table, demand),
        }
        Ok(helps)
    }

    /// Lays a demand on the path within its limit that raises the step costs least, where there is one whose links can carry
    /// it.
    pub fn lay_least(&mut self, table: &StepTable, demand: DemandId) -> Result<bool, AllocError>
        requires demand { demand.0 < length table.now.demands }
        requires routing { IsRouting table.now self.old }
        ensures routing { IsRouting table.now self.new }
        ensures searches { self.new.searches ≡ min (self.old.searches + 1) (2 ^ 32 - 1) }
        ensures on { IfOk result (λ found. IsTrue found → is_marked self.new.laid.items demand.0 ≡ true) }
        ensures cost { IfOk result (λ found. IsTrue found → IsMoved table.now demand.0 self.old self.new) }
        ensures without { IfOk result (λ found. IsFalse found → IsCostWithout table.now self.old demand.0 self.new.loads.value self.new.cost) }
        ensures stuck { IfOk result (λ found. IsFalse found → IsStuck table.now) }
    {
        let _fall = self.take_off(table, demand, false);
        let found = self.take_cheaper(table, demand, None)?;
        if found {
            self.put_on(table, demand);
        }
        Ok(found)
    }

    /// Lays a demand on a path of least weight within its limit, where far more load is looked at too.
    #[tactic(auto, using(crate::proofs::WeighedLaws::least_way_simple))]
    pub fn lay_far(
        &mut self,
        table: &StepTable,
        demand: DemandId,
        far: u128,
    ) -> Result<bool, AllocError>
        requires demand { demand.0 < length table.now.demands }
        requires routing { IsRouting table.now self.old }
        ensures routing { IsRouting table.now self.new }
        ensures searches { self.new.searches ≡ min (self.old.searches + 1) (2 ^ 32 - 1) }
        ensures on { IfOk result (λ found. IsTrue found → is_marked self.new.laid.items demand.0 ≡ true) }
        ensures off { IfOk result (λ found. IsFalse found → is_marked self.new.laid.items demand.0 ≡ false) }
        ensures cost { IfOk result (λ found. IsTrue found → IsMoved table.now demand.0 self.old self.new) }
        ensures without { IfOk result (λ found. IsFalse found → IsCostWithout table.now self.old demand.0 self.new.loads.value self.new.cost) }
    {
        let _fall = self.take_off(table, demand, false);
        let Some(_weight) = self.search_far(table, demand, far)? else {
            return Ok(false);
        };
        self.take_path(table, demand);
        self.put_on(table, demand);
        Ok(true)
    }

    /// Lays a demand on this path, in place of its own.
    pub fn set_back(
        &mut self,
        table: &StepTable,
        demand: DemandId,
        path: &Path,
    ) -> Result<(), AllocError>
        requires demand { demand.0 < length table.now.demands }
        requires routing { IsRouting table.now self.old }
        requires path { IsPathOf table.now demand.0 path.now }
        ensures routing { OnOk result (IsRouting table.now self.new) }
        ensures searches { self.new.searches ≡ self.old.searches }
        ensures on { OnOk result (is_marked self.new.laid.items demand.0 ≡ true) }
        ensures cost { OnOk result (IsMoved table.now demand.0 self.old self.new) }
        ensures path { OnOk result (self.new.paths.items ≡ slice_set self.old.paths.items demand.0 path.now) }
    {
        let _fall = self.take_off(table, demand, false);
        set_path(&mut self.paths, demand, path)?;
        self.put_on(table, demand);
        Ok(())
    }
}
