//! Paths that are negotiated: links may carry more than they can, at a price that rises from round to round.

ghost use Rattle.std.specs.Prelude.{◌≡◌, ◌<◌, length, All, IfOk, OnOk, IfSome, IsTrue};
ghost use Rattle.plan_base.specs.Arcs.{demand_at};
ghost use Rattle.plan_base.specs.Facts.{IsDemand};
ghost use Rattle.plan_base.specs.Paths.{IsSimplePath};
ghost use Rattle.least_path.specs.Paths.{AreWeights};
ghost use Rattle.completions.specs.Completions.{ArePaths};
ghost use Rattle.demand_routing.specs.Routings.{IsRouting};

use crate::laying::largest_first;
use crate::tolls::{Toll, first_tolls, has_over, list_weights, raise_all};
use demand_routing::{Routing, roomy_copies};
use least_path::Room;
use link_steps::StepTable;
use plan_base::{Demand, DemandId, Instance, Items, Path};
use std::alloc::{AllocError, Global};

/// The most rounds.
const MOST_ROUNDS: u32 = 128;

/// The most searches of all rounds together.
const MOST_SEARCHES: u32 = 20_000;

/// What a load grain too much asks in the first round; in each later one a sixteenth more.
const FIRST_PRESSURE: u128 = 16;

/// Whether a demand has a limit on arcs.
fn has_limits(inst: &Instance) -> bool {
    (0..inst.demands()).any(|place| inst.demand(DemandId(place)).hops.is_some())
}

/// Room for searches, and the path of the latest one.
#[derive(Drop)]
struct Scout {
    room: Room,
    /// Room for searches within limits, where a demand has one: it takes memory for each pair of nodes.
    limited: Option<limited_path::Room>,
    path: Path,
}

impl Scout {
    /// Room for the nodes of an instance.
    fn new(alloc: Global, inst: &Instance) -> Result<Scout, AllocError> {
        let limited = if has_limits(inst) {
            Some(limited_path::Room::new(alloc, inst)?)
        } else {
            None
        };
        Ok(Scout {
            room: Room::new(alloc, inst)?,
            limited,
            path: Path::from_vec(Vec::with_capacity(alloc, inst.nodes() as usize)?),
        })
    }

    /// Finds a path of least weight among those of at most so many arcs, where there is one.
    #[tactic(auto, using(crate::proofs::ScoutLaws::least_within_simple))]
    fn find_within(
        &mut self,
        inst: &Instance,
        weights: &[Option<u128>],
        demand: &Demand,
        hops: u64,
    ) -> Result<bool, AllocError>
        requires weights { AreWeights inst.now weights.now }
        requires demand { IsDemand inst.now.nodes demand.now }
        ensures { IfOk result (λ found. IsTrue found → IsSimplePath inst.now demand.now self.new.path) }
    {
        let Some(room) = &mut self.limited else {
            return Ok(false);
        };
        let Some(_weight) = room.search_within(inst, weights, demand.source, demand.target, hops)?
        else {
            return Ok(false);
        };
        room.swap(&mut self.path);
        Ok(true)
    }

    /// Finds a path of least weight among those that keep the demand's limit, where there is one.
    #[tactic(auto, using(crate::proofs::ScoutLaws::least_simple))]
    fn find(
        &mut self,
        inst: &Instance,
        weights: &[Option<u128>],
        demand: &Demand,
    ) -> Result<bool, AllocError>
        requires weights { AreWeights inst.now weights.now }
        requires demand { IsDemand inst.now.nodes demand.now }
        ensures { IfOk result (λ found. IsTrue found → IsSimplePath inst.now demand.now self.new.path) }
    {
        if let Some(hops) = demand.hops {
            return self.find_within(inst, weights, demand, hops);
        }
        let Some(_weight) = self
            .room
            .search(inst, weights, demand.source, demand.target)?
        else {
            return Ok(false);
        };
        self.room.swap(&mut self.path);
        Ok(true)
    }
}

/// What a negotiation works on.
#[derive(Drop)]
struct Negotiation {
    routing: Routing,
    /// What each link asks for, in order.
    tolls: Vec<Toll>,
    /// What a load grain too much asks.
    pressure: u128,
    /// How many searches there were.
    searches: u32,
    /// What each arc asks for in the latest search.
    weights: Vec<Option<u128>>,
    scout: Scout,
}

/// The routing of copies of these paths, of which none is laid.
fn empty_routing(alloc: Global, inst: &Instance, paths: &Items<Path>) -> Result<Routing, AllocError>
    requires { ArePaths inst.now paths.now }
    ensures { IfOk result (IsRouting inst.now) }
{
    let copies = roomy_copies(alloc, inst, paths.as_slice())?;
    Routing::new(alloc, inst, copies)
}

impl Negotiation {
    /// The negotiation before its first round: none of these paths is laid.
    fn new(alloc: Global, table: &StepTable, paths: &Items<Path>) -> Result<Negotiation, AllocError>
        requires paths { ArePaths table.now paths.now }
        ensures { IfOk result (λ negotiation. IsRouting table.now negotiation.routing) }
    {
        let inst = table.instance();
        Ok(Negotiation {
            tolls: first_tolls(alloc, table)?,
            pressure: FIRST_PRESSURE,
            searches: 0,
            weights: Vec::with_capacity(alloc, inst.arcs() as usize)?,
            scout: Scout::new(alloc, inst)?,
            routing: empty_routing(alloc, inst, paths)?,
        })
    }

    /// Finds the path that asks least for a demand, beside what the places carry; false where there is none.
    fn find(&mut self, inst: &Instance, demand: DemandId) -> Result<bool, AllocError>
        requires demand { demand.0 < length inst.now.demands }
        ensures routing { self.new.routing ≡ self.old.routing }
        ensures path { IfOk result (λ found. IsTrue found → IsSimplePath inst.now (demand_at inst.now demand.0) self.new.scout.path) }
    {
        let demand = inst.demand(demand);
        list_weights(
            &mut self.weights,
            inst,
            &self.routing.loads,
            &self.tolls,
            self.pressure,
            demand.load,
        )?;
        self.scout.find(inst, &self.weights, demand)
    }

    /// Lays a demand on the path that asks least; false where there is none, or where the searches are spent.
    fn lay(&mut self, table: &StepTable, demand: DemandId) -> Result<bool, AllocError>
        requires demand { demand.0 < length table.now.demands }
        requires routing { IsRouting table.now self.old.routing }
        ensures routing { OnOk result (IsRouting table.now self.new.routing) }
    {
        let inst = table.instance();
        if self.searches >= MOST_SEARCHES {
            return Ok(false);
        }
        self.searches += 1;
        let _fall = self.routing.take_off(table, demand, false);
        if !self.find(inst, demand)? {
            return Ok(false);
        }
        self.routing.set_back(table, demand, &self.scout.path)?;
        Ok(true)
    }

    /// Whether the path of a demand goes along a link that carries more than it can.
    fn is_overfull(&self, inst: &Instance, demand: DemandId) -> bool {
        match self.routing.paths.get(demand.0 as usize) {
            Some(path) => has_over(inst, &self.routing.loads, &self.tolls, path.as_slice()),
            None => false,
        }
    }

    /// One round: lays the demands of this order one by one, in the first round all and later those whose paths go along
    /// links that carry more than they can; false where that cannot go on.
    fn go_round(
        &mut self,
        table: &StepTable,
        order: &[(u128, u32)],
        is_first: bool,
    ) -> Result<bool, AllocError>
        requires order { All (λ key. key.1 < length table.now.demands) order.now }
        requires routing { IsRouting table.now self.old.routing }
        ensures routing { OnOk result (IsRouting table.now self.new.routing) }
    {
        let inst = table.instance();
        for (_size, place) in order {
            let demand = DemandId(*place);
            let is_moved = is_first || self.is_overfull(inst, demand);
            if is_moved && !self.lay(table, demand)? {
                return Ok(false);
            }
        }
        Ok(true)
    }

    /// Raises the prices of the links that carry more than they can, and what a load grain too much asks; false where
    /// there is no such link.
    fn raise(&mut self, inst: &Instance) -> bool
        ensures { self.new.routing ≡ self.old.routing }
    {
        self.pressure = self.pressure.saturating_add(self.pressure / 16);
        raise_all(inst, &self.routing.loads, &mut self.tolls)
    }

    /// Goes rounds until all links are left with what they can carry; false where no round leaves them so.
    fn settle(&mut self, table: &StepTable, order: &[(u128, u32)]) -> Result<bool, AllocError>
        requires order { All (λ key. key.1 < length table.now.demands) order.now }
        requires routing { IsRouting table.now self.old.routing }
        ensures routing { OnOk result (IsRouting table.now self.new.routing) }
    {
        let inst = table.instance();
        for round in 0..MOST_ROUNDS {
            if !self.go_round(table, order, round == 0)? {
                return Ok(false);
            }
            if !self.raise(inst) {
                return Ok(true);
            }
        }
        Ok(false)
    }
}

/// Paths that are negotiated by rounds in this order. None as `negotiated`.
fn negotiated_in_order(
    alloc: Global,
    table: &StepTable,
    paths: &Items<Path>,
    order: &[(u128, u32)],
) -> Result<Option<Items<Path>>, AllocError>
    requires paths { ArePaths table.now paths.now }
    requires order { All (λ key. key.1 < length table.now.demands) order.now }
    ensures { IfOk result (λ found. IfSome found (ArePaths table.now)) }
{
    let mut negotiation = Negotiation::new(alloc, table, paths)?;
    if !negotiation.settle(table, order)? {
        return Ok(None);
    }
    Ok(Some(Items::from_vec(negotiation.routing.paths)))
}

/// Paths that are negotiated: in each round demands are laid one by one on the paths that ask least, the largest loads
/// first, where a load asks for its share of what the links cost, for what the rounds before taught, and for each load
/// grain too much. None where no round leaves all links with what they can carry.
///
/// - Takes: an instance and its step table; one simple path for each demand, in order.
/// - Gives: one simple path for each demand, in order, within its limit where the demand has one.
/// - Errors: want of memory alone.
/// - Time: at most 20,000 searches for a least path, in at most 128 rounds.
pub fn negotiated(
    alloc: Global,
    table: &StepTable,
    paths: &Items<Path>,
) -> Result<Option<Items<Path>>, AllocError>
    requires { ArePaths table.now paths.now }
    ensures { IfOk result (λ found. IfSome found (ArePaths table.now)) }
{
    let inst = table.instance();
    let order = largest_first(alloc, inst)?;
    negotiated_in_order(alloc, table, paths, order.as_slice())
}
