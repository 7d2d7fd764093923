//! Least paths among those that keep a demand's limit.

ghost use Rattle.std.specs.Prelude.{◌≡◌, ◌<◌, ◌*◌, length, Some, IfOk, OnOk, IfSome, IfNone};
ghost use Rattle.least_path.specs.Paths.{AreWeights, IsBelow};
ghost use Rattle.demand_routing.specs.Kept.{IsLeastKept, HasNoneKept, HasNoneKeptBelow};

use least_path::{Room, Weigher};
use plan_base::{ArcId, Demand, Instance, Path};
use std::alloc::{AllocError, Global};
use std::marker::Model;

/// Sets the list to the weights of all arc numbers.
#[tactic(auto, using(crate::proofs::KeptLaws::weights_more, crate::proofs::KeptLaws::weights_all, crate::proofs::KeptLaws::weights_fit))]
fn list_weights<W: Weigher>(
    weights: &mut Vec<Option<u128>>,
    inst: &Instance,
    weigher: &W,
) -> Result<(), AllocError>
    requires fits { W.fits weigher.now }
    requires count { length (W.weights weigher.now) ≡ 2 * length inst.now.links }
    ensures weights { OnOk result (weights.new.items ≡ W.weights weigher.now) }
    ensures are { OnOk result (AreWeights inst.now weights.new.items) }
{
    weights.clear();
    weights.reserve(inst.arcs() as usize)?;
    for number in 0..inst.arcs() {
        weights.push(weigher.weight(ArcId(number)))?;
    }
    Ok(())
}

/// Exchanges the paths in two rooms, each with its memory.
fn exchange(alloc: Global, room: &mut Room, rounds: &mut limited_path::Room)
    ensures { room.new ≡ rounds.old.path }
{
    let mut path = Path::from_vec(Vec::new(alloc));
    rounds.swap(&mut path);
    room.swap(&mut path);
    rounds.swap(&mut path);
}

/// Room for searches of a demand's least path within its limit, and the path that is in it.
#[derive(Debug, Drop)]
pub struct LimitedRoom {
    room: Room,
    /// For each arc number what it weighed in the latest search by rounds; none where it could not be used.
    weights: Vec<Option<u128>>,
    /// Room for searches by rounds, made where the first path is found that has too many arcs.
    rounds: Option<limited_path::Room>,
}

impl Model for LimitedRoom {
    ghost use Rattle.std.specs.Prelude.{List};
    ghost use Rattle.plan_base.specs.declared.ids.ArcId.{ArcId};

    ghost Value = { List ArcId };

    ghost view = { λ a. a.room };
}

impl LimitedRoom {
    /// Room for the nodes of an instance. That for searches by rounds is made where one is needed.
    pub fn new(alloc: Global, inst: &Instance) -> Result<LimitedRoom, AllocError> {
        Ok(LimitedRoom {
            room: Room::new(alloc, inst)?,
            weights: Vec::new(alloc),
            rounds: None,
        })
    }

    /// Puts a path of least weight among the demand's paths of at most so many arcs into the room, and gives its weight;
    /// None where no path of usable arcs has at most so many.
    #[tactic(auto, using(crate::proofs::KeptLaws::within_kept, crate::proofs::KeptLaws::none_within_kept))]
    fn search_by_rounds<W: Weigher>(
        &mut self,
        inst: &Instance,
        weigher: &W,
        demand: &Demand,
        limit: u64,
    ) -> Result<Option<u128>, AllocError>
        requires fits { W.fits weigher.now }
        requires count { length (W.weights weigher.now) ≡ 2 * length inst.now.links }
        requires source { demand.now.source.0 < inst.now.nodes }
        requires target { demand.now.target.0 < inst.now.nodes }
        requires limit { demand.now.hops ≡ Some limit }
        ensures path { IfOk result (λ found. IfSome found (IsLeastKept inst.now (W.weights weigher.now) demand.now self.new)) }
        ensures none { IfOk result (λ found. IfNone found (HasNoneKept inst.now (W.weights weigher.now) demand.now)) }
    {
        let alloc = *self.weights.allocator();
        list_weights(&mut self.weights, inst, weigher)?;
        let mut rounds = match self.rounds.take() {
            Some(rounds) => rounds,
            None => limited_path::Room::new(alloc, inst)?,
        };
        let found = rounds.search_within(inst, &self.weights, demand.source, demand.target, limit)?;
        exchange(alloc, &mut self.room, &mut rounds);
        self.rounds = Some(rounds);
        Ok(found)
    }

    /// Puts a path of least weight among those that keep the demand's limit into the room, and gives its weight, where
    /// that is below a bound; None where no path of usable arcs that keeps the limit weighs less than that.
    ///
    /// - Takes: what the arcs weigh; the bound in the unit of the weights, or none.
    /// - Errors: want of memory alone.
    /// - Time: that of `Room::search_below`, where the path that it finds keeps the limit; else also that of
    ///   `limited_path::Room::search_within`.
    #[tactic(auto, using(crate::proofs::KeptLaws::unlimited_kept, crate::proofs::KeptLaws::short_kept, crate::proofs::KeptLaws::none_below_kept, crate::proofs::KeptLaws::none_kept, crate::proofs::KeptLaws::least_not_below))]
    pub fn search_below<W: Weigher>(
        &mut self,
        inst: &Instance,
        weigher: &W,
        demand: &Demand,
        bound: Option<u128>,
    ) -> Result<Option<u128>, AllocError>
        requires fits { W.fits weigher.now }
        requires count { length (W.weights weigher.now) ≡ 2 * length inst.now.links }
        requires source { demand.now.source.0 < inst.now.nodes }
        requires target { demand.now.target.0 < inst.now.nodes }
        ensures path { IfOk result (λ found. IfSome found (IsLeastKept inst.now (W.weights weigher.now) demand.now self.new)) }
        ensures below { IfOk result (λ found. IfSome found (IsBelow bound)) }
        ensures none { IfOk result (λ found. IfNone found (HasNoneKeptBelow inst.now (W.weights weigher.now) demand.now bound)) }
    {
        let Some(weight) = self
            .room
            .search_below(inst, weigher, demand.source, demand.target, bound)?
        else {
            return Ok(None);
        };
        let Some(limit) = demand.hops else {
            return Ok(Some(weight));
        };
        if self.room.path().as_slice().len() as u64 <= limit {
            return Ok(Some(weight));
        }
        let Some(weight) = self.search_by_rounds(inst, weigher, demand, limit)? else {
            return Ok(None);
        };
        match bound {
            Some(bound) if bound <= weight => Ok(None),
            _ => Ok(Some(weight)),
        }
    }

    /// Changes the path in the room for another one, each with its memory.
    pub fn swap(&mut self, path: &mut Path)
        ensures room { self.new ≡ path.old }
        ensures path { path.new ≡ self.old }
    {
        self.room.swap(path);
    }
}
