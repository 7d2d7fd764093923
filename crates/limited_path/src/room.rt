//! Searches that take no memory.

ghost use Rattle.std.specs.Prelude.{◌≡◌, ◌<◌, [], IsOk, IfOk, IfSome, IfNone};
ghost use Rattle.least_path.specs.Paths.{AreWeights};
ghost use Rattle.limited_path.specs.Within.{IsLeastWithin, HasNoneWithin};
ghost use Rattle.limited_path.specs.Rooms.{HasMemoryFor};

use crate::rounds::{Query, enough_rounds};
use crate::ways::Ways;
use plan_base::{ArcId, Instance, NodeId, Path};
use std::alloc::{AllocError, Global};
use std::marker::Model;
use std::mem;

/// Room for one search after the other, and the path that is in it.
#[derive(Debug, Drop)]
pub struct Room {
    ways: Ways,
    arcs: Vec<ArcId>,
}

impl Model for Room {
    ghost use Rattle.std.specs.Prelude.{vec_capacity};
    ghost use Rattle.limited_path.specs.Rooms.{RoomValue};

    ghost Value = { RoomValue };

    ghost view = { λ a. record { path = a.arcs.items; arcs = vec_capacity a.arcs; labels = vec_capacity a.ways.labels; nodes = vec_capacity a.ways.latest } };
}

impl Room {
    /// Room for the nodes of an instance, with no path in it.
    ///
    /// - Errors: want of memory alone.
    pub fn new(alloc: Global, inst: &Instance) -> Result<Room, AllocError>
        ensures path { IfOk result (λ room. room.path ≡ []) }
        ensures memory { IfOk result (λ room. HasMemoryFor room inst.now.nodes) }
    {
        let nodes = inst.nodes();
        Ok(Room {
            ways: Ways::with_room(alloc, nodes)?,
            arcs: Vec::with_capacity(alloc, nodes as usize)?,
        })
    }

    /// Takes memory where there is too little for a search among so many nodes. The path stays.
    fn make_room(&mut self, inst: &Instance) -> Result<(), AllocError>
        ensures path { self.new.path ≡ self.old.path }
        ensures room { IfOk result (λ _. HasMemoryFor self.new inst.now.nodes) }
        ensures memory { HasMemoryFor self.old inst.now.nodes → IsOk result }
    {
        let nodes = inst.nodes();
        self.ways.make_room(nodes)?;
        let more = (nodes as usize).saturating_sub(self.arcs.len());
        self.arcs.reserve(more)?;
        Ok(())
    }

    /// Puts a path of least weight among those of at most so many arcs from the source to the target into the room, and
    /// gives its weight; None where no path of usable arcs has at most so many.
    ///
    /// - Takes: for each arc number, twice the count of links, the weight of that arc; none where the arc may not be
    ///   used. Weights have the unit that the caller gives them. An arc that does not exist is not used. `hops` counts
    ///   arcs and may be any number: no simple path has as many arcs as there are nodes.
    /// - Errors: want of memory alone, and none where the room has memory for the instance's nodes.
    /// - Rule: docs/METHOD.md, "Least paths of few arcs".
    /// - Time: the count of arcs times the smaller of `hops` and the count of nodes, at most.
    pub fn search_within(
        &mut self,
        inst: &Instance,
        weights: &[Option<u128>],
        source: NodeId,
        target: NodeId,
        hops: u64,
    ) -> Result<Option<u128>, AllocError>
        requires weights { AreWeights inst.now weights.now }
        requires source { source.0 < inst.now.nodes }
        requires target { target.0 < inst.now.nodes }
        ensures path { IfOk result (λ found. IfSome found (IsLeastWithin inst.now weights.now source target hops self.new.path)) }
        ensures none { IfOk result (λ found. IfNone found (HasNoneWithin inst.now weights.now source target hops)) }
        ensures kept { IfOk result (λ found. IfNone found (self.new.path ≡ self.old.path)) }
        ensures memory { HasMemoryFor self.old inst.now.nodes → IsOk result }
        ensures room { IfOk result (λ _. HasMemoryFor self.new inst.now.nodes) }
    {
        let nodes = inst.nodes();
        let _links = inst.links();
        self.make_room(inst)?;
        let query = Query {
            inst,
            weights,
            source,
        };
        self.ways.begin(nodes, source);
        query.rounds(&mut self.ways, enough_rounds(nodes, hops));
        let Some(place) = self.ways.latest[target.0 as usize] else {
            return Ok(None);
        };
        query.read_way(&self.ways, place, &mut self.arcs);
        Ok(Some(self.ways.labels[place].length))
    }

    /// Changes the path in the room for another one, each with its memory.
    pub fn swap(&mut self, path: &mut Path)
        ensures room { self.new.path ≡ path.old }
        ensures path { path.new ≡ self.old.path }
        ensures labels { self.new.labels ≡ self.old.labels }
        ensures nodes { self.new.nodes ≡ self.old.nodes }
    {
        let empty = Vec::new(*self.arcs.allocator());
        let arcs = mem::replace(&mut self.arcs, empty);
        self.arcs = mem::replace(path, Path::from_vec(arcs)).into_vec();
    }

    /// The arcs of the path in the room.
    pub fn path(&self) -> &[ArcId]
        ensures { result.now ≡ self.now.path }
    {
        &self.arcs
    }
}
