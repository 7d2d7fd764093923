//! Searches that take no memory.

ghost use Rattle.std.specs.Prelude.{◌≡◌, ◌<◌, ◌*◌, [], length, IfOk, IfSome, IfNone};
ghost use Rattle.least_path.specs.Paths.{AreWeights, IsLeastPath, IsBelow, HasNoUsablePath, HasNoneBelow};

use crate::label::Label;
use crate::queue::Queue;
use crate::spread::{Query, begin, is_below, most_waits};
use crate::weigher::{Listed, Weigher};
use plan_base::{Instance, NodeId, Path};
use std::alloc::{AllocError, Global};
use std::marker::Model;
use std::mem;

/// Room for one search after the other in one instance, and the path that is in it.
#[derive(Debug, Drop)]
pub struct Room {
    labels: Vec<Option<Label>>,
    queue: Queue,
    path: Path,
}

impl Model for Room {
    ghost use Rattle.std.specs.Prelude.{List};
    ghost use Rattle.plan_base.specs.declared.ids.ArcId.{ArcId};

    ghost Value = { List ArcId };

    ghost view = { λ a. a.path };
}

impl Room {
    /// Room for the nodes of an instance, with no path in it.
    ///
    /// - Errors: want of memory alone.
    pub fn new(alloc: Global, inst: &Instance) -> Result<Room, AllocError>
        ensures { IfOk result (λ room. room ≡ []) }
    {
        let nodes = inst.nodes() as usize;
        Ok(Room {
            labels: Vec::with_capacity(alloc, nodes)?,
            queue: Queue::with_room(alloc, most_waits(inst))?,
            path: Path::from_vec(Vec::with_capacity(alloc, nodes)?),
        })
    }

    /// Puts a path of least weight from the source to the target into the room, and gives its weight, where that is below
    /// the limit; None where no path of usable arcs weighs less than that.
    ///
    /// - Takes: what the arcs weigh; the limit in the unit of the weights, or none.
    /// - Errors: want of memory alone. None where the room was made for the instance, and the path that was in it has
    ///   memory for as many arcs as there are nodes.
    /// - Rule: docs/METHOD.md, "Least paths".
    /// - Time: as `search`, without potentials. Nodes at the limit or beyond are not looked at.
    pub fn search_below<W: Weigher>(
        &mut self,
        inst: &Instance,
        weigher: &W,
        source: NodeId,
        target: NodeId,
        limit: Option<u128>,
    ) -> Result<Option<u128>, AllocError>
        requires fits { W.fits weigher.now }
        requires count { length (W.weights weigher.now) ≡ 2 * length inst.now.links }
        requires source { source.0 < inst.now.nodes }
        requires target { target.0 < inst.now.nodes }
        ensures path { IfOk result (λ found. IfSome found (IsLeastPath inst.now (W.weights weigher.now) source target self.new)) }
        ensures below { IfOk result (λ found. IfSome found (IsBelow limit)) }
        ensures none { IfOk result (λ found. IfNone found (HasNoneBelow inst.now (W.weights weigher.now) source target limit)) }
        ensures kept { IfOk result (λ found. IfNone found (self.new ≡ self.old)) }
    {
        inst.lawful();
        if !is_below(0, limit) {
            return Ok(None);
        }
        let query = Query {
            inst,
            weigher,
            source,
            target,
            limit,
        };
        begin(&mut self.labels, &mut self.queue, inst.nodes(), source)?;
        let found = query.go_out(&mut self.labels, &mut self.queue)?;
        let Some(last) = found else {
            return Ok(None);
        };
        let empty = Path::from_vec(Vec::new(*self.labels.allocator()));
        let memory = mem::replace(&mut self.path, empty).into_vec();
        self.path = query.way_to(&self.labels, &last, memory)?;
        Ok(Some(last.label.length))
    }

    /// The same without a limit: None where there is no path of usable arcs.
    ///
    /// - Takes: what the arcs weigh.
    /// - Errors: as `search_below`.
    /// - Rule: docs/METHOD.md, "Least paths".
    /// - Time: as `search`, without potentials.
    pub fn search_by<W: Weigher>(
        &mut self,
        inst: &Instance,
        weigher: &W,
        source: NodeId,
        target: NodeId,
    ) -> Result<Option<u128>, AllocError>
        requires fits { W.fits weigher.now }
        requires count { length (W.weights weigher.now) ≡ 2 * length inst.now.links }
        requires source { source.0 < inst.now.nodes }
        requires target { target.0 < inst.now.nodes }
        ensures path { IfOk result (λ found. IfSome found (IsLeastPath inst.now (W.weights weigher.now) source target self.new)) }
        ensures none { IfOk result (λ found. IfNone found (HasNoUsablePath inst.now (W.weights weigher.now) source target)) }
        ensures kept { IfOk result (λ found. IfNone found (self.new ≡ self.old)) }
    {
        self.search_below(inst, weigher, source, target, None)
    }

    /// The same as `search_by`, of weights that stand in a list.
    ///
    /// - Takes: weights as `search` does.
    /// - Errors: as `search_by`.
    /// - Rule: docs/METHOD.md, "Least paths".
    /// - Time: as `search`, without potentials.
    pub fn search(
        &mut self,
        inst: &Instance,
        weights: &[Option<u128>],
        source: NodeId,
        target: NodeId,
    ) -> Result<Option<u128>, AllocError>
        requires weights { AreWeights inst.now weights.now }
        requires source { source.0 < inst.now.nodes }
        requires target { target.0 < inst.now.nodes }
        ensures path { IfOk result (λ found. IfSome found (IsLeastPath inst.now weights.now source target self.new)) }
        ensures none { IfOk result (λ found. IfNone found (HasNoUsablePath inst.now weights.now source target)) }
        ensures kept { IfOk result (λ found. IfNone found (self.new ≡ self.old)) }
    {
        self.search_by(inst, &Listed { weights }, source, target)
    }

    /// Changes the path in the room for another one, each with its memory.
    pub fn swap(&mut self, path: &mut Path)
        ensures room { self.new ≡ path.old }
        ensures path { path.new ≡ self.old }
    {
        mem::swap(&mut self.path, path);
    }

    /// The path in the room.
    pub fn path(&self) -> &Path
        ensures { result.now ≡ self.now }
    {
        &self.path
    }
}
