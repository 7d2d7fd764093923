//! What a worker keeps from one task to the next, and what it computes there. No lock is held meanwhile.

ghost use Rattle.std.specs.Prelude.{◌≡◌, ◌<◌, ◌≤◌, ◌/◌, ◌↔◌, length, IfOk, OnOk, IfSome, IsSome, IsSomeAnd, IsTrue, None};
ghost use Rattle.std.specs.Arc.{arc_value};
ghost use Rattle.plan_base.specs.Designs.{cost_of, IsGoodDesign};
ghost use Rattle.arc_restrict.specs.Rows.{forbids, HasSizeOf};
ghost use Rattle.cut_values.specs.Numbers.{AreNumbers};
ghost use Rattle.completions.specs.Completions.{ArePaths};
ghost use Rattle.incumbent.specs.Searches.{IsDue, IsOpening};
ghost use Rattle.search_worker.specs.Offers.{IsFor, IsFitting};

use crate::ground::Ground;
use crate::search::Search;
use crate::told::Told;
use arc_restrict::Restriction;
use cut_values::CutTable;
use dual_versions::Published;
use leaf_tasks::{Guide, new_design};
use link_steps::StepTable;
use plan_base::{BranchId, DemandId, Design, Instance, Items, Path};
use search_machine::Offer;
use std::alloc::{AllocError, Global};
use std::sync::Arc;

/// The version that a worker prices, and what it goes by: what demands have found, the trees of least paths of this
/// version, and its searches for designs.
///
/// What a demand has found is kept from node to node. It is a hint, tested before it is used again, and where it fails
/// the tree of the demand's source is at hand. So nothing is kept for the children of a node that is divided: another
/// worker may take them, and this one would never let go of it.
#[derive(Drop)]
pub struct Bench<N: Search> {
    alloc: Global,
    ground: Option<Ground<N>>,
    guide: Guide,
}

impl<N: Search> Bench<N> {
    /// A bench with nothing on it.
    ///
    /// - Takes: the worker's number, and how many workers there are. The searches for designs are dealt out to them, and
    ///   draw by the number, so that workers with the same columns find different designs.
    pub fn new(alloc: Global, worker: u32, workers: u32) -> Bench<N>
        requires { worker < workers }
        ensures ground { result.ground ≡ None }
        ensures designs { IsOpening worker workers result.guide.designs }
    {
        Bench {
            alloc,
            ground: None,
            guide: Guide::new(alloc, worker, workers),
        }
    }

    /// Whether the bench has the prices and rates of the version of the node, and what is forbidden there.
    pub fn has(&self, node: BranchId, version: u64) -> bool
        ensures { IsTrue result ↔ IsSomeAnd self.now.ground (λ ground. (ground.published.node ≡ node) × (ground.published.version ≡ version)) }
    {
        match &self.ground {
            Some(ground) => ground.is_of(node, version),
            None => false,
        }
    }

    /// Puts what came out of the lock on the bench, where it fits the instance and the cuts.
    pub fn put(
        &mut self,
        inst: &Instance,
        table: &CutTable,
        published: Published,
        rows: Arc<Restriction>,
    )
        requires inst { inst.now ≡ N.problem }
        requires problem { table.now.problem ≡ N.problem }
        requires cuts { table.now.cuts ≡ N.cuts }
        ensures some { IsSome self.new.ground ↔ AreNumbers inst.now table.now.cuts published.prices × HasSizeOf inst.now (arc_value rows) }
        ensures ground { IfSome self.new.ground (λ ground. (ground.published ≡ published) × (ground.rows ≡ rows)) }
    {
        self.ground = Ground::tested(inst, table, published, rows);
    }

    /// What the demand finds under the version of the node, to be handed in.
    ///
    /// - Gives: None where the bench has not got this version, or there is no such demand.
    /// - Errors: want of memory alone.
    pub fn offer(
        &mut self,
        inst: &Instance,
        node: BranchId,
        version: u64,
        demand: DemandId,
    ) -> Result<Option<Offer>, AllocError>
        requires inst { inst.now ≡ N.problem }
        ensures made { IfOk result (λ made. IsSome made ↔ IsSomeAnd self.old.ground (λ ground. (ground.published.node ≡ node) × (ground.published.version ≡ version))
            × (demand.0 < length inst.now.demands)) }
        ensures task { IfOk result (λ made. IfSome made (IsFor node version demand)) }
        ensures fits { IfOk result (λ made. IfSome made (λ offer. IsSomeAnd self.old.ground
            (λ ground. IsFitting inst.now ground.published (forbids (arc_value ground.rows)) offer))) }
    {
        let Bench {
            alloc: _alloc,
            ground,
            guide,
        } = self;
        let Some(ground) = ground else {
            return Ok(None);
        };
        if !ground.is_of(node, version) || demand.0 >= inst.demands() {
            return Ok(None);
        }
        Ok(Some(Offer {
            node,
            version,
            demand,
            found: ground.found(inst, demand, guide)?,
        }))
    }

    /// Whether a search for a design is due for this worker.
    pub fn is_design_due(&mut self, told: &Told<N>) -> bool
        ensures due { IsTrue result ↔ IsDue self.old.guide.designs.seats self.old.guide.designs.place (told.now.brief.node.0 / 2) }
        ensures ground { self.new.ground ≡ self.old.ground }
    {
        self.guide.designs().is_due(told.examined())
    }

    /// Lets the worker's later searches begin with this design, where it is cheaper than its own.
    ///
    /// - Errors: want of memory alone.
    pub fn learn(&mut self, inst: &Instance, design: &Design) -> Result<(), AllocError>
        ensures learnt { OnOk result (IsGoodDesign inst.now design.now → IsSomeAnd self.new.guide.designs.best (λ best. cost_of inst.now best ≤ cost_of inst.now design.now)) }
        ensures ground { self.new.ground ≡ self.old.ground }
    {
        self.guide.designs().learn(inst, design)
    }

    /// A design that a search finds, which begins with these paths, or with the cheapest design that this worker knows.
    ///
    /// - Takes: what a master step is told of, which says how many nodes are examined.
    /// - Gives: None where no search of this worker is due, or there is no design to begin with.
    /// - Errors: want of memory alone.
    pub fn design(
        &mut self,
        table: &StepTable,
        told: &Told<N>,
        paths: &Items<Path>,
    ) -> Result<Option<Design>, AllocError>
        requires { ArePaths table.now paths.now }
        ensures { IfOk result (λ found. IfSome found (IsGoodDesign table.now)) }
    {
        new_design(
            self.alloc,
            table,
            paths,
            told.examined(),
            self.guide.designs(),
        )
    }
}
