//! What a worker prices by: it came out of the lock, and was tested.

ghost use Rattle.std.specs.Prelude.{◌≡◌, ◌<◌, ◌↔◌, length, IsTrue, IfOk, IfSome, IsSome, None};
ghost use Rattle.std.specs.Arc.{arc_value};
ghost use Rattle.arc_restrict.specs.Rows.{forbids, HasSizeOf};
ghost use Rattle.cut_values.specs.Numbers.{AreNumbers};
ghost use Rattle.path_pricing.specs.Faults.{priced_fault};

use crate::search::Search;
use arc_restrict::Restriction;
use cut_values::CutTable;
use dual_versions::Published;
use leaf_tasks::{Guide, copy_of};
use path_pricing::{Priced, Query};
use plan_base::{BranchId, DemandId, Instance};
use std::alloc::AllocError;
use std::marker::PhantomData;
use std::sync::Arc;

/// The prices and rates of one version of a node, and what is forbidden at the node. They fit the instance and the cuts of
/// the search.
#[derive(Drop)]
pub struct Ground<N: Search> {
    published: Published,
    rows: Arc<Restriction>,
    of: PhantomData<N>,
    ghost prices_fit: { AreNumbers N.problem N.cuts published.prices },
    ghost rows_fit: { HasSizeOf N.problem (arc_value rows) },
}

impl<N: Search> Ground<N> {
    /// What came out of the lock, where it fits the instance and the cuts.
    pub fn tested(
        inst: &Instance,
        table: &CutTable,
        published: Published,
        rows: Arc<Restriction>,
    ) -> Option<Ground<N>>
        requires inst { inst.now ≡ N.problem }
        requires problem { table.now.problem ≡ N.problem }
        requires cuts { table.now.cuts ≡ N.cuts }
        ensures some { IsSome result ↔ AreNumbers inst.now table.now.cuts published.prices × HasSizeOf inst.now (arc_value rows) }
        ensures published { IfSome result (λ ground. ground.published ≡ published) }
        ensures rows { IfSome result (λ ground. ground.rows ≡ rows) }
    {
        if !table.are_numbers(&published.prices) {
            return None;
        }
        if !rows.fits(inst) {
            return None;
        }
        Some(Ground {
            published,
            rows,
            of: PhantomData,
        })
    }

    /// Whether this is of the version of the node.
    pub fn is_of(&self, node: BranchId, version: u64) -> bool
        ensures { IsTrue result ↔ (self.now.published.node ≡ node) × (self.now.published.version ≡ version) }
    {
        self.published.node == node && self.published.version == version
    }

    /// What the demand finds here, which the guide keeps to be tried again.
    ///
    /// - Errors: want of memory alone.
    #[tactic(auto, using(crate::proofs::NumberPrices::numbers_priced))]
    pub fn found(
        &self,
        inst: &Instance,
        demand: DemandId,
        guide: &mut Guide,
    ) -> Result<Priced, AllocError>
        requires inst { inst.now ≡ N.problem }
        requires demand { demand.0 < length inst.now.demands }
        ensures { IfOk result (λ found. priced_fault inst.now self.now.published.prices demand.0
            (forbids (arc_value self.now.rows)) found ≡ None) }
    {
        let query = Query {
            inst,
            prices: &self.published.prices,
            demand,
            restriction: &*self.rows,
        };
        let known = guide.find(query, self.published.version)?;
        let found = copy_of(&*known)?;
        guide.keep(demand, known)?;
        Ok(found)
    }
}
