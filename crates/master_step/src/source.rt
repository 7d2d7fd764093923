//! The columns that a step chooses among.

ghost use Rattle.std.specs.Prelude.{◌≡◌, ◌<◌, ◌≤◌, ◌*◌, ◌+◌, [], length, slice_index_or, Option, Some};
ghost use Rattle.plan_base.specs.Facts.{price_limit};
ghost use Rattle.plan_base.specs.Arcs.{demand_at};
ghost use Rattle.plan_base.specs.Paths.{IsSimplePath};
ghost use Rattle.bound_assembly.specs.declared.limits.TheConstants.{MAX_PATH_LINKS};
ghost use Rattle.master_step.specs.Columns.{least_column, least_price};
ghost use Rattle.master_step.specs.Choosing.{list_count, all_of, is_allowed, allowed_of, AreWithinLimit, HasColumns, IsSource, IsLeastOf, cheaper_of};

use arc_restrict::{Restriction, price_along};
use column_pool::ColumnPool;
use plan_base::{DemandId, Instance, Items, Path, Prices};

/// The columns of all demands.
#[derive(Clone, Copy)]
pub enum Source<'a> {
    /// One list for each demand.
    Lists(&'a [Items<Path>]),
    /// What the restriction permits of the pool's columns.
    Pool(&'a ColumnPool, &'a Restriction),
}

/// Which column is the least, and its price in thousandths of a cost grain per load grain.
#[derive(Clone, Copy)]
pub struct Least {
    pub place: usize,
    pub price: u128,
}

/// The cheaper of two, the first of them where both cost the same.
fn cheaper(held: Option<Least>, next: Least) -> Least
    ensures { result ≡ cheaper_of held next }
{
    match held {
        Some(least) if next.price >= least.price => least,
        _ => next,
    }
}

impl<'a> Source<'a> {
    /// How many columns the demand has, permitted or not.
    fn count(&self, demand: DemandId) -> usize
        requires { demand.0 < list_count self.now }
        ensures { result ≡ length (all_of self.now demand.0) }
    {
        match self {
            Source::Lists(lists) => lists[demand.0 as usize].len(),
            Source::Pool(pool, _) => pool.count(demand) as usize,
        }
    }

    /// The column at a place.
    fn path(&self, demand: DemandId, place: usize) -> &'a Path
        requires demand { demand.0 < list_count self.now }
        requires place { place < length (all_of self.now demand.0) }
        ensures { result.now ≡ slice_index_or (all_of self.now demand.0) place [] }
    {
        match self {
            Source::Lists(lists) => &lists[demand.0 as usize].as_slice()[place],
            Source::Pool(pool, _) => {
                let _count = pool.count(demand);
                pool.column(demand, place as u32)
            }
        }
    }

    /// Whether the demand may take the path.
    fn allows(&self, demand: DemandId, path: &Path) -> bool
        ensures { result ≡ is_allowed self.now demand.0 path.now }
    {
        match self {
            Source::Lists(_) => true,
            Source::Pool(_, restriction) => restriction.permits(demand, path),
        }
    }

    /// The least of the columns before a place, and the one at that place.
    fn look(
        &self,
        inst: &Instance,
        demand: DemandId,
        prices: &[u128],
        place: usize,
        least: Option<Least>,
    ) -> Option<Least>
        requires demand { demand.0 < length inst.now.demands }
        requires source { IsSource inst.now self.now }
        requires limit { AreWithinLimit inst.now prices.now }
        requires place { place < length (all_of self.now demand.0) }
        requires least { IsLeastOf inst.now prices.now (is_allowed self.now demand.0) (all_of self.now demand.0) place least }
        ensures { IsLeastOf inst.now prices.now (is_allowed self.now demand.0) (all_of self.now demand.0) (place + 1) result }
    {
        inst.lawful();
        let path = self.path(demand, place);
        if !self.allows(demand, path) {
            return least;
        }
        let price = price_along(inst, prices, path.as_slice());
        Some(cheaper(least, Least { place, price }))
    }

    /// The least of all columns that the demand may take, if there is one.
    fn least(&self, inst: &Instance, demand: DemandId, prices: &[u128]) -> Option<Least>
        requires demand { demand.0 < length inst.now.demands }
        requires source { IsSource inst.now self.now }
        requires limit { AreWithinLimit inst.now prices.now }
        ensures { IsLeastOf inst.now prices.now (is_allowed self.now demand.0) (all_of self.now demand.0) (length (all_of self.now demand.0)) result }
    {
        let mut least = None;
        for place in 0..self.count(demand) {
            least = self.look(inst, demand, prices, place, least);
        }
        least
    }

    /// The first column of least price that the demand may take, and that price.
    pub fn column(&self, inst: &Instance, demand: DemandId, prices: &Prices) -> (&'a Path, u128)
        requires demand { demand.0 < length inst.now.demands }
        requires source { IsSource inst.now self.now }
        requires columns { HasColumns inst.now (allowed_of self.now) }
        requires limit { AreWithinLimit inst.now prices.now }
        ensures path { result.0.now ≡ least_column inst.now prices.now (allowed_of self.now demand.0) }
        ensures price { result.1 ≡ least_price inst.now prices.now (allowed_of self.now demand.0) }
        ensures simple { IsSimplePath inst.now (demand_at inst.now demand.0) result.0.now }
        ensures within { result.1 ≤ MAX_PATH_LINKS * price_limit inst.now }
    {
        inst.lawful();
        match self.least(inst, demand, prices.as_slice()) {
            Some(least) => (self.path(demand, least.place), least.price),
            None => unreachable!(),
        }
    }
}
