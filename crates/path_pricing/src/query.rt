//! What is asked: the least price of one demand.

ghost use Rattle.std.specs.Prelude.{◌≡◌, ◌<◌, length};
ghost use Rattle.plan_base.specs.Places.{place_of};
ghost use Rattle.arc_restrict.specs.Rows.{forbids};
ghost use Rattle.path_pricing.specs.Priced.{is_open, price_at};

use arc_restrict::Restriction;
use plan_base::{ArcId, DemandId, Instance, Prices};

/// A demand of an instance, under prices in thousandths of a cost grain per load grain, where a restriction forbids arcs.
#[derive(Clone, Copy)]
pub struct Query<'a> {
    pub inst: &'a Instance,
    pub prices: &'a Prices,
    pub demand: DemandId,
    pub restriction: &'a Restriction,
}

impl Query<'_> {
    /// Whether the arc exists and is not forbidden to the demand.
    pub fn is_open(&self, arc: ArcId) -> bool
        ensures { result ≡ is_open self.now.inst.now (forbids self.now.restriction.now) self.now.demand.0 arc }
    {
        self.inst.is_arc(arc) && self.restriction.allows(self.demand, arc)
    }

    /// The price of the arc's place.
    pub fn price_at(&self, arc: ArcId) -> u128
        requires { place_of self.now.inst.now arc < length self.now.prices.now }
        ensures { result ≡ price_at self.now.inst.now self.now.prices.now arc }
    {
        self.prices.as_slice()[self.inst.place(arc) as usize]
    }
}
