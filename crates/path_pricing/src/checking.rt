//! Whether what is found for a demand shows what it says.

ghost use Rattle.std.specs.Prelude.{◌≡◌, ◌↔◌, ◌<◌, ◌≤◌, ◌+◌, ◌*◌, IsOk, IsTrue, IfOk, All, None, length, nat_lt};
ghost use Rattle.std.specs.Result.{result_err};
ghost use Rattle.plan_base.specs.Facts.{IsInstance};
ghost use Rattle.plan_base.specs.First.{◌or_else◌};
ghost use Rattle.plan_base.specs.Places.{places, place_of};
ghost use Rattle.plan_base.specs.declared.limits.TheConstants.{MAX_NODES, MAX_PRICED_LOAD};
ghost use Rattle.arc_restrict.specs.Rows.{forbids};
ghost use Rattle.arc_restrict.specs.Prices.{price_of};
ghost use Rattle.path_pricing.specs.Priced.{ArePrices, IsShown, IsPriced};
ghost use Rattle.path_pricing.specs.Faults.{arc_id, dearer_fault, first_dearer, length_fault, path_fault, shape_fault, leaving_fault, first_leaving, set_fault, priced_fault};

use crate::priced::{Priced, Unfit};
use crate::query::Query;
use arc_restrict::Restriction;
use plan_base::{ArcId, Demand, DemandId, Instance, LinkId, Prices};

/// Whether the head's potential is above the tail's plus the price, also where that sum is past 128 bits.
fn is_above(head: u128, tail: u128, price: u128) -> bool
    ensures { result ≡ nat_lt (tail + price) head }
{
    match tail.checked_add(price) {
        Some(most) => most < head,
        None => false,
    }
}

impl Query<'_> {
    /// Whether the arc is forbidden, or rises by at most its price.
    #[tactic(auto, unfolding(crate::specs::Faults::dearer_fault))]
    fn check_rise(&self, potentials: &[u128], arc: ArcId) -> Result<(), Unfit>
        requires prices { places self.now.inst.now ≤ length self.now.prices.now }
        requires potentials { length potentials.now ≡ self.now.inst.now.nodes }
        ensures { result_err result
            ≡ dearer_fault self.now.inst.now self.now.prices.now self.now.demand.0 (forbids self.now.restriction.now) potentials.now arc }
    {
        if !self.inst.is_arc(arc) {
            return Ok(());
        }
        let head = potentials[self.inst.head(arc).0 as usize];
        let tail = potentials[self.inst.tail(arc).0 as usize];
        // Few arcs rise by more: what is forbidden is looked up for these alone.
        if is_above(head, tail, self.price_at(arc)) && self.restriction.allows(self.demand, arc) {
            return Err(Unfit::Dearer { arc });
        }
        Ok(())
    }

    /// Whether neither arc of a link rises by more than its price, whatever is forbidden.
    #[tactic(auto, unfolding(crate::specs::Faults::dearer_fault))]
    fn is_level(&self, potentials: &[u128], number: u32) -> bool
        requires link { number < length self.now.inst.now.links }
        requires prices { places self.now.inst.now ≤ length self.now.prices.now }
        requires potentials { length potentials.now ≡ self.now.inst.now.nodes }
        ensures there { IsTrue result → dearer_fault self.now.inst.now self.now.prices.now self.now.demand.0 (forbids self.now.restriction.now) potentials.now (arc_id (2 * number)) ≡ None }
        ensures back { IsTrue result → dearer_fault self.now.inst.now self.now.prices.now self.now.demand.0 (forbids self.now.restriction.now) potentials.now (arc_id (2 * number + 1)) ≡ None }
    {
        self.inst.lawful();
        let link = self.inst.link(LinkId(number));
        let source = potentials[link.source.0 as usize];
        let target = potentials[link.target.0 as usize];
        // Only one of the two arcs rises.
        if source <= target {
            target - source <= self.price_at(ArcId(2 * number))
        } else {
            source - target <= self.price_at(ArcId(2 * number + 1))
        }
    }

    /// Whether each arc of a link is forbidden, or rises by at most its price. On most links neither rises by more: what is
    /// forbidden is looked up for the others alone.
    fn check_link(&self, potentials: &[u128], number: u32) -> Result<(), Unfit>
        requires link { number < length self.now.inst.now.links }
        requires prices { places self.now.inst.now ≤ length self.now.prices.now }
        requires potentials { length potentials.now ≡ self.now.inst.now.nodes }
        ensures { result_err result
            ≡ (dearer_fault self.now.inst.now self.now.prices.now self.now.demand.0 (forbids self.now.restriction.now) potentials.now (arc_id (2 * number))
            or_else dearer_fault self.now.inst.now self.now.prices.now self.now.demand.0 (forbids self.now.restriction.now) potentials.now (arc_id (2 * number + 1))) }
    {
        self.inst.lawful();
        if self.is_level(potentials, number) {
            return Ok(());
        }
        self.check_rise(potentials, ArcId(2 * number))?;
        self.check_rise(potentials, ArcId(2 * number + 1))
    }

    /// Whether each permitted arc rises by at most its price.
    fn check_rises(&self, potentials: &[u128]) -> Result<(), Unfit>
        requires lawful { IsInstance self.now.inst.now }
        requires prices { places self.now.inst.now ≤ length self.now.prices.now }
        requires potentials { length potentials.now ≡ self.now.inst.now.nodes }
        ensures { result_err result
            ≡ first_dearer self.now.inst.now self.now.prices.now self.now.demand.0 (forbids self.now.restriction.now) potentials.now }
    {
        for number in 0..self.inst.links() {
            self.check_link(potentials, number)?;
        }
        Ok(())
    }

    /// The sum of the prices of the arcs' places.
    #[tactic(auto, using(crate::proofs::PriceSums::price_sums))]
    fn price_of(&self, arcs: &[ArcId]) -> u128
        requires short { length arcs.now < MAX_NODES }
        requires places { All (λ a. place_of self.now.inst.now a < length self.now.prices.now) arcs.now }
        requires small { All (λ price. price ≤ MAX_PRICED_LOAD) self.now.prices.now }
        ensures { result ≡ price_of self.now.inst.now self.now.prices.now arcs.now }
    {
        let mut price: u128 = 0;
        for arc in arcs {
            price += self.price_at(*arc);
        }
        price
    }

    /// Whether the target's potential and the path's price are this price, and the source's potential is 0.
    #[tactic(auto, unfolding(crate::specs::Faults::length_fault))]
    fn check_length(
        &self,
        demand: &Demand,
        arcs: &[ArcId],
        price: u128,
        potentials: &[u128],
    ) -> Result<(), Unfit>
        requires source { demand.now.source.0 < length potentials.now }
        requires target { demand.now.target.0 < length potentials.now }
        requires short { length arcs.now < MAX_NODES }
        requires places { All (λ a. place_of self.now.inst.now a < length self.now.prices.now) arcs.now }
        requires small { All (λ price. price ≤ MAX_PRICED_LOAD) self.now.prices.now }
        ensures { result_err result ≡ length_fault self.now.inst.now self.now.prices.now demand.now arcs.now price potentials.now }
    {
        if potentials[demand.source.0 as usize] != 0 {
            return Err(Unfit::WrongLength);
        }
        if potentials[demand.target.0 as usize] != price {
            return Err(Unfit::WrongLength);
        }
        if self.price_of(arcs) != price {
            return Err(Unfit::WrongLength);
        }
        Ok(())
    }

    /// Whether the path is a permitted path of the demand, and the potentials show that no other has a lower price.
    #[tactic(auto, unfolding(crate::specs::Faults::path_fault))]
    fn check_path(&self, arcs: &[ArcId], price: u128, potentials: &[u128]) -> Result<(), Unfit>
        requires lawful { IsInstance self.now.inst.now }
        requires prices { ArePrices self.now.inst.now self.now.prices.now }
        requires demand { self.now.demand.0 < length self.now.inst.now.demands }
        ensures { result_err result
            ≡ path_fault self.now.inst.now self.now.prices.now self.now.demand.0 (forbids self.now.restriction.now) arcs.now price potentials.now }
    {
        let demand = self.inst.demand(self.demand);
        self.check_walk(demand, arcs)?;
        if potentials.len() != self.inst.nodes() as usize {
            return Err(Unfit::WrongLength);
        }
        self.check_rises(potentials)?;
        self.check_length(demand, arcs, price, potentials)
    }

    /// Whether the set has one entry for each node, the demand's source, and not its target.
    #[tactic(auto, unfolding(crate::specs::Faults::shape_fault))]
    fn check_shape(&self, demand: &Demand, reached: &[bool]) -> Result<(), Unfit>
        requires source { demand.now.source.0 < self.now.inst.now.nodes }
        requires target { demand.now.target.0 < self.now.inst.now.nodes }
        ensures fault { result_err result ≡ shape_fault self.now.inst.now demand.now reached.now }
        ensures count { IfOk result (λ _. length reached.now ≡ self.now.inst.now.nodes) }
    {
        if reached.len() != self.inst.nodes() as usize {
            return Err(Unfit::BadSet);
        }
        if !reached[demand.source.0 as usize] {
            return Err(Unfit::BadSet);
        }
        if reached[demand.target.0 as usize] {
            return Err(Unfit::BadSet);
        }
        Ok(())
    }

    /// Whether the arc is forbidden, or does not leave the set.
    #[tactic(auto, unfolding(crate::specs::Faults::leaving_fault))]
    fn check_leaving(&self, reached: &[bool], arc: ArcId) -> Result<(), Unfit>
        requires { length reached.now ≡ self.now.inst.now.nodes }
        ensures { result_err result
            ≡ leaving_fault self.now.inst.now self.now.demand.0 (forbids self.now.restriction.now) reached.now arc }
    {
        if !self.inst.is_arc(arc) {
            return Ok(());
        }
        let has_tail = reached[self.inst.tail(arc).0 as usize];
        let has_head = reached[self.inst.head(arc).0 as usize];
        if has_tail && !has_head && self.restriction.allows(self.demand, arc) {
            return Err(Unfit::NotClosed { arc });
        }
        Ok(())
    }

    /// Whether no permitted arc leaves the set.
    fn check_closed(&self, reached: &[bool]) -> Result<(), Unfit>
        requires { length reached.now ≡ self.now.inst.now.nodes }
        ensures { result_err result
            ≡ first_leaving self.now.inst.now self.now.demand.0 (forbids self.now.restriction.now) reached.now }
    {
        for number in 0..2 * self.inst.links() {
            self.check_leaving(reached, ArcId(number))?;
        }
        Ok(())
    }

    /// Whether the set shows that the demand has no permitted path.
    #[tactic(auto, unfolding(crate::specs::Faults::set_fault))]
    fn check_set(&self, reached: &[bool]) -> Result<(), Unfit>
        requires { self.now.demand.0 < length self.now.inst.now.demands }
        ensures { result_err result
            ≡ set_fault self.now.inst.now self.now.demand.0 (forbids self.now.restriction.now) reached.now }
    {
        self.check_shape(self.inst.demand(self.demand), reached)?;
        self.check_closed(reached)
    }

    /// The first fault of what is found.
    fn check_found(&self, found: &Priced) -> Result<(), Unfit>
        requires lawful { IsInstance self.now.inst.now }
        requires prices { ArePrices self.now.inst.now self.now.prices.now }
        requires demand { self.now.demand.0 < length self.now.inst.now.demands }
        ensures { result_err result
            ≡ priced_fault self.now.inst.now self.now.prices.now self.now.demand.0 (forbids self.now.restriction.now) found.now }
    {
        match found {
            Priced::Path {
                path,
                length,
                potentials,
            } => self.check_path(path.as_slice(), *length, potentials.as_slice()),
            Priced::NoPath { reached } => self.check_set(reached.as_slice()),
        }
    }
}

/// Whether what is found for a demand shows what it says.
///
/// - Takes: an instance, prices that fit it in thousandths of a cost grain per load grain, a demand of it,
///   a restriction, and what is found, of which nothing is asked.
/// - Errors: the first fault. Of a path: the first place where it is no permitted simple path of the demand
///   (`NotPermitted`); not one potential for each node (`WrongLength`); the first permitted arc whose head's
///   potential is above its tail's plus its price (`Dearer`); a potential that is not 0 at the source or not
///   the length at the target, or a path whose price is not the length (`WrongLength`). Of a set: its count
///   of entries, the source outside, or the target inside (`BadSet`); the first permitted arc that leaves it
///   (`NotClosed`). A sum that is only compared is exact, also past 128 bits.
/// - Rule: docs/METHOD.md, "Least prices".
/// - Time: linear in nodes, links and the path's arcs. Takes no memory.
#[tactic(auto, using(crate::proofs::FaultLaws::fault_laws))]
pub fn check_priced(
    inst: &Instance,
    prices: &Prices,
    demand: DemandId,
    restriction: &Restriction,
    found: &Priced,
) -> Result<(), Unfit>
    requires prices { ArePrices inst.now prices.now }
    requires demand { demand.0 < length inst.now.demands }
    ensures ok { IsOk result ↔ IsShown inst.now prices.now demand.0 (forbids restriction.now) found.now }
    ensures least { IfOk result (λ _. IsPriced inst.now prices.now demand.0 (forbids restriction.now) found.now) }
    ensures fault { result_err result ≡ priced_fault inst.now prices.now demand.0 (forbids restriction.now) found.now }
{
    inst.lawful();
    let query = Query {
        inst,
        prices,
        demand,
        restriction,
    };
    query.check_found(found)
}
