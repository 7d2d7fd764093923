//! Least prices by rounds of relaxing: after each round the prices of the ways of one arc more are counted.

ghost use Rattle.std.specs.Prelude.{◌≡◌, ◌↔◌, ◌≤◌, ◌<◌, ◌*◌, true, length, replicate, IsFalse, IfOk, IfSome, MatchOption, None};
ghost use Rattle.plan_base.specs.Arcs.{demand_at};
ghost use Rattle.plan_base.specs.Facts.{IsInstance, total_load};
ghost use Rattle.plan_base.specs.Places.{places};
ghost use Rattle.plan_base.specs.declared.limits.TheConstants.{MAX_PRICED_LOAD};
ghost use Rattle.arc_restrict.specs.Restrictions.{HasNoPath, IsFewest};
ghost use Rattle.arc_restrict.specs.Prices.{price_of, AreWithinLimit, IsLeastPrice};
ghost use Rattle.verifier_paths.specs.declared.limits.TheConstants.{MAX_WAY_ARCS};
ghost use Rattle.verifier_paths.specs.Kept.{forbidden_by};
ghost use Rattle.verifier_paths.specs.Labels.{label_at, open_arcs, AreLeast, AreSmall, IsRelaxed, AreOffered, HasOffered, Leaves, LeavesBelow, lower_of, first_labels};
ghost use Rattle.verifier_paths.specs.OnlyPaths.{AreOnes};

use crate::marks::Forbidden;
use plan_base::{ArcId, DemandId, Instance, NodeId};
use std::alloc::{AllocError, Global};

/// The arcs that paths of one demand may take.
#[derive(Clone, Copy)]
pub(crate) struct Ways<'a> {
    pub(crate) inst: &'a Instance,
    pub(crate) forbidden: &'a Forbidden,
    pub(crate) demand: DemandId,
    /// An arc that is left out.
    pub(crate) left_out: Option<ArcId>,
}

impl Ways<'_> {
    /// Whether the arc exists and may be taken.
    pub(crate) fn may_take(&self, arc: ArcId) -> bool
        ensures { result ≡ open_arcs self.now arc }
    {
        self.inst.is_arc(arc)
            && !self.forbidden.forbids(self.demand, arc)
            && self.left_out != Some(arc)
    }
}

/// The lower of a known price and an offered one.
fn lower(known: Option<u128>, offered: u128) -> Option<u128>
    ensures { result ≡ lower_of known offered }
{
    match known {
        Some(price) if price <= offered => known,
        _ => Some(offered),
    }
}

/// Offers the way along the arc to its head.
fn relax_arc(
    ways: &Ways,
    prices: &[u128],
    arc: ArcId,
    old: &[Option<u128>],
    new: &mut Vec<Option<u128>>,
)
    requires count { places ways.now.inst.now ≤ length prices.now }
    requires limit { AreWithinLimit ways.now.inst.now prices.now }
    requires old { length old.now ≡ ways.now.inst.now.nodes }
    requires small { AreSmall old.now }
    requires new { length new.old.items ≡ ways.now.inst.now.nodes }
    ensures relaxed { IsRelaxed ways.now.inst.now (open_arcs ways.now) prices.now old.now arc new.old.items new.new.items }
    ensures count { length new.new.items ≡ length new.old.items }
{
    if !ways.may_take(arc) {
        return;
    }
    if let Some(price) = old[ways.inst.tail(arc).0 as usize] {
        let head = ways.inst.head(arc).0 as usize;
        new[head] = lower(new[head], price + prices[ways.inst.place(arc) as usize]);
    }
}

/// Offers the ways along the arcs that leave one node to their heads.
fn relax_from(
    ways: &Ways,
    prices: &[u128],
    node: NodeId,
    old: &[Option<u128>],
    new: &mut Vec<Option<u128>>,
)
    requires node { node.0 < ways.now.inst.now.nodes }
    requires count { places ways.now.inst.now ≤ length prices.now }
    requires limit { AreWithinLimit ways.now.inst.now prices.now }
    requires old { length old.now ≡ ways.now.inst.now.nodes }
    requires small { AreSmall old.now }
    requires new { length new.old.items ≡ ways.now.inst.now.nodes }
    ensures { AreOffered ways.now.inst.now (open_arcs ways.now) prices.now old.now (Leaves ways.now.inst.now node.0) new.old.items new.new.items }
{
    ways.inst.lawful();
    for arc in ways.inst.leaving(node) {
        relax_arc(ways, prices, *arc, old, new);
    }
}

/// Whether the node has another price than a round earlier.
fn is_changed(earlier: &[Option<u128>], old: &[Option<u128>], node: NodeId) -> bool
    requires earlier { node.0 < length earlier.now }
    requires old { node.0 < length old.now }
    ensures { IsFalse result ↔ (label_at earlier.now node.0 ≡ label_at old.now node.0) }
{
    earlier[node.0 as usize] != old[node.0 as usize]
}

/// One round: each node's price by one arc more, in the new list. Arcs from a node whose price is that of a round earlier
/// offer nothing that was not offered then.
fn relax_all(
    ways: &Ways,
    prices: &[u128],
    earlier: &[Option<u128>],
    old: &[Option<u128>],
    new: &mut Vec<Option<u128>>,
)
    requires count { places ways.now.inst.now ≤ length prices.now }
    requires limit { AreWithinLimit ways.now.inst.now prices.now }
    requires earlier { length earlier.now ≡ ways.now.inst.now.nodes }
    requires old { length old.now ≡ ways.now.inst.now.nodes }
    requires small { AreSmall old.now }
    requires offered { HasOffered ways.now.inst.now (open_arcs ways.now) prices.now earlier.now old.now }
    requires same { new.old.items ≡ old.now }
    ensures { AreOffered ways.now.inst.now (open_arcs ways.now) prices.now old.now (LeavesBelow ways.now.inst.now ways.now.inst.now.nodes) old.now new.new.items }
{
    for node in 0..ways.inst.nodes() {
        if is_changed(earlier, old, NodeId(node)) {
            relax_from(ways, prices, NodeId(node), old, new);
        }
    }
}

/// The prices where no node is reached.
fn no_prices(alloc: Global, nodes: u32) -> Result<Vec<Option<u128>>, AllocError>
    ensures { IfOk result (λ labels. labels.items ≡ replicate nodes None) }
{
    vec![in alloc; None; nodes as usize]
}

/// The prices before the first round: the source alone is reached, at no cost.
fn first_prices(alloc: Global, nodes: u32, source: NodeId) -> Result<Vec<Option<u128>>, AllocError>
    requires { source.0 < nodes }
    ensures { IfOk result (λ labels. labels.items ≡ first_labels nodes source.0) }
{
    let mut labels = no_prices(alloc, nodes)?;
    labels[source.0 as usize] = Some(0);
    Ok(labels)
}

/// Whether both are the same prices.
fn are_same(one: &[Option<u128>], other: &[Option<u128>]) -> bool
    ensures { result ≡ true → one.now ≡ other.now }
{
    one == other
}

/// Takes other prices in place of these.
fn replace_prices(prices: &mut Vec<Option<u128>>, others: &[Option<u128>])
    requires { length prices.old.items ≡ length others.now }
    ensures { prices.new.items ≡ others.now }
{
    prices.as_mut_slice().copy_from_slice(others);
}

/// For each node the least price of a way to it from the demand's source, and none where no way leads to it.
///
/// - Time: nodes times arcs; ends with the first round that changes nothing.
pub(crate) fn least_prices(
    alloc: Global,
    ways: &Ways,
    prices: &[u128],
) -> Result<Vec<Option<u128>>, AllocError>
    requires demand { ways.now.demand.0 < length ways.now.inst.now.demands }
    requires count { places ways.now.inst.now ≤ length prices.now }
    requires limit { AreWithinLimit ways.now.inst.now prices.now }
    ensures lawful { IsInstance ways.now.inst.now }
    ensures least { IfOk result (λ labels. AreLeast ways.now.inst.now (open_arcs ways.now) (price_of ways.now.inst.now prices.now) (demand_at ways.now.inst.now ways.now.demand.0).source.0 labels.items) }
{
    ways.inst.lawful();
    let nodes = ways.inst.nodes();
    let source = ways.inst.demand(ways.demand).source;
    let mut earlier = no_prices(alloc, nodes)?;
    let mut old = first_prices(alloc, nodes, source)?;
    let mut new = Vec::from_slice(alloc, &old)?;
    for _round in 1..nodes {
        relax_all(ways, prices, &earlier, &old, &mut new);
        if are_same(&old, &new) {
            return Ok(old);
        }
        replace_prices(&mut earlier, &old);
        replace_prices(&mut old, &new);
    }
    Ok(old)
}

/// The least price of a permitted path of the demand, and none where it has none.
///
/// - Takes: a demand of the instance; at least one price for each place, within the limit, in thousandths of a cost grain per
///   load grain.
/// - Gives: a price in the same unit.
/// - Errors: want of memory.
/// - Rule: docs/DEFINITIONS.md, "Prices of paths".
/// - Time: nodes times arcs.
pub fn least_price(
    alloc: Global,
    inst: &Instance,
    forbidden: &Forbidden,
    demand: DemandId,
    prices: &[u128],
) -> Result<Option<u128>, AllocError>
    requires demand { demand.0 < length inst.now.demands }
    requires count { places inst.now ≤ length prices.now }
    requires limit { AreWithinLimit inst.now prices.now }
    ensures value { IfOk result (λ price. MatchOption price
        (HasNoPath inst.now (forbidden_by forbidden.now) demand.0)
        (λ price. IsLeastPrice inst.now (forbidden_by forbidden.now) prices.now demand.0 price)) }
    ensures within { IfOk result (λ price. IfSome price (λ price. price * total_load inst.now ≤ MAX_WAY_ARCS * MAX_PRICED_LOAD)) }
{
    let ways = Ways {
        inst,
        forbidden,
        demand,
        left_out: None,
    };
    let labels = least_prices(alloc, &ways, prices)?;
    Ok(labels[inst.demand(demand).target.0 as usize])
}

/// The fewest arcs of a permitted path of the demand, by least prices where each place has the price 1.
#[tactic(auto, using(crate::proofs::StepsBack::fewest_at_ones))]
fn fewest_at(
    alloc: Global,
    inst: &Instance,
    forbidden: &Forbidden,
    demand: DemandId,
    ones: &[u128],
) -> Result<Option<u128>, AllocError>
    requires demand { demand.0 < length inst.now.demands }
    requires ones { AreOnes inst.now ones.now }
    ensures { IfOk result (λ fewest. MatchOption fewest
        (HasNoPath inst.now (forbidden_by forbidden.now) demand.0)
        (λ arcs. IsFewest inst.now (forbidden_by forbidden.now) demand.0 arcs)) }
{
    least_price(alloc, inst, forbidden, demand, ones)
}

/// The fewest arcs of a permitted path of the demand, and none where it has none.
///
/// - Takes: a demand of the instance.
/// - Errors: want of memory.
/// - Rule: docs/DEFINITIONS.md, "Restrictions".
/// - Time: nodes times arcs.
pub fn fewest_arcs(
    alloc: Global,
    inst: &Instance,
    forbidden: &Forbidden,
    demand: DemandId,
) -> Result<Option<u128>, AllocError>
    requires { demand.0 < length inst.now.demands }
    ensures { IfOk result (λ fewest. MatchOption fewest
        (HasNoPath inst.now (forbidden_by forbidden.now) demand.0)
        (λ arcs. IsFewest inst.now (forbidden_by forbidden.now) demand.0 arcs)) }
{
    let ones = vec![in alloc; 1; inst.places() as usize]?;
    fewest_at(alloc, inst, forbidden, demand, &ones)
}
