//! What arcs weigh while demands are laid.

ghost use Rattle.std.specs.Prelude.{ℕ, ◌≡◌, true, false, ◌<◌, ◌≤◌, ◌+◌, ◌*◌, ◌-◌, ◌^◌, ◌/◌, min, max, length, slice_index, IfSome, IfNone};
ghost use Rattle.std.specs.Option.{unwrap_or};
ghost use Rattle.plan_base.specs.declared.parts.Parts.{Parts};
ghost use Rattle.plan_base.specs.Facts.{IsInstance, total_load};
ghost use Rattle.plan_base.specs.Places.{places, link_of_place};
ghost use Rattle.link_steps.specs.Costs.{CannotCarry, IsStepCost};
ghost use Rattle.demand_routing.specs.Traffic.{with_more, other_of, IsTooMuch, IsCostOf, IsRise, IsAddedCost, span_of, IsFarCost, AreRises, HasTooMuch};
ghost use Rattle.demand_routing.specs.Holding.{AreSides, IsCostOfSides, IsHeld, AreHeld, IsKnown};

use completions::{LINK_COST_BOUND, routing_cost};
use least_path::Weigher;
use link_steps::StepTable;
use plan_base::limits::{MAX_LINKS, MAX_PLACES, MAX_TOTAL_LOAD};
use plan_base::{ArcId, Instance, LinkId, LinkLoads};

/// What a place and the other place of its link carry, in load grains.
#[derive(Clone, Copy, Debug)]
struct Sides {
    here: u64,
    /// 0 where the link has one place.
    other: u64,
}

impl Sides {
    /// The same with a load more here; None where that comes to more than a total.
    fn raised(self, total: u64, load: u128) -> Option<Sides>
        ensures here { IfSome result (λ raised. raised.here ≡ self.here + load) }
        ensures other { IfSome result (λ raised. raised.other ≡ self.other) }
        ensures within { IfSome result (λ raised. raised.here ≤ total) }
        ensures none { IfNone result (total < self.here + load) }
    {
        let here = u128::from(self.here).saturating_add(load);
        if here > u128::from(total) {
            return None;
        }
        Some(Sides {
            here: here as u64,
            other: self.other,
        })
    }

    /// The load that the link needs capacity for.
    fn larger(self) -> u64
        ensures { result ≡ max self.here self.other }
    {
        self.here.max(self.other)
    }

    /// The other load of the link.
    fn smaller(self) -> u64
        ensures { result ≡ min self.here self.other }
    {
        self.here.min(self.other)
    }
}

/// What the other place of a place's link carries, 0 where the link has one place.
fn other_load(inst: &Instance, loads: &[u128; MAX_PLACES], place: u32) -> u128
    requires { place < places inst.now }
    ensures { result ≡ other_of inst.now (slice_index loads.now) place }
{
    inst.lawful();
    if !inst.orient().is_two_way() {
        return 0;
    }
    if place % 2 == 1 {
        loads[place as usize - 1]
    } else {
        loads[place as usize + 1]
    }
}

/// What a place and the other place of its link carry; None where one of them carries more than the total load.
fn sides_of(inst: &Instance, loads: &[u128; MAX_PLACES], place: u32) -> Option<Sides>
    requires { place < places inst.now }
    ensures sides { IfSome result (AreSides inst.now (slice_index loads.now) place) }
    ensures within { IfSome result (λ sides. max sides.here sides.other ≤ total_load inst.now) }
    ensures none { IfNone result (total_load inst.now < max (slice_index loads.now place) (other_of inst.now (slice_index loads.now) place)) }
{
    inst.lawful();
    let total = u128::from(inst.total_load());
    let here = loads[place as usize];
    let other = other_load(inst, loads, place);
    if here > total || other > total {
        return None;
    }
    Some(Sides {
        here: here as u64,
        other: other as u64,
    })
}

/// The step cost of loads on a link, in cost grains; the greatest number where no counts carry the larger one. Its step is
/// looked for near a place, which becomes that of the step.
fn least_cost(table: &StepTable, link: LinkId, larger: u64, smaller: u64, near: &mut u32) -> u128
    requires lawful { IsInstance table.now }
    requires link { link.0 < length table.now.links }
    requires order { smaller ≤ larger }
    requires total { larger ≤ total_load table.now }
    ensures some { result < 2 ^ 128 - 1 → IsStepCost table.now link.0 larger smaller result }
    ensures none { result ≡ 2 ^ 128 - 1 → CannotCarry table.now link.0 larger }
    ensures within { result < 2 ^ 128 - 1 → result ≤ LINK_COST_BOUND }
{
    let inst = table.instance();
    let Some(modules) = table.at_near(link, larger, *near) else {
        return u128::MAX;
    };
    *near = modules.place;
    let loads = LinkLoads {
        there: u128::from(larger),
        back: u128::from(smaller),
    };
    routing_cost(inst, link, loads) + modules.cost
}

/// What `least_cost` gives, or None for the greatest number.
fn carried_cost(cost: u128) -> Option<u128>
    ensures same { IfSome result (λ carried. carried ≡ cost) }
    ensures below { IfSome result (λ carried. carried < 2 ^ 128 - 1) }
    ensures none { IfNone result (cost ≡ 2 ^ 128 - 1) }
{
    if cost == u128::MAX { None } else { Some(cost) }
}

/// The step cost of a link for what its places carry, in cost grains; None where no counts carry the larger load. Its step
/// is looked for near a place, which becomes that of the step.
fn step_cost(table: &StepTable, link: LinkId, sides: Sides, near: &mut u32) -> Option<u128>
    requires lawful { IsInstance table.now }
    requires link { link.0 < length table.now.links }
    requires total { max sides.here sides.other ≤ total_load table.now }
    ensures some { IfSome result (IsCostOfSides table.now link.0 sides) }
    ensures none { IfNone result (CannotCarry table.now link.0 (max sides.here sides.other)) }
    ensures within { IfSome result (λ cost. cost ≤ LINK_COST_BOUND) }
{
    let cost = least_cost(table, link, sides.larger(), sides.smaller(), near);
    carried_cost(cost)
}

/// A step cost of a link that is held, and the loads of its places that it is of.
#[derive(Clone, Copy, Debug)]
pub struct Held {
    /// In cost grains.
    pub cost: u128,
    /// In load grains.
    pub larger: u64,
    /// In load grains.
    pub smaller: u64,
    /// The place of its step.
    pub place: u32,
    /// Whether there is one.
    pub known: bool,
}

impl Held {
    /// No step cost.
    pub fn none() -> Held
        ensures { result.known ≡ false }
    {
        Held {
            cost: 0,
            larger: 0,
            smaller: 0,
            place: 0,
            known: false,
        }
    }

    /// A step cost that is found for what a link's places carry.
    fn of(sides: Sides, cost: u128, place: u32) -> Held
        ensures { (p : Parts) (e : ℕ) → max sides.here sides.other ≤ total_load p → IsCostOfSides p e sides cost → IsHeld p e result }
    {
        Held {
            cost,
            larger: sides.larger(),
            smaller: sides.smaller(),
            place,
            known: true,
        }
    }
}

/// What `step_cost` gives: the step cost that is held, where it is of these loads.
fn known_cost(
    table: &StepTable,
    helds: &[Held; MAX_LINKS],
    link: LinkId,
    sides: Sides,
    near: &mut u32,
) -> Option<u128>
    requires lawful { IsInstance table.now }
    requires helds { AreHeld table.now helds.now }
    requires link { link.0 < length table.now.links }
    requires total { max sides.here sides.other ≤ total_load table.now }
    ensures some { IfSome result (IsCostOfSides table.now link.0 sides) }
    ensures none { IfNone result (CannotCarry table.now link.0 (max sides.here sides.other)) }
{
    let held = helds[link.0 as usize];
    let larger = sides.larger();
    let smaller = sides.smaller();
    if held.known && held.larger == larger && held.smaller == smaller {
        *near = held.place;
        return Some(held.cost);
    }
    let cost = least_cost(table, link, larger, smaller, near);
    carried_cost(cost)
}

/// Holds a step cost of a link, in place of the one that is held.
fn hold(inst: &Instance, helds: &mut [Held; MAX_LINKS], link: LinkId, held: Held)
    requires helds { AreHeld inst.now helds.old }
    requires held { IsHeld inst.now link.0 held }
    ensures { AreHeld inst.now helds.new }
{
    if (link.0 as usize) < MAX_LINKS {
        helds[link.0 as usize] = held;
    }
}

/// Half of a load's share of what a span of loads costs, which is no shorter.
fn half_share(cost: u128, load: u128, span: u128) -> u128
    requires cost { cost ≤ LINK_COST_BOUND }
    requires load { load ≤ MAX_TOTAL_LOAD }
    requires span { load ≤ span }
    requires positive { 0 < span }
    ensures value { result ≡ cost / 131072 * (load * 65536 / span) }
    ensures within { result ≤ LINK_COST_BOUND }
{
    (cost / 131_072) * (load * 65_536 / span)
}

/// The place where the step of what a place carries is looked for first.
fn near_of(nears: &[u32; MAX_PLACES], place: u32) -> u32 {
    if (place as usize) < MAX_PLACES {
        nears[place as usize]
    } else {
        0
    }
}

/// Changes that place.
fn set_near(nears: &mut [u32; MAX_PLACES], place: u32, near: u32) {
    if (place as usize) < MAX_PLACES {
        nears[place as usize] = near;
    }
}

/// What arcs weigh where a load is laid: what the step cost of an arc's link rises by where it is added to the arc's place.
#[derive(Drop)]
pub struct Rises<'a> {
    pub table: &'a StepTable,
    /// For each place, in load grains.
    pub loads: &'a [u128; MAX_PLACES],
    /// For each link a step cost of it, and the loads that this is of.
    pub helds: &'a [Held; MAX_LINKS],
    /// For each place where among its link's steps that of what it carries is looked for first.
    pub nears: &'a [u32; MAX_PLACES],
    /// In load grains.
    pub load: u128,
}

/// What is known of a place: its link, what the link's places carry, and the step cost of that.
#[derive(Clone, Copy, Debug)]
struct Known {
    place: u32,
    link: LinkId,
    sides: Sides,
    /// In cost grains.
    cost: u128,
    /// The place of its step.
    near: u32,
}

impl Rises<'_> {
    /// What is known of a place; None where its link cannot carry that. Its step is looked for near the place's.
    fn known(&self, place: u32) -> Option<Known>
        requires helds { AreHeld self.now.table.now self.now.helds.now }
        requires place { place < places self.now.table.now }
        ensures place { IfSome result (λ known. known.place ≡ place) }
        ensures known { IfSome result (IsKnown self.now.table.now (slice_index self.now.loads.now)) }
        ensures none { IfNone result ((load : ℕ) → IsTooMuch self.now.table.now (with_more (slice_index self.now.loads.now) place load) (link_of_place self.now.table.now place)) }
    {
        let inst = self.table.instance();
        inst.lawful();
        let sides = sides_of(inst, self.loads, place)?;
        let link = inst.link_of_place(place);
        let mut near = near_of(self.nears, place);
        let cost = known_cost(self.table, self.helds, link, sides, &mut near)?;
        Some(Known {
            place,
            link,
            sides,
            cost,
            near,
        })
    }

    /// What the step cost of a place's link rises by where a load is added to the place, in cost grains; None where the
    /// link cannot carry that. The step then is looked for near a place, which becomes its place.
    fn rise_above(&self, known: Known, load: u128, near: &mut u32) -> Option<u128>
        requires { IsKnown self.now.table.now (slice_index self.now.loads.now) known }
        ensures value { IsAddedCost self.now.table.now (slice_index self.now.loads.now) known.place load result }
        ensures load { IfSome result (λ _. known.sides.here + load ≤ total_load self.now.table.now) }
        ensures within { unwrap_or result 0 ≤ LINK_COST_BOUND }
    {
        let inst = self.table.instance();
        inst.lawful();
        let raised = known.sides.raised(inst.total_load(), load)?;
        let after = step_cost(self.table, known.link, raised, near)?;
        Some(after.saturating_sub(known.cost))
    }

    /// What the step cost of a place's link rises by where the load is added to the place, in cost grains; None where the
    /// link cannot carry that.
    fn added_cost(&self, place: u32) -> Option<u128>
        requires helds { AreHeld self.now.table.now self.now.helds.now }
        requires place { place < places self.now.table.now }
        ensures value { IsAddedCost self.now.table.now (slice_index self.now.loads.now) place self.now.load result }
        ensures within { unwrap_or result 0 ≤ LINK_COST_BOUND }
    {
        let known = self.known(place)?;
        let mut near = known.near;
        self.rise_above(known, self.load, &mut near)
    }

    /// How far more load is looked at on a place that can take the load.
    fn span(&self, known: Known, far: u128) -> u128
        requires known { IsKnown self.now.table.now (slice_index self.now.loads.now) known }
        requires within { known.sides.here + self.now.load ≤ total_load self.now.table.now }
        ensures value { result ≡ span_of self.now.table.now (slice_index self.now.loads.now known.place) self.now.load far }
        ensures load { self.now.load ≤ result }
        ensures small { self.now.load ≤ MAX_TOTAL_LOAD }
    {
        let total = u128::from(self.table.instance().total_load());
        let carried = u128::from(known.sides.here);
        (carried + self.load).saturating_add(far).min(total) - carried
    }

    /// Half of what the step cost of a place's link rises by where the load is added to the place, and half of the load's
    /// share of what it rises by where far more is added; the whole of the first where that is too much for the link.
    fn far_cost(&self, place: u32, far: u128) -> Option<u128>
        requires helds { AreHeld self.now.table.now self.now.helds.now }
        requires place { place < places self.now.table.now }
        ensures value { IsFarCost self.now.table.now (slice_index self.now.loads.now) place self.now.load far result }
        ensures within { unwrap_or result 0 ≤ 2 * LINK_COST_BOUND }
    {
        let known = self.known(place)?;
        let mut near = known.near;
        let rise = self.rise_above(known, self.load, &mut near)?;
        let span = self.span(known, far);
        if span == 0 {
            return Some(rise);
        }
        let Some(beyond) = self.rise_above(known, span, &mut near) else {
            return Some(rise);
        };
        Some(rise / 2 + half_share(beyond, self.load, span))
    }

    /// What the step cost of a place's link rises by where the load is added to the place; None also where there is no
    /// such place.
    fn rise_at(&self, place: u32) -> Option<Rise>
        requires { AreHeld self.now.table.now self.now.helds.now }
        ensures value { IfSome result (λ rise. IsRise self.now.table.now (slice_index self.now.loads.now) place self.now.load rise.cost) }
        ensures within { IfSome result (λ _. place < places self.now.table.now) }
        ensures before { IfSome result (λ rise. IsHeld self.now.table.now (link_of_place self.now.table.now place) rise.before) }
        ensures after { IfSome result (λ rise. IsHeld self.now.table.now (link_of_place self.now.table.now place) rise.after) }
        ensures none { IfNone result (place < places self.now.table.now → IsTooMuch self.now.table.now (with_more (slice_index self.now.loads.now) place self.now.load) (link_of_place self.now.table.now place)) }
    {
        let inst = self.table.instance();
        inst.lawful();
        if place >= inst.places() {
            return None;
        }
        let known = self.known(place)?;
        let more = known.sides.raised(inst.total_load(), self.load)?;
        let mut near = known.near;
        let after = known_cost(self.table, self.helds, known.link, more, &mut near)?;
        Some(Rise {
            cost: after.saturating_sub(known.cost),
            before: Held::of(known.sides, known.cost, known.near),
            after: Held::of(more, after, near),
        })
    }
}

impl Weigher for Rises<'_> {
    ghost use Rattle.demand_routing.specs.Holding.{AreHeld};
    ghost use Rattle.demand_routing.specs.Weighed.{added_costs};

    ghost weights = { λ a. added_costs a.table.now a.loads.now a.load };

    ghost fits = { λ a. AreHeld a.table.now a.helds.now };

    fn weight(&self, arc: ArcId) -> Option<u128> {
        self.added_cost(self.table.instance().place(arc))
    }
}

/// What arcs weigh where far more load is looked at too: by what the step cost of an arc's link rises by where a load is
/// added to the arc's place, and where far more is.
#[derive(Drop)]
pub struct FarRises<'a> {
    pub rises: Rises<'a>,
    /// In load grains.
    pub far: u128,
}

impl Weigher for FarRises<'_> {
    ghost use Rattle.demand_routing.specs.Holding.{AreHeld};
    ghost use Rattle.demand_routing.specs.Weighed.{far_costs};

    ghost weights = { λ a. far_costs a.rises.table.now a.rises.loads.now a.rises.load a.far };

    ghost fits = { λ a. AreHeld a.rises.table.now a.rises.helds.now };

    fn weight(&self, arc: ArcId) -> Option<u128> {
        let place = self.rises.table.instance().place(arc);
        self.rises.far_cost(place, self.far)
    }
}

/// What the step cost of a place's link rises by where a load is added to the place, in cost grains, and the step costs
/// without the load and with it.
#[derive(Clone, Copy, Debug)]
struct Rise {
    cost: u128,
    before: Held,
    after: Held,
}

impl Rise {
    /// The step cost once the load is laid, or once it is taken off.
    fn held(self, laid: bool) -> Held
        ensures { (p : Parts) (e : ℕ) → IsHeld p e self.before → IsHeld p e self.after → IsHeld p e result }
    {
        if laid { self.after } else { self.before }
    }
}

/// What the step costs of a path's links rise by where this load is added to what its places carry, in cost grains, up to
/// the greatest number; None where one of the links cannot carry that. The steps are looked for near a place for each of
/// the path's places, which becomes that of the step once the load is laid, or once it is taken off; the step costs then
/// are held.
pub fn rise_along(
    table: &StepTable,
    loads: &[u128; MAX_PLACES],
    nears: &mut [u32; MAX_PLACES],
    helds: &mut [Held; MAX_LINKS],
    arcs: &[ArcId],
    load: u128,
    laid: bool,
) -> Option<u128>
    requires helds { AreHeld table.now helds.old }
    ensures sum { IfSome result (AreRises table.now loads.now load arcs.now u128.MAX) }
    ensures none { IfNone result (HasTooMuch table.now loads.now load arcs.now) }
    ensures helds { AreHeld table.now helds.new }
{
    let inst = table.instance();
    let mut sum = 0u128;
    for arc in arcs {
        let place = inst.place(*arc);
        let rises = Rises {
            table,
            loads,
            helds,
            nears,
            load,
        };
        let rise = rises.rise_at(place)?;
        let held = rise.held(laid);
        set_near(nears, place, held.place);
        hold(inst, helds, inst.link_of_place(place), held);
        sum = sum.saturating_add(rise.cost);
    }
    Some(sum)
}
