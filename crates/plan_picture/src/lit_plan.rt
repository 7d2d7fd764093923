//! A plan whose traffic is told, with the demand whose path is lit.

ghost use Rattle.std.specs.Prelude.{◌≡◌, ◌<◌, length, option_map, IfSome};
ghost use Rattle.picture_marks.specs.Marks.{traffic_on};
ghost use Rattle.plan_picture.specs.Pictures.{HasLoads, traffic_of};

use picture_marks::{Traffic, traffic_on};
use plan_base::limits::MAX_PLACES;
use plan_base::{DemandId, LinkId, loads_of};
use plan_report::{NamedDesign, NamedPlan};
use std::marker::Model;

/// A plan with the names of its network, the loads of the places in its design, where it has one, and the demand whose
/// path is lit, if one is.
///
/// Contracts see it as the network, the instance, the plan, and the number of that demand.
#[derive(Drop)]
pub struct LitPlan<'a> {
    named: &'a NamedPlan<'a>,
    loads: &'a [u128; MAX_PLACES],
    lit: Option<DemandId>,
}

impl<'a> Model for LitPlan<'a> {
    ghost use Rattle.std.specs.Prelude.{◌<◌, length, option_map, IfSome};
    ghost use Rattle.plan_picture.specs.Pictures.{HasLoads, Lit};

    ghost Value = { Lit };

    ghost view = { λ a. record { net = a.named.now.net; parts = a.named.now.parts; plan = a.named.now.plan; demand = option_map (λ k. k.0) a.lit } };

    ghost invariant = { λ a. HasLoads a.named.now.parts a.named.now.plan.design a.loads.now × IfSome a.lit (λ k. k.0 < length a.named.now.parts.demands) };
}

/// The load of each place in a plan's design, where it has one.
pub fn loads_of_plan(named: &NamedPlan) -> [u128; MAX_PLACES]
    ensures { HasLoads named.now.parts named.now.plan.design result }
{
    match &named.plan().design {
        Some((_, design)) => loads_of(named.inst(), design),
        None => [0; MAX_PLACES],
    }
}

/// The traffic on a link of a design where the path of this demand is lit, if one is.
fn traffic_in(design: &NamedDesign, lit: Option<DemandId>, id: LinkId) -> Traffic
    requires link { id.0 < length design.now.parts.links }
    requires lit { IfSome lit (λ k. k.0 < length design.now.parts.demands) }
    ensures { result ≡ traffic_on design.now.parts design.now.design (option_map (λ k. k.0) lit) id.0 }
{
    traffic_on(
        design.inst(),
        design.design(),
        lit,
        id,
        design.link_loads(id),
    )
}

impl<'a> LitPlan<'a> {
    /// The plan with these loads of its places.
    pub fn new(
        named: &'a NamedPlan<'a>,
        loads: &'a [u128; MAX_PLACES],
        lit: Option<DemandId>,
    ) -> Self
        requires loads { HasLoads named.now.parts named.now.plan.design loads.now }
        requires lit { IfSome lit (λ k. k.0 < length named.now.parts.demands) }
        ensures net { result.net ≡ named.now.net }
        ensures parts { result.parts ≡ named.now.parts }
        ensures plan { result.plan ≡ named.now.plan }
        ensures demand { result.demand ≡ option_map (λ k. k.0) lit }
    {
        LitPlan { named, loads, lit }
    }

    /// The plan with the names of its network.
    pub fn named(&self) -> &'a NamedPlan<'a>
        ensures net { result.now.net ≡ self.now.net }
        ensures parts { result.now.parts ≡ self.now.parts }
        ensures plan { result.now.plan ≡ self.now.plan }
    {
        self.named
    }

    /// The demand whose path is lit, if one is.
    pub fn lit(&self) -> Option<DemandId>
        ensures value { option_map (λ k. k.0) result ≡ self.now.demand }
        ensures within { IfSome result (λ k. k.0 < length self.now.parts.demands) }
    {
        self.lit
    }

    /// The traffic on a link; none where the plan has no design.
    pub fn traffic(&self, id: LinkId) -> Option<Traffic>
        requires { id.0 < length self.now.parts.links }
        ensures { result ≡ traffic_of self.now.parts self.now.plan.design self.now.demand id.0 }
    {
        match &self.named.plan().design {
            Some((_, design)) => {
                let named = NamedDesign::new(self.named, design, self.loads);
                Some(traffic_in(&named, self.lit, id))
            }
            None => None,
        }
    }
}
