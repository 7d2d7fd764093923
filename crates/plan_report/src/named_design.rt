//! A design with the names of its network.

ghost use Rattle.std.specs.Prelude.{ℕ, ◌≡◌, ◌<◌, length, slice_index};
ghost use Rattle.plan_base.specs.Facts.{IsInstance};
ghost use Rattle.plan_base.specs.Arcs.{link_at};
ghost use Rattle.plan_base.specs.Places.{there_of, back_of};
ghost use Rattle.plan_base.specs.Designs.{load_at, path_at, counts_at, capacity_with, link_cost, IsGoodDesign};

use crate::named_plan::NamedPlan;
use plan_base::limits::MAX_PLACES;
use plan_base::{
    ArcId, DemandId, Design, Instance, LinkId, LinkLoads, capacity_with, module_cost_with,
};
use snd_network::NetworkFile;
use std::marker::Model;

/// A good design of an instance, with the loads of its places and the names of the network.
///
/// Contracts see it as the network, the instance and the design.
#[derive(Drop)]
pub struct NamedDesign<'a> {
    plan: &'a NamedPlan<'a>,
    design: &'a Design,
    loads: &'a [u128; MAX_PLACES],
}

impl<'a> Model for NamedDesign<'a> {
    ghost use Rattle.plan_base.specs.Designs.{IsGoodDesign};
    ghost use Rattle.plan_report.specs.Named.{Named, AreLoads};

    ghost Value = { Named };

    ghost view = { λ a. record { net = a.plan.now.net; parts = a.plan.now.parts; design = a.design.now } };

    ghost invariant = { λ a. IsGoodDesign a.plan.now.parts a.design.now × AreLoads a.plan.now.parts a.design.now a.loads.now };
}

impl<'a> NamedDesign<'a> {
    ghost use Rattle.plan_report.specs.Named.{AreLoads};

    /// A design of the plan's instance, with these loads of its places, in load grains.
    pub fn new(plan: &'a NamedPlan<'a>, design: &'a Design, loads: &'a [u128; MAX_PLACES]) -> Self
        requires good { IsGoodDesign plan.now.parts design.now }
        requires loads { AreLoads plan.now.parts design.now loads.now }
        ensures net { result.net ≡ plan.now.net }
        ensures parts { result.parts ≡ plan.now.parts }
        ensures design { result.design ≡ design.now }
    {
        NamedDesign {
            plan,
            design,
            loads,
        }
    }

    /// The network.
    pub fn net(&self) -> &'a NetworkFile
        ensures { result.now ≡ self.now.net }
    {
        self.plan.net()
    }

    /// The instance.
    pub fn inst(&self) -> &'a Instance
        ensures { result.now ≡ self.now.parts }
    {
        self.plan.inst()
    }

    /// The design.
    pub fn design(&self) -> &'a Design
        ensures value { result.now ≡ self.now.design }
        ensures good { IsGoodDesign self.now.parts self.now.design }
    {
        self.design
    }

    /// The loads of a link's places, in load grains.
    #[tactic(auto, using(crate::proofs::PlaceLoads::place_loads))]
    pub fn link_loads(&self, id: LinkId) -> LinkLoads
        requires { id.0 < length self.now.parts.links }
        ensures there { result.there ≡ there_of self.now.parts (load_at self.now.parts self.now.design) id.0 }
        ensures back { result.back ≡ back_of self.now.parts (load_at self.now.parts self.now.design) id.0 }
    {
        self.inst().lawful();
        LinkLoads::of_link(self.inst(), self.loads, id)
    }

    /// How often each module of a link is installed.
    pub fn counts(&self, id: LinkId) -> &'a [u64]
        requires { id.0 < length self.now.parts.links }
        ensures value { result.now ≡ counts_at self.now.design id.0 }
        ensures good { IsGoodDesign self.now.parts self.now.design }
    {
        self.design.counts.as_slice()[id.0 as usize].as_slice()
    }

    /// The capacity of a link with what is installed on it, in load grains.
    pub fn capacity(&self, id: LinkId) -> u128
        requires { id.0 < length self.now.parts.links }
        ensures { result ≡ capacity_with (link_at self.now.parts id.0) (counts_at self.now.design id.0) }
    {
        capacity_with(self.inst().link(id), self.counts(id))
    }

    /// What a link costs, in cost grains.
    ///
    /// - Rule: docs/DEFINITIONS.md, "Designs".
    /// - Time: linear in the link's modules. Takes no memory.
    #[tactic(auto, using(plan_base::proofs::LoadLaws::load_laws))]
    pub fn link_cost(&self, id: LinkId) -> u128
        requires { id.0 < length self.now.parts.links }
        ensures { result ≡ link_cost self.now.parts self.now.design id.0 }
    {
        self.inst().lawful();
        let link = self.inst().link(id);
        let loads = self.link_loads(id);
        u128::from(link.routing) * (loads.there + loads.back)
            + module_cost_with(link, self.counts(id))
    }

    /// The path of a demand.
    pub fn path(&self, id: DemandId) -> &'a [ArcId]
        requires { id.0 < length self.now.parts.demands }
        ensures { result.now ≡ path_at self.now.design id.0 }
    {
        self.design.paths.as_slice()[id.0 as usize].as_slice()
    }
}
