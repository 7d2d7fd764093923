//! A plan with the names of its network.

ghost use Rattle.std.specs.Prelude.{◌≡◌};
ghost use Rattle.proof_tree.specs.Plans.{IsValidPlan};
ghost use Rattle.plan_report.specs.Reports.{IsReadFrom};

use plan_base::Instance;
use proof_tree::Plan;
use snd_network::NetworkFile;
use std::marker::Model;

/// A valid plan of an instance, and the network that the instance stands for.
///
/// Contracts see it as the network, the instance and the plan.
#[derive(Drop)]
pub struct NamedPlan<'a> {
    net: &'a NetworkFile,
    inst: &'a Instance,
    plan: &'a Plan,
}

impl<'a> Model for NamedPlan<'a> {
    ghost use Rattle.plan_report.specs.Named.{Planned, IsPlanned};

    ghost Value = { Planned };

    ghost view = { λ a. record { net = a.net.now; parts = a.inst.now; plan = a.plan.now } };

    ghost invariant = { λ a. IsPlanned a.net.now a.inst.now a.plan.now };
}

impl<'a> NamedPlan<'a> {
    /// The plan, with the network and the instance that it stands for.
    pub fn new(net: &'a NetworkFile, inst: &'a Instance, plan: &'a Plan) -> Self
        requires read { IsReadFrom net.now inst.now }
        requires valid { IsValidPlan inst.now plan.now }
        ensures net { result.net ≡ net.now }
        ensures parts { result.parts ≡ inst.now }
        ensures plan { result.plan ≡ plan.now }
    {
        NamedPlan { net, inst, plan }
    }

    /// The network.
    pub fn net(&self) -> &'a NetworkFile
        ensures { result.now ≡ self.now.net }
    {
        self.net
    }

    /// The instance, which the network stands for.
    pub fn inst(&self) -> &'a Instance
        ensures value { result.now ≡ self.now.parts }
        ensures read { IsReadFrom self.now.net self.now.parts }
    {
        self.inst
    }

    /// The plan, which is a valid one of the instance.
    pub fn plan(&self) -> &'a Plan
        ensures value { result.now ≡ self.now.plan }
        ensures valid { IsValidPlan self.now.parts self.now.plan }
    {
        self.plan
    }
}
