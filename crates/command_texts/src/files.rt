//! What texts spell.

ghost use Rattle.std.specs.Prelude.{◌≤◌, length, IfOk, IfErr};
ghost use Rattle.snd_network.specs.Spelling.{SpellsNetwork};
ghost use Rattle.snd_network.specs.WellFormed.{IsWellFormed};
ghost use Rattle.snd_model.specs.Spelling.{SpellsModel};
ghost use Rattle.cert_format.specs.Grammar.{SpellsPlan};
ghost use Rattle.command_texts.specs.Stops.{IsNetworkStop, IsModelStop, IsPlanTextStop};

use crate::stop::{Stop, stop_of_plan, stop_of_text};
use crate::texts::MAX_TEXT_BYTES;
use cert_format::limits::MAX_PLAN_BYTES;
use cert_format::read_plan;
use plan_report::FileKind;
use proof_tree::Plan;
use snd_model::{ModelFile, read_model};
use snd_network::{NetworkFile, read_network};
use std::alloc::Global;

/// The network that a text spells.
#[tactic(auto, using(crate::proofs::StopLaws::network_stop))]
pub fn network_of(alloc: Global, text: &[u8]) -> Result<NetworkFile, Stop>
    requires { length text.now ≤ MAX_TEXT_BYTES }
    ensures formed { IfOk result IsWellFormed }
    ensures value { IfOk result (SpellsNetwork text.now) }
    ensures stop { IfErr result (IsNetworkStop text.now) }
{
    match read_network(alloc, text) {
        Ok(network) => Ok(network),
        Err(fault) => Err(stop_of_text(FileKind::Network, fault)),
    }
}

/// The model that a text spells.
#[tactic(auto, using(crate::proofs::StopLaws::model_stop))]
pub fn model_of(alloc: Global, text: &[u8]) -> Result<ModelFile, Stop>
    requires { length text.now ≤ MAX_TEXT_BYTES }
    ensures value { IfOk result (SpellsModel text.now) }
    ensures stop { IfErr result (IsModelStop text.now) }
{
    match read_model(alloc, text) {
        Ok(model) => Ok(model),
        Err(fault) => Err(stop_of_text(FileKind::Model, fault)),
    }
}

/// The plan that a text spells.
#[tactic(auto, using(crate::proofs::StopLaws::plan_stop))]
pub fn plan_of(alloc: Global, text: &[u8]) -> Result<Plan, Stop>
    requires { length text.now ≤ MAX_PLAN_BYTES }
    ensures value { IfOk result (SpellsPlan text.now) }
    ensures stop { IfErr result (IsPlanTextStop text.now) }
{
    match read_plan(alloc, text) {
        Ok(plan) => Ok(plan),
        Err(fault) => Err(stop_of_plan(fault)),
    }
}
