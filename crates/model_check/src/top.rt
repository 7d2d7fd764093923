//! From two files to an instance.

ghost use Rattle.std.specs.Prelude.{IfOk, IfErr};
ghost use Rattle.plan_base.specs.Facts.{IsInstance};
ghost use Rattle.snd_network.specs.WellFormed.{IsWellFormed};
ghost use Rattle.model_check.specs.Reading.{ReadsAs};
ghost use Rattle.model_check.specs.Refusals.{IsCheckFault, CanCome};

use crate::fault::CheckFault;
use crate::profile::check_model;
use crate::valuing::parts_of_files;
use plan_base::Instance;
use snd_model::ModelFile;
use snd_network::NetworkFile;
use std::alloc::Global;

/// The instance that the two files stand for.
///
/// - Takes: where memory comes from; a network that a reader can give; a model.
/// - Gives: an instance with the links and demands in the order of the file, and one place for each
///   link, or two where links are bidirected; capacities and loads in load grains, module costs in cost grains, routing costs in cost
///   grains per load grain. The load of a demand is its routing unit times its value.
/// - Errors: the first refusal in this order: the first key, in the order of `Key`, whose value is
///   outside the profile; undirected demands on links that are not, told of the key of demands; the first
///   fault of the parts, which is a loop or one of the limits 3 to 8. Or want of memory, which may
///   come in place of any answer.
/// - Rule: docs/FORMATS.md, "Two files as an instance".
/// - Time: linear in nodes, links, modules and demands.
#[tactic(auto, using(crate::proofs::Possible::told_can))]
pub fn to_instance(
    alloc: Global,
    net: &NetworkFile,
    model: &ModelFile,
) -> Result<Instance, CheckFault>
    requires { IsWellFormed net.now }
    ensures read { IfOk result (ReadsAs net.now model.now) }
    ensures lawful { IfOk result IsInstance }
    ensures fault { IfErr result (IsCheckFault net.now model.now) }
    ensures can_come { IfErr result CanCome }
{
    check_model(model)?;
    let parts = parts_of_files(alloc, net, model)?;
    Ok(Instance::build(alloc, parts)?)
}
