//! Which values of a model are planned.

ghost use Rattle.std.specs.Prelude.{◌≡◌, ◌↔◌, IsOk, IfErr};
ghost use Rattle.std.specs.Result.{result_err};
ghost use Rattle.plan_base.specs.First.{first_in};
ghost use Rattle.model_check.specs.Profile.{is_planned, IsSupported};
ghost use Rattle.model_check.specs.Telling.{outside_fault, value_fault, IsModelFault};

use crate::fault::CheckFault;
use snd_model::{
    CapacityModel, DemandModel, FixedChargeModel, HopModel, KEYS, Key, LinkModel, ModelFile,
    PathModel, RoutingModel, Setting, SurvivabilityModel,
};

/// Whether the value is in the profile.
fn is_planned(setting: Setting) -> bool
    ensures { result ≡ is_planned setting }
{
    matches!(
        setting,
        Setting::Demand(DemandModel::Undirected | DemandModel::Directed)
            | Setting::Link(LinkModel::Undirected | LinkModel::Directed | LinkModel::Bidirected)
            | Setting::Capacity(CapacityModel::Modular | CapacityModel::Explicit)
            | Setting::FixedCharge(FixedChargeModel::No)
            | Setting::Routing(RoutingModel::SinglePath)
            | Setting::Path(PathModel::All)
            | Setting::Hop(HopModel::No | HopModel::Yes)
            | Setting::Survivability(SurvivabilityModel::No)
    )
}

/// Whether the value of each of these keys is in the profile.
#[tactic(auto, using(plan_base::proofs::FirstFault::first_faults))]
fn check_values(model: &ModelFile, keys: &[Key]) -> Result<(), CheckFault>
    ensures { result_err result ≡ first_in (λ _ key. outside_fault model.now key) keys.now }
{
    for key in keys {
        let setting = model.setting(*key);
        if !is_planned(setting) {
            return Err(CheckFault::Unsupported {
                key: *key,
                value: setting.number(),
            });
        }
    }
    Ok(())
}

/// Whether every value is in the profile.
#[tactic(auto, unfolding(crate::specs::Telling::value_fault))]
fn check_keys(model: &ModelFile) -> Result<(), CheckFault>
    ensures { result_err result ≡ value_fault model.now }
{
    check_values(model, &KEYS)
}

/// Whether every value, and the pair of demands and links, are in the profile.
#[tactic(auto, using(crate::proofs::Values::model_faults))]
pub(crate) fn check_model(model: &ModelFile) -> Result<(), CheckFault>
    ensures ok { IsOk result ↔ IsSupported model.now }
    ensures fault { IfErr result (IsModelFault model.now) }
{
    check_keys(model)?;
    if model.demand == DemandModel::Undirected && model.link != LinkModel::Undirected {
        return Err(CheckFault::Unsupported {
            key: Key::Demand,
            value: model.setting(Key::Demand).number(),
        });
    }
    Ok(())
}
