//! What a model text holds.

use crate::keys::Key;
use crate::setting::Setting;
use crate::values::{
    CapacityModel, DemandModel, FixedChargeModel, HopModel, LinkModel, PathModel, RoutingModel,
    SurvivabilityModel,
};

/// A model: a value for each key.
#[derive(Clone, Copy, Debug, PartialEq, Eq)]
pub struct ModelFile {
    pub demand: DemandModel,
    pub link: LinkModel,
    pub capacity: CapacityModel,
    pub fixed_charge: FixedChargeModel,
    pub routing: RoutingModel,
    pub path: PathModel,
    pub hop: HopModel,
    pub survivability: SurvivabilityModel,
}

impl ModelFile {
    ghost use Rattle.std.specs.Prelude.{◌≡◌, ◌↔◌, true};
    ghost use Rattle.snd_model.specs.Grammar.{setting_of};
    ghost use Rattle.snd_model.specs.Spelling.{IsReadable};

    /// Whether `read_model` can give this model: it can give each.
    ///
    /// - Time: constant, without memory.
    pub fn well_formed(&self) -> bool
        ensures { (result ≡ true) ↔ IsReadable self.now }
    {
        true
    }

    /// The setting of this key.
    ///
    /// - Time: constant.
    pub fn setting(&self, key: Key) -> Setting
        ensures { result ≡ setting_of self.now key }
    {
        match key {
            Key::Demand => Setting::Demand(self.demand),
            Key::Link => Setting::Link(self.link),
            Key::Capacity => Setting::Capacity(self.capacity),
            Key::FixedCharge => Setting::FixedCharge(self.fixed_charge),
            Key::Routing => Setting::Routing(self.routing),
            Key::Path => Setting::Path(self.path),
            Key::Hop => Setting::Hop(self.hop),
            Key::Survivability => Setting::Survivability(self.survivability),
        }
    }
}
