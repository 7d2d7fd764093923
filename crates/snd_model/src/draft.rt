//! The settings that have been read so far.

use crate::file::ModelFile;
use crate::keys::Key;
use crate::setting::Setting;
use crate::values::{
    CapacityModel, DemandModel, FixedChargeModel, HopModel, LinkModel, PathModel, RoutingModel,
    SurvivabilityModel,
};

/// The settings so far, with a place for each key.
#[derive(Clone, Copy)]
pub struct Draft {
    pub demand: Option<DemandModel>,
    pub link: Option<LinkModel>,
    pub capacity: Option<CapacityModel>,
    pub fixed_charge: Option<FixedChargeModel>,
    pub routing: Option<RoutingModel>,
    pub path: Option<PathModel>,
    pub hop: Option<HopModel>,
    pub survivability: Option<SurvivabilityModel>,
}

impl Draft {
    ghost use Rattle.std.specs.Prelude.{◌≡◌, Some, None, cond};
    ghost use Rattle.std.specs.Option.{option_map};
    ghost use Rattle.snd_model.specs.Grammar.{no_settings, has_setting, is_complete, and_setting, settings_of};

    /// No settings.
    pub fn new() -> Self
        ensures { result ≡ no_settings }
    {
        Draft {
            demand: None,
            link: None,
            capacity: None,
            fixed_charge: None,
            routing: None,
            path: None,
            hop: None,
            survivability: None,
        }
    }

    /// Whether the key has a value.
    pub fn has(&self, key: Key) -> bool
        ensures { result ≡ has_setting self.now key }
    {
        match key {
            Key::Demand => self.demand.is_some(),
            Key::Link => self.link.is_some(),
            Key::Capacity => self.capacity.is_some(),
            Key::FixedCharge => self.fixed_charge.is_some(),
            Key::Routing => self.routing.is_some(),
            Key::Path => self.path.is_some(),
            Key::Hop => self.hop.is_some(),
            Key::Survivability => self.survivability.is_some(),
        }
    }

    /// Whether each key has a value.
    pub fn is_complete(&self) -> bool
        ensures { result ≡ is_complete self.now }
    {
        self.demand.is_some()
            && self.link.is_some()
            && self.capacity.is_some()
            && self.fixed_charge.is_some()
            && self.routing.is_some()
            && self.path.is_some()
            && self.hop.is_some()
            && self.survivability.is_some()
    }

    /// One setting more.
    pub fn set(&mut self, setting: Setting)
        ensures { self.new ≡ and_setting self.old setting }
    {
        match setting {
            Setting::Demand(value) => self.demand = Some(value),
            Setting::Link(value) => self.link = Some(value),
            Setting::Capacity(value) => self.capacity = Some(value),
            Setting::FixedCharge(value) => self.fixed_charge = Some(value),
            Setting::Routing(value) => self.routing = Some(value),
            Setting::Path(value) => self.path = Some(value),
            Setting::Hop(value) => self.hop = Some(value),
            Setting::Survivability(value) => self.survivability = Some(value),
        }
    }

    /// The model, where each key has a value.
    pub fn file(self) -> Option<ModelFile>
        ensures { option_map settings_of result ≡ cond (is_complete self) (Some self) None }
    {
        Some(ModelFile {
            demand: self.demand?,
            link: self.link?,
            capacity: self.capacity?,
            fixed_charge: self.fixed_charge?,
            routing: self.routing?,
            path: self.path?,
            hop: self.hop?,
            survivability: self.survivability?,
        })
    }
}
