//! A setting of a model text: a key with one of the values of its row.

ghost use Rattle.std.specs.Prelude.{◌≡◌, nat_eq};
ghost use Rattle.std.specs.List.{find, list_any};
ghost use Rattle.std.specs.Cmp.Lexicographic.{pointwise};
ghost use Rattle.snd_model.specs.Table.{is_spelling, row};

use crate::keys::Key;
use crate::values::{
    CapacityModel, DemandModel, FixedChargeModel, HopModel, LinkModel, PathModel, RoutingModel,
    SurvivabilityModel,
};

/// A key with one of the values of its row in the model table.
#[derive(Clone, Copy, Debug, PartialEq, Eq)]
pub enum Setting {
    Demand(DemandModel),
    Link(LinkModel),
    Capacity(CapacityModel),
    FixedCharge(FixedChargeModel),
    Routing(RoutingModel),
    Path(PathModel),
    Hop(HopModel),
    Survivability(SurvivabilityModel),
}

impl Setting {
    ghost use Rattle.std.specs.Prelude.{◌≡◌, map, slice_get};
    ghost use Rattle.snd_model.specs.Table.{key_of, spelling, other_spellings, is_spelling, row, number_of, setting_named};

    /// The setting of this key and this spelling.
    ///
    /// - Gives: `None` exactly where the word is not in the key's row.
    /// - Rule: docs/FORMATS.md, "Model texts".
    /// - Time: constant.
    pub fn named(key: Key, word: &[u8]) -> Option<Setting>
        ensures { result ≡ setting_named key word.now }
    {
        first_spelt(row(key), word)
    }

    /// The setting of this key whose value has this number in the key's row, from 0 on.
    ///
    /// - Gives: `None` exactly where the row has no such number.
    /// - Time: constant.
    pub fn numbered(key: Key, number: u8) -> Option<Setting>
        ensures { result ≡ slice_get (row key) number }
    {
        row(key).get(usize::from(number)).copied()
    }

    /// The key.
    ///
    /// - Time: constant.
    pub fn key(self) -> Key
        ensures { result ≡ key_of self }
    {
        match self {
            Setting::Demand(_) => Key::Demand,
            Setting::Link(_) => Key::Link,
            Setting::Capacity(_) => Key::Capacity,
            Setting::FixedCharge(_) => Key::FixedCharge,
            Setting::Routing(_) => Key::Routing,
            Setting::Path(_) => Key::Path,
            Setting::Hop(_) => Key::Hop,
            Setting::Survivability(_) => Key::Survivability,
        }
    }

    /// The first spelling of the value, which the canonical text and the faults show.
    ///
    /// - Rule: docs/FORMATS.md, "Model texts".
    /// - Time: constant.
    pub fn word(self) -> &'static [u8]
        ensures { result.now ≡ spelling self }
    {
        self.words().0
    }

    /// The number of the value in the key's row, from 0 on.
    ///
    /// - Rule: docs/FORMATS.md, "Model texts".
    /// - Time: constant.
    pub fn number(self) -> u8
        ensures { result ≡ number_of self }
    {
        match self {
            Setting::Demand(value) => value.number(),
            Setting::Link(value) => value.number(),
            Setting::Capacity(value) => value.number(),
            Setting::FixedCharge(value) => value.number(),
            Setting::Routing(value) => value.number(),
            Setting::Path(value) => value.number(),
            Setting::Hop(value) => value.number(),
            Setting::Survivability(value) => value.number(),
        }
    }

    /// The first spelling of the value, and the others, which mean the same.
    fn words(self) -> (&'static [u8], &'static [&'static [u8]])
        ensures first { result.0.now ≡ spelling self }
        ensures others { map (λ word. word.now) result.1.now ≡ other_spellings self }
    {
        match self {
            Setting::Demand(value) => value.words(),
            Setting::Link(value) => value.words(),
            Setting::Capacity(value) => value.words(),
            Setting::FixedCharge(value) => value.words(),
            Setting::Routing(value) => value.words(),
            Setting::Path(value) => value.words(),
            Setting::Hop(value) => value.words(),
            Setting::Survivability(value) => value.words(),
        }
    }

    /// Whether the word is a spelling of the value.
    fn is_spelt(self, word: &[u8]) -> bool
        ensures { result ≡ is_spelling self word.now }
    {
        let (first, others) = self.words();
        word == first || is_among(word, others)
    }
}

/// Whether the word is one of these.
fn is_among(word: &[u8], words: &[&[u8]]) -> bool
    ensures { result ≡ list_any (λ known. pointwise nat_eq word.now known.now) words.now }
{
    for known in words {
        if word == *known {
            return true;
        }
    }
    false
}

/// The first of these settings of which the word is a spelling.
#[tactic(auto, using(crate::proofs::FirstFound::found_here, crate::proofs::FirstFound::found_later))]
fn first_spelt(settings: &[Setting], word: &[u8]) -> Option<Setting>
    ensures { result ≡ find (λ setting. is_spelling setting word.now) settings.now }
{
    for setting in settings {
        if setting.is_spelt(word) {
            return Some(*setting);
        }
    }
    None
}

/// The values of a key, in the order of its row.
fn row(key: Key) -> &'static [Setting]
    ensures { result.now ≡ row key }
{
    match key {
        Key::Demand => &[
            Setting::Demand(DemandModel::Undirected),
            Setting::Demand(DemandModel::Directed),
        ],
        Key::Link => &[
            Setting::Link(LinkModel::Undirected),
            Setting::Link(LinkModel::Directed),
            Setting::Link(LinkModel::Bidirected),
        ],
        Key::Capacity => &[
            Setting::Capacity(CapacityModel::Modular),
            Setting::Capacity(CapacityModel::Linear),
            Setting::Capacity(CapacityModel::SingleModular),
            Setting::Capacity(CapacityModel::Explicit),
        ],
        Key::FixedCharge => &[
            Setting::FixedCharge(FixedChargeModel::No),
            Setting::FixedCharge(FixedChargeModel::Yes),
        ],
        Key::Routing => &[
            Setting::Routing(RoutingModel::SinglePath),
            Setting::Routing(RoutingModel::Continuous),
            Setting::Routing(RoutingModel::Integer),
        ],
        Key::Path => &[
            Setting::Path(PathModel::All),
            Setting::Path(PathModel::Explicit),
        ],
        Key::Hop => &[Setting::Hop(HopModel::No), Setting::Hop(HopModel::Yes)],
        Key::Survivability => &[
            Setting::Survivability(SurvivabilityModel::No),
            Setting::Survivability(SurvivabilityModel::Yes),
            Setting::Survivability(SurvivabilityModel::OnePlusOne),
            Setting::Survivability(SurvivabilityModel::SharedPath),
            Setting::Survivability(SurvivabilityModel::Unrestricted),
        ],
    }
}
