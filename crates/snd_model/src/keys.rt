//! The keys of a model text.

ghost use Rattle.std.specs.Prelude.{◌≡◌, nat_eq};
ghost use Rattle.std.specs.List.{find};
ghost use Rattle.std.specs.Cmp.Lexicographic.{pointwise};
ghost use Rattle.snd_model.specs.Table.{key_word};

/// What a setting of a model text is about, in the order of the model table.
#[derive(Clone, Copy, Debug, PartialEq, Eq)]
pub enum Key {
    /// `DEMAND_MODEL`
    Demand,
    /// `LINK_MODEL`
    Link,
    /// `LINK_CAPACITY_MODEL`
    Capacity,
    /// `FIXED_CHARGE_MODEL`
    FixedCharge,
    /// `ROUTING_MODEL`
    Routing,
    /// `ADMISSIBLE_PATH_MODEL`
    Path,
    /// `HOP_LIMIT_MODEL`
    Hop,
    /// `SURVIVABILITY_MODEL`
    Survivability,
}

/// The keys, in the order of the model table, which is that of a canonical text.
pub const KEYS: [Key; 8] = [
    Key::Demand,
    Key::Link,
    Key::Capacity,
    Key::FixedCharge,
    Key::Routing,
    Key::Path,
    Key::Hop,
    Key::Survivability,
];

impl Key {
    ghost use Rattle.std.specs.Prelude.{◌≡◌};
    ghost use Rattle.snd_model.specs.Table.{key_word, key_named};

    /// The word of the key.
    ///
    /// - Rule: docs/FORMATS.md, "Model texts".
    /// - Time: constant.
    pub fn word(self) -> &'static [u8]
        ensures { result.now ≡ key_word self }
    {
        match self {
            Key::Demand => b"DEMAND_MODEL".as_slice(),
            Key::Link => b"LINK_MODEL".as_slice(),
            Key::Capacity => b"LINK_CAPACITY_MODEL".as_slice(),
            Key::FixedCharge => b"FIXED_CHARGE_MODEL".as_slice(),
            Key::Routing => b"ROUTING_MODEL".as_slice(),
            Key::Path => b"ADMISSIBLE_PATH_MODEL".as_slice(),
            Key::Hop => b"HOP_LIMIT_MODEL".as_slice(),
            Key::Survivability => b"SURVIVABILITY_MODEL".as_slice(),
        }
    }

    /// The key of this word.
    ///
    /// - Rule: docs/FORMATS.md, "Model texts".
    /// - Time: constant.
    pub fn named(word: &[u8]) -> Option<Key>
        ensures { result ≡ key_named word.now }
    {
        first_named(&KEYS, word)
    }
}

/// The first of these keys that has this word.
#[tactic(auto, using(crate::proofs::FirstFound::found_here, crate::proofs::FirstFound::found_later))]
fn first_named(keys: &[Key], word: &[u8]) -> Option<Key>
    ensures { result ≡ find (λ key. pointwise nat_eq word.now (key_word key)) keys.now }
{
    for key in keys {
        if word == key.word() {
            return Some(*key);
        }
    }
    None
}
