//! Laws of numbers and their texts. The contract of each function is its law; the functions do nothing.

ghost use Rattle.std.specs.Prelude.{◌≡◌, ◌↔◌, ℕ, ◌+◌, ◌^◌, ◌<◌, ◌≤◌, List, length, Ok, Err};
ghost use Rattle.std.specs.List.{All};
ghost use Rattle.scaled_numbers.specs.Decimal.{SpellsAt, IsRead, IsFault};
ghost use Rattle.scaled_numbers.specs.Scanning.{decimal_of};
ghost use Rattle.scaled_numbers.specs.Canonical.{IsCanonicalDecimal, IsDecimalByte, grains_text};
ghost use Rattle.scaled_numbers.specs.declared.fault.NumberFault.{NumberFault};

/// No text spells two values at one scale.
pub fn one_value_for_a_text()
    ensures { (text : List ℕ) (scale v w : ℕ) → SpellsAt text scale v → SpellsAt text scale w → v ≡ w }
{}

/// A text is read as a value exactly where it spells it, and told for a fault exactly where it has it.
pub fn reading_follows_the_grammar()
    ensures value { (text : List ℕ) (scale v : ℕ) → (decimal_of text scale ≡ Ok v) ↔ IsRead text scale v }
    ensures fault { (text : List ℕ) (scale : ℕ) (fault : NumberFault) → (decimal_of text scale ≡ Err fault) ↔ IsFault text scale fault }
{}

/// A value has one canonical decimal at a scale, and that one is written.
pub fn one_canonical_decimal()
    ensures { (value scale : ℕ) (text : List ℕ) → value < 2 ^ 128 → scale ≤ 12 → IsCanonicalDecimal scale value text ↔ (text ≡ grains_text value scale) }
{}

/// What is written is read back as the same value.
pub fn written_is_read_back()
    ensures { (value scale : ℕ) → scale ≤ 12 → value < 10 ^ (12 + scale) → decimal_of (grains_text value scale) scale ≡ Ok value }
{}

/// What is written is one word of at most 52 bytes, digits and a point alone.
pub fn written_is_one_word()
    ensures some { (value scale : ℕ) → value < 2 ^ 128 → scale ≤ 12 → 0 < length (grains_text value scale) }
    ensures short { (value scale : ℕ) → value < 2 ^ 128 → scale ≤ 12 → length (grains_text value scale) ≤ 52 }
    ensures bytes { (value scale : ℕ) → value < 2 ^ 128 → scale ≤ 12 → All IsDecimalByte (grains_text value scale) }
{}
