//! Why a text is not read as a number.

/// Why a text is not read as a whole number of grains.
///
/// - Rule: docs/FORMATS.md, "Numbers in texts".
#[derive(Clone, Copy, Debug, PartialEq, Eq)]
pub enum NumberFault {
    /// The text spells no number: the first place, in bytes, that fits no continuation.
    NotANumber { at: u32 },
    /// The number is not whole at the scale.
    Finer,
    /// The number is whole at the scale, and `10^12` or more.
    TooLarge,
}
