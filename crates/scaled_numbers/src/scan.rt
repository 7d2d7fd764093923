//! The grammar of numbers, byte by byte.

ghost use Rattle.std.specs.Prelude.{◌≡◌, ◌≤◌, ◌<◌, ◌+◌, ◌^◌, length, IfOk, IfErr};
ghost use Rattle.scaled_numbers.specs.Decimal.{Numeral, Spells, IsMisfit};
ghost use Rattle.scaled_numbers.specs.Scanning.{glyph_of, stage_after, is_last, with_byte};
ghost use Rattle.scaled_numbers.specs.Kept.{Expects, Sees};
ghost use Rattle.scaled_numbers.specs.declared.limits.TheConstants.{MAX_TEXT_BYTES};

use crate::digits::Digits;

/// Exponents are kept up to here: no text is long enough to make up for more.
const POWER_CAP: u64 = 1_000_000_000;

/// How far a number has been read.
#[derive(Clone, Copy, Debug, PartialEq, Eq)]
pub enum Stage {
    Start,
    /// In the digits before the point.
    Whole,
    /// Behind a point with no digit before it.
    Point,
    /// Behind a point with a digit before or behind it.
    Fraction,
    /// Behind the exponent's letter.
    Mark,
    /// Behind the exponent's sign.
    Signed,
    /// In the exponent's digits.
    Power,
}

/// What a byte may be in a number.
#[derive(Clone, Copy, Debug, PartialEq, Eq)]
pub enum Glyph {
    Digit,
    Dot,
    /// `E` or `e`.
    Letter,
    Plus,
    Minus,
    Other,
}

impl Glyph {
    fn of(byte: u8) -> Self
        ensures { result ≡ glyph_of byte }
    {
        match byte {
            b'0'..=b'9' => Glyph::Digit,
            b'.' => Glyph::Dot,
            b'E' | b'e' => Glyph::Letter,
            b'+' => Glyph::Plus,
            b'-' => Glyph::Minus,
            _ => Glyph::Other,
        }
    }
}

impl Stage {
    /// Where the number goes on with this, if it may.
    fn after(self, glyph: Glyph) -> Option<Stage>
        ensures { result ≡ stage_after self glyph }
    {
        match (self, glyph) {
            (Stage::Start | Stage::Whole, Glyph::Digit) => Some(Stage::Whole),
            (Stage::Start, Glyph::Dot) => Some(Stage::Point),
            (Stage::Whole, Glyph::Dot) => Some(Stage::Fraction),
            (Stage::Point | Stage::Fraction, Glyph::Digit) => Some(Stage::Fraction),
            (Stage::Whole | Stage::Fraction, Glyph::Letter) => Some(Stage::Mark),
            (Stage::Mark, Glyph::Plus | Glyph::Minus) => Some(Stage::Signed),
            (Stage::Mark | Stage::Signed | Stage::Power, Glyph::Digit) => Some(Stage::Power),
            _ => None,
        }
    }

    /// Whether the number may end here.
    fn may_end(self) -> bool
        ensures { result ≡ is_last self }
    {
        matches!(self, Stage::Whole | Stage::Fraction | Stage::Power)
    }
}

/// What is kept of a number that is being read.
#[derive(Clone, Copy)]
pub(crate) struct Scan {
    pub(crate) stage: Stage,
    pub(crate) digits: Digits,
    /// Digits behind the point.
    pub(crate) places: u64,
    /// The exponent without its sign, up to `POWER_CAP`.
    pub(crate) power: u64,
    /// The exponent has a minus.
    pub(crate) negative: bool,
}

impl Scan {
    /// Takes the byte, which leads to the stage.
    fn keep(self, stage: Stage, glyph: Glyph, byte: u8) -> Self
        requires glyph { glyph ≡ glyph_of byte }
        requires zeros { self.digits.zeros < 2 ^ 32 }
        requires places { self.places < 2 ^ 32 }
        requires power { self.power ≤ 10 ^ 9 }
        ensures stage { result.stage ≡ stage }
        ensures zeros { result.digits.zeros ≤ self.digits.zeros + 1 }
        ensures places { result.places ≤ self.places + 1 }
        ensures power { result.power ≤ 10 ^ 9 }
        ensures sees { (n : Numeral) → Expects stage n → Sees self n → Sees result (with_byte stage glyph byte n) }
    {
        match (stage, glyph) {
            (Stage::Whole, Glyph::Digit) => Scan {
                stage,
                digits: self.digits.push(byte - b'0'),
                ..self
            },
            (Stage::Fraction, Glyph::Digit) => Scan {
                stage,
                digits: self.digits.push(byte - b'0'),
                places: self.places + 1,
                ..self
            },
            (Stage::Signed, Glyph::Minus) => Scan {
                stage,
                negative: true,
                ..self
            },
            (Stage::Power, Glyph::Digit) => Scan {
                stage,
                power: (self.power * 10 + u64::from(byte - b'0')).min(POWER_CAP),
                ..self
            },
            _ => Scan { stage, ..self },
        }
    }
}

/// The whole text as a number, or the first place that fits none.
pub(crate) fn scan_all(text: &[u8]) -> Result<Scan, u32>
    requires { length text.now ≤ MAX_TEXT_BYTES }
    ensures spells { IfOk result (λ scan. (n : Numeral) × Spells text.now n × Sees scan n) }
    ensures zeros { IfOk result (λ scan. scan.digits.zeros ≤ MAX_TEXT_BYTES) }
    ensures places { IfOk result (λ scan. scan.places ≤ MAX_TEXT_BYTES) }
    ensures power { IfOk result (λ scan. scan.power ≤ 10 ^ 9) }
    ensures misfit { IfErr result (λ at. IsMisfit text.now at) }
{
    let mut scan = Scan {
        stage: Stage::Start,
        digits: Digits::none(),
        places: 0,
        power: 0,
        negative: false,
    };
    for (i, byte) in text.iter().enumerate() {
        let glyph = Glyph::of(*byte);
        let Some(stage) = scan.stage.after(glyph) else {
            return Err(i as u32);
        };
        scan = scan.keep(stage, glyph, *byte);
    }
    if !scan.stage.may_end() {
        return Err(text.len() as u32);
    }
    Ok(scan)
}
