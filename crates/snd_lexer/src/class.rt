//! The classes of bytes.

ghost use Rattle.std.specs.Prelude.{◌≡◌};
ghost use Rattle.snd_lexer.specs.Cutting.{class_of};

use crate::token::Dialect;

/// What a byte is where neither a comment nor a word has begun.
#[derive(Clone, Copy, Debug, PartialEq, Eq)]
pub enum Class {
    Blank,
    Hash,
    Open,
    Close,
    Equals,
    Word,
    Forbidden,
}

/// The class of a byte.
pub(crate) fn classify(dialect: Dialect, byte: u8) -> Class
    ensures { result ≡ class_of dialect byte }
{
    match byte {
        b' ' | b'\t' | b'\r' | b'\n' => Class::Blank,
        b'#' => Class::Hash,
        b'(' => Class::Open,
        b')' => Class::Close,
        b'=' if dialect == Dialect::Model => Class::Equals,
        0..=31 | 127 => Class::Forbidden,
        _ => Class::Word,
    }
}
