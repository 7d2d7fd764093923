//! One token as the readers see it.

ghost use Rattle.std.specs.Prelude.{◌≡◌, ◌≤◌};

use crate::fault::{Complaint, Wanted};
use scaled_numbers::read_decimal;

/// A token without its place; behind the last token of a text stands its end.
#[derive(Clone, Copy)]
pub enum Lexeme<'a> {
    Word(&'a [u8]),
    Open,
    Close,
    Equals,
    End,
}

impl<'a> Lexeme<'a> {
    ghost use Rattle.snd_reader.specs.Seen.{seen, IsShort};
    ghost use Rattle.snd_reader.specs.Tests.{refused, open_test, close_test, equals_test, number_test};

    /// What is wrong with it where something else is wanted.
    pub fn refused(self, wanted: Wanted) -> Complaint
        ensures { result ≡ refused wanted (seen self.entry) }
    {
        match self {
            Lexeme::End => Complaint::Ended,
            _ => Complaint::Unexpected(wanted),
        }
    }

    /// Whether it is an opening bracket.
    pub fn open(self) -> Result<(), Complaint>
        ensures { result ≡ open_test (seen self.entry) }
    {
        match self {
            Lexeme::Open => Ok(()),
            _ => Err(self.refused(Wanted::Open)),
        }
    }

    /// Whether it is a closing bracket.
    pub fn close(self) -> Result<(), Complaint>
        ensures { result ≡ close_test (seen self.entry) }
    {
        match self {
            Lexeme::Close => Ok(()),
            _ => Err(self.refused(Wanted::Close)),
        }
    }

    /// Whether it is an equals sign.
    pub fn equals(self) -> Result<(), Complaint>
        ensures { result ≡ equals_test (seen self.entry) }
    {
        match self {
            Lexeme::Equals => Ok(()),
            _ => Err(self.refused(Wanted::Equals)),
        }
    }

    /// The number that it spells at a scale of at most 6.
    pub fn number(self, scale: u32) -> Result<u64, Complaint>
        requires scale { scale ≤ 6 }
        requires short { IsShort (seen self) }
        ensures { result ≡ number_test scale (seen self.entry) }
    {
        match self {
            Lexeme::Word(bytes) => match read_decimal(bytes, scale) {
                Ok(value) => Ok(value as u64),
                Err(fault) => Err(Complaint::Number(fault)),
            },
            _ => Err(self.refused(Wanted::Number)),
        }
    }
}
