//! Why a text is not read.

ghost use Rattle.std.specs.Prelude.{◌≡◌};
ghost use Rattle.snd_reader.specs.declared.fault.TextFault.TheVariants.{OutOfMemory};
ghost use Rattle.snd_reader.specs.Faults.{fault_at};

use scaled_numbers::NumberFault;
use std::alloc::{AllocError, AllocFailed};
use thiserror::Error;

/// What the grammar has in a place.
#[derive(Clone, Copy, Debug, PartialEq, Eq)]
pub enum Wanted {
    Name,
    Number,
    Open,
    Close,
    Equals,
    Section,
    Key,
    Value,
    Nothing,
}

/// Why a text is not read. A place is that of the first byte of the bad token, counted from 0.
#[derive(Clone, Copy, Debug, PartialEq, Eq, Error)]
pub enum TextFault {
    #[error("the first line is not the header")]
    Header,
    #[error("a token cannot stand where it stands")]
    Unexpected { at: u32, wanted: Wanted },
    #[error("a word is no number of its field")]
    Number { at: u32, fault: NumberFault },
    #[error("a name, a section or a key stands there already")]
    Twice { at: u32 },
    #[error("a name is that of no node")]
    Unknown { at: u32 },
    #[error("the text ends where more is needed")]
    Ended { at: u32 },
    #[error("a name has more than 64 bytes")]
    LongId { at: u32 },
    #[error("a byte may stand in comments only")]
    Control { at: u32 },
    #[error("out of memory")]
    OutOfMemory,
}

impl<T: Drop> From<AllocFailed<T>> for TextFault {
    ghost from_gives = { λ _ e. e ≡ OutOfMemory };

    fn from(_e: AllocFailed<T>) -> TextFault {
        TextFault::OutOfMemory
    }
}

impl From<AllocError> for TextFault {
    ghost from_gives = { λ _ e. e ≡ OutOfMemory };

    fn from(_e: AllocError) -> TextFault {
        TextFault::OutOfMemory
    }
}

/// What is wrong with a token.
#[derive(Clone, Copy, Debug, PartialEq, Eq)]
pub enum Complaint {
    Unexpected(Wanted),
    Number(NumberFault),
    Twice,
    LongId,
    Ended,
}

impl Complaint {
    /// The fault of a text in which this is wrong with the token at the place.
    pub fn at(self, at: u32) -> TextFault
        ensures { result ≡ fault_at at self }
    {
        match self {
            Complaint::Unexpected(wanted) => TextFault::Unexpected { at, wanted },
            Complaint::Number(fault) => TextFault::Number { at, fault },
            Complaint::Twice => TextFault::Twice { at },
            Complaint::LongId => TextFault::LongId { at },
            Complaint::Ended => TextFault::Ended { at },
        }
    }
}
