//! Why a run refuses its words or texts.

use plan_base::{DemandId, LinkId};
use snd_model::Key;
use snd_reader::TextFault;

/// A text that the words name.
#[derive(Clone, Copy, Debug, PartialEq, Eq)]
pub enum FileKind {
    Network,
    Model,
    Plan,
}

/// Why a run refuses its words or texts.
#[derive(Clone, Copy, Debug, PartialEq, Eq)]
pub enum RunFault {
    /// The words are not read.
    Usage,
    /// A network or model text is not spelt by its grammar.
    Text { file: FileKind, fault: TextFault },
    /// A plan text is not spelt by its grammar: the number of the rule, and the place in bytes.
    PlanText { rule: u8, at: u32 },
    /// The ends of a link are equal.
    LoopLink { link: LinkId },
    /// The ends of a demand are equal.
    LoopDemand { demand: DemandId },
    /// A model value is outside the profile: its key, and the number of its group in the key's row of
    /// the table, from 0.
    Unsupported { key: Key, value: u8 },
    /// A text has more bytes than its limit.
    TooLong { file: FileKind },
    /// A quantity passes the limit of this number.
    OverLimit { limit: u8, at: u32 },
    /// The shelf failed while this text was read.
    Read { file: FileKind },
}
