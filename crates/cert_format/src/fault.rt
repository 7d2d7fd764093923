//! Why a plan text is not read.

use thiserror::Error;

/// Why a plan text is not read. Places are counted in bytes from 0.
///
/// - Rule: docs/FORMATS.md, "Plan texts".
#[derive(Clone, Copy, Debug, PartialEq, Eq, Error)]
pub enum PlanFault {
    #[error("a line cannot stand where it stands")]
    Line {
        /// The first byte of the first line that cannot stand there.
        at: u32,
    },
    #[error("the text ends where a line must follow")]
    Ended {
        /// The length of the text.
        at: u32,
    },
    #[error("out of memory")]
    OutOfMemory,
}
