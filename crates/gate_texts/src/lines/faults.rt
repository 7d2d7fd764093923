//! The line of each fault.

use super::push_line;
use plan_base::{DemandId, LinkId};
use plan_report::{FileKind, RunFault, fault_line};
use scaled_numbers::NumberFault;
use snd_model::Key;
use snd_reader::{TextFault, Wanted};
use std::alloc::Global;

/// A fault of a network text.
fn network(fault: TextFault) -> RunFault {
    RunFault::Text {
        file: FileKind::Network,
        fault,
    }
}

/// A fault of a model text.
fn model(fault: TextFault) -> RunFault {
    RunFault::Text {
        file: FileKind::Model,
        fault,
    }
}

/// A fault of the number at byte 7 of a network text.
fn number(fault: NumberFault) -> RunFault {
    network(TextFault::Number { at: 7, fault })
}

/// Faults of each kind.
fn faults() -> [RunFault; 18] {
    [
        network(TextFault::Header),
        model(TextFault::Unexpected {
            at: 12,
            wanted: Wanted::Key,
        }),
        number(NumberFault::NotANumber { at: 1 }),
        number(NumberFault::Finer),
        number(NumberFault::TooLarge),
        model(TextFault::Twice { at: 8 }),
        network(TextFault::Unknown { at: 9 }),
        network(TextFault::Ended { at: 103 }),
        network(TextFault::LongId { at: 4 }),
        network(TextFault::Control { at: 5 }),
        RunFault::PlanText {
            rule: 2,
            at: 4294967295,
        },
        RunFault::LoopLink { link: LinkId(0) },
        RunFault::LoopDemand {
            demand: DemandId(3),
        },
        RunFault::Unsupported {
            key: Key::Routing,
            value: 1,
        },
        RunFault::TooLong {
            file: FileKind::Network,
        },
        RunFault::TooLong {
            file: FileKind::Plan,
        },
        RunFault::OverLimit { limit: 5, at: 4097 },
        RunFault::Read {
            file: FileKind::Model,
        },
    ]
}

/// Adds the line of each fault.
pub(crate) fn tell_faults(alloc: Global, text: &mut Vec<u8>) -> Option<()> {
    for fault in faults() {
        push_line(fault_line(alloc, fault), text)?;
    }
    Some(())
}
