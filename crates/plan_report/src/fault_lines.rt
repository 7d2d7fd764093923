//! The line of a fault.

ghost use Rattle.std.specs.Prelude.{◌≡◌, IfOk};
ghost use Rattle.plan_report.specs.Lines.{bad_text, fault_number, text_fault_line, value_word, unsupported_line, too_long_line, read_line, fault_line};

use crate::numbers::line;
use crate::run_fault::{FileKind, RunFault};
use scaled_numbers::NumberFault;
use snd_model::{Key, Setting};
use snd_reader::TextFault;
use std::alloc::{AllocError, Global};

/// How the program is called.
const USAGE_LINE: &[u8] = b"usage: sndplan plan NET MODEL [--workers N] [--nodes B] \
    | verify NET MODEL PLAN | report NET MODEL PLAN | check NET MODEL \
    | sample NUMBER NODES DEMANDS | trial NUMBER NODES DEMANDS | upgrade PLAN\n";

/// The words that a refused text's line begins with.
fn bad_text(file: FileKind) -> &'static [u8]
    ensures { result.now ≡ bad_text file }
{
    match file {
        FileKind::Network => b"bad text network",
        FileKind::Model => b"bad text model",
        FileKind::Plan => b"bad text plan",
    }
}

/// The number of a fault of a number.
fn fault_number(fault: NumberFault) -> u64
    ensures { result ≡ fault_number fault }
{
    match fault {
        NumberFault::NotANumber { .. } => 1,
        NumberFault::Finer => 2,
        NumberFault::TooLarge => 3,
    }
}

/// The line of a refused network or model text.
fn text_fault_line(alloc: Global, file: FileKind, fault: TextFault) -> Result<Vec<u8>, AllocError>
    ensures { IfOk result (λ text. text.items ≡ text_fault_line file fault) }
{
    let words = bad_text(file);
    match fault {
        TextFault::Header => line(alloc, words, &[1, 0]),
        TextFault::Unexpected { at, .. } => line(alloc, words, &[2, u64::from(at)]),
        TextFault::Number { at, fault } => {
            line(alloc, words, &[3, u64::from(at), fault_number(fault)])
        }
        TextFault::Twice { at } => line(alloc, words, &[4, u64::from(at)]),
        TextFault::Unknown { at } => line(alloc, words, &[5, u64::from(at)]),
        TextFault::Ended { at } => line(alloc, words, &[6, u64::from(at)]),
        TextFault::LongId { at } => line(alloc, words, &[7, u64::from(at)]),
        TextFault::Control { at } => line(alloc, words, &[8, u64::from(at)]),
        TextFault::OutOfMemory => line(alloc, words, &[9, 0]),
    }
}

/// The first spelling of the group of this number in the key's row; nothing where the row has no such
/// group.
fn value_word(key: Key, value: u8) -> &'static [u8]
    ensures { result.now ≡ value_word key value }
{
    match Setting::numbered(key, value) {
        Some(setting) => setting.word(),
        None => b"",
    }
}

/// The line of a value outside the profile.
fn unsupported_line(alloc: Global, key: Key, value: u8) -> Result<Vec<u8>, AllocError>
    ensures { IfOk result (λ text. text.items ≡ unsupported_line key value) }
{
    let mut text = Vec::from_slice(alloc, b"unsupported ")?;
    text.extend_from_slice(key.word())?;
    text.push(b' ')?;
    text.extend_from_slice(value_word(key, value))?;
    text.push(b'\n')?;
    Ok(text)
}

/// The line of a text with too many bytes.
fn too_long_line(file: FileKind) -> &'static [u8]
    ensures { result.now ≡ too_long_line file }
{
    match file {
        FileKind::Network => b"over limit 1 network\n",
        FileKind::Model => b"over limit 1 model\n",
        FileKind::Plan => b"over limit 2 plan\n",
    }
}

/// The line of a text that could not be read.
fn read_line(file: FileKind) -> &'static [u8]
    ensures { result.now ≡ read_line file }
{
    match file {
        FileKind::Network => b"read fault network\n",
        FileKind::Model => b"read fault model\n",
        FileKind::Plan => b"read fault plan\n",
    }
}

/// The line that is written where a run refuses its words or texts.
///
/// - Errors: want of memory alone.
/// - Rule: docs/FORMATS.md, "Lines of faults".
pub fn fault_line(alloc: Global, fault: RunFault) -> Result<Vec<u8>, AllocError>
    ensures { IfOk result (λ text. text.items ≡ fault_line fault) }
{
    match fault {
        RunFault::Usage => Vec::from_slice(alloc, USAGE_LINE),
        RunFault::Text { file, fault } => text_fault_line(alloc, file, fault),
        RunFault::PlanText { rule, at } => {
            line(alloc, b"bad text plan", &[u64::from(rule), u64::from(at)])
        }
        RunFault::LoopLink { link } => line(alloc, b"bad text loop link", &[u64::from(link.0)]),
        RunFault::LoopDemand { demand } => {
            line(alloc, b"bad text loop demand", &[u64::from(demand.0)])
        }
        RunFault::Unsupported { key, value } => unsupported_line(alloc, key, value),
        RunFault::TooLong { file } => Vec::from_slice(alloc, too_long_line(file)),
        RunFault::OverLimit { limit, at } => {
            line(alloc, b"over limit", &[u64::from(limit), u64::from(at)])
        }
        RunFault::Read { file } => Vec::from_slice(alloc, read_line(file)),
    }
}
