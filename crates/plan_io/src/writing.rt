//! A whole text goes out.

ghost use Rattle.std.specs.Prelude.{◌<◌, length, take, OnOk, IfErr};
ghost use Rattle.std.specs.Io.KnownBytes.{Appends};
ghost use Rattle.plan_io.specs.Causes.{HasCause};

use crate::failed::Failed;
use crate::sink::Sink;
use thiserror::Error;

/// The sink failed when it had taken so many bytes of those that were to be written.
#[derive(Clone, Copy, Debug, PartialEq, Eq, Error)]
#[error("the sink failed after {written} bytes")]
pub struct WriteFault {
    pub written: u64,
}

/// Writes all of the bytes, and takes no memory.
///
/// - Errors: `WriteFault`, only where the sink's count of faults rose in this call. Exactly the first
///   `written` bytes were taken.
/// - Rule: docs/DEFINITIONS.md, "Shelves, sinks and gates".
/// - Time: linear in the bytes, and at most one call of the sink for each.
pub fn write_whole<W: Sink>(out: &mut W, bytes: &[u8]) -> Result<(), WriteFault>
    ensures all { OnOk result (Appends (W.contents out.old) (W.contents out.new) bytes.now) }
    ensures front { IfErr result
        (λ fault. Appends (W.contents out.old) (W.contents out.new) (take fault.written bytes.now)) }
    ensures cut { IfErr result (λ fault. fault.written < length bytes.now) }
    ensures cause { HasCause (W.faults out.old) (W.faults out.new) result }
{
    let mut written = 0;
    while written < bytes.len() {
        match out.write(&bytes[written..]) {
            Ok(count) => written += count,
            Err(Failed) => {
                return Err(WriteFault {
                    written: written as u64,
                });
            }
        }
    }
    Ok(())
}
