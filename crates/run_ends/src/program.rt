//! A program as the system starts it.

ghost use Rattle.std.specs.Prelude.{◌≡◌};
ghost use Rattle.std.specs.Process.{exit_status};
ghost use Rattle.command_texts.specs.Statuses.{exit_number};
ghost use Rattle.run_ends.specs.Exits.{ExitsSo};

use crate::words::words_given;
use command_texts::Status;
use plan_io::{FileShelf, OutSink};
use std::env;
use std::io::{self, Printer};
use std::process::ExitCode;

/// What a program exits with whose run ends so: the number of its status.
///
/// - Rule: docs/FORMATS.md, "Statuses".
pub fn code_of(status: Status) -> ExitCode
    ensures { exit_status result ≡ exit_number status }
{
    ExitCode::from(status.number())
}

/// Hands the words, the files and standard output to a run, and ends as it does; where memory is wanting for the words,
/// nothing is run.
///
/// - Rule: docs/FORMATS.md, "Commands".
pub fn end_of_run<F>(rt: &HostRuntime, run: F) -> ExitCode
where
    F: FnOnce(
        &[String],
        &mut FileShelf<'_, HostRuntime>,
        &mut OutSink<Printer<'_, HostRuntime>>,
    ) -> Status,
    requires { F.IsAlwaysCallable run }
    // It exits with the number of the status that the run ends with, or of want of memory.
    ensures { ExitsSo (λ status. (words : _) × (shelf later : _) × (out last : _) × F.post run words shelf out status later last) result }
{
    let Ok(words) = words_given(rt.alloc(), env::args(rt)) else {
        return code_of(Status::OutOfMemory);
    };
    let mut shelf = FileShelf::new(rt);
    let mut out = OutSink::new(io::writer(rt));
    code_of(run(words.as_slice(), &mut shelf, &mut out))
}
