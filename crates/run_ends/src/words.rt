//! The words that a program is given.

ghost use Rattle.std.specs.Prelude.{◌≡◌, ◌≢◌, [], IfErr};
ghost use Rattle.std.specs.Result.{IsErr, IsOkAnd};
ghost use Rattle.std.specs.IoError.{error_kind};
ghost use Rattle.std.specs.declared.io.ErrorKind.TheVariants.{OutOfMemory};

use std::alloc::{AllocError, Global};
use std::env::Args;
use std::io;

/// The words after the program's name among its arguments, or none where one of these is not UTF-8, since such words are none
/// that are read.
///
/// - Takes: what the system tells of the arguments.
/// - Errors: want of memory alone.
/// - Rule: docs/FORMATS.md, "Commands".
pub fn words_given(alloc: Global, args: io::Result<Args>) -> Result<Vec<String>, AllocError>
    ensures unread { IfErr args (λ error. error_kind error ≢ OutOfMemory → IsOkAnd result (λ words. words.items ≡ [])) }
    ensures wanting { IfErr args (λ error. error_kind error ≡ OutOfMemory → IsErr result) }
{
    match args {
        Ok(args) => args.skip(1).collect(alloc),
        Err(error) if error.kind() == io::ErrorKind::OutOfMemory => Err(AllocError),
        Err(_) => Ok(Vec::new(alloc)),
    }
}
