//! Runs of the programs about one plan: the verifier alone, the writer of tables and the drawer of pictures.

use crate::runs::{ROOM, words_of};
use picture_runs::picture_run;
use plan_io::{MemSink, SureShelf};
use std::alloc::Global;
use table_runs::table_run;
use verify_runs::verify_run;

/// A program about one plan.
#[derive(Clone, Copy)]
pub(crate) enum Program {
    Verifier,
    Tables,
    Pictures,
}

/// The status of a run of this program, by the words of this line over a shelf, and what it wrote. None where memory is
/// wanting before it begins.
pub(crate) fn ended_alone(
    alloc: Global,
    program: Program,
    line: &str,
    mut shelf: SureShelf,
) -> Option<(u8, MemSink)> {
    let words = words_of(alloc, line).ok()?;
    let words = words.as_slice();
    let mut sink = MemSink::new(alloc, ROOM, &[]).ok()?;
    let status = match program {
        Program::Verifier => verify_run(alloc, words, &mut shelf, &mut sink),
        Program::Tables => table_run(alloc, words, &mut shelf, &mut sink),
        Program::Pictures => picture_run(alloc, words, &mut shelf, &mut sink),
    };
    Some((status.number(), sink))
}
