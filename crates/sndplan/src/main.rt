//! Plans networks: hands the words, the files and standard output to `run`, and ends with its status.
#![tactic(auto)]

use plan_io::{FileShelf, OutSink};
use plan_run::{Status, run};
use run_ends::{code_of, words_given};
use run_progress::Progress;
use std::alloc::Global;
use std::io::{self, IsTerminal, Print, Write};
use std::process::ExitCode;
use std::rt::Files;
use std::sync::Wait;
use std::thread::Threads;
use std::time::Clock;
use std::{env, thread};

/// How a run of these words ends, whose line is shown as long as it runs.
fn ends<R, W, C, P>(
    rt: &R,
    alloc: Global,
    words: &[String],
    writer: W,
    progress: &Progress<C, P>,
) -> Status
where
    R: Files + Threads + Wait + Sync,
    W: Write + Drop,
    C: Clock + Sync + Drop,
    P: Print + Sync + Drop,
{
    let mut shelf = FileShelf::new(rt);
    let mut out = OutSink::new(progress.answering(writer));
    let status = run(rt, alloc, words, &mut shelf, &mut out, progress);
    progress.end(rt);
    status
}

fn main(rt: HostRuntime) -> ExitCode {
    let Ok(words) = words_given(rt.alloc(), env::args(&rt)) else {
        return code_of(Status::OutOfMemory);
    };
    let is_terminal = rt.stderr().is_terminal();
    let progress = Progress::new(rt.alloc(), &rt, rt.stderr(), is_terminal);
    let planning = || {
        ends(
            &rt,
            rt.alloc(),
            words.as_slice(),
            io::writer(&rt),
            &progress,
        )
    };
    let status = if is_terminal {
        thread::join(&rt, || progress.keep_showing(&rt), planning).1
    } else {
        planning()
    };
    progress.wipe();
    code_of(status)
}
