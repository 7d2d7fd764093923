//! Draws plans: hands the words, the files and standard output to `picture_run`, and ends with its status.
#![tactic(auto)]

use picture_runs::picture_run;
use run_ends::end_of_run;
use std::process::ExitCode;

fn main(rt: HostRuntime) -> ExitCode {
    end_of_run(
        &rt,
        |words, shelf, out| picture_run(rt.alloc(), words, shelf, out),
    )
}
