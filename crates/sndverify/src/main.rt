//! The verifier alone: hands the words, the files and standard output to `verify_run`, and ends with its status.
#![tactic(auto)]

use run_ends::end_of_run;
use std::process::ExitCode;
use verify_runs::verify_run;

fn main(rt: HostRuntime) -> ExitCode {
    end_of_run(
        &rt,
        |words, shelf, out| verify_run(rt.alloc(), words, shelf, out),
    )
}
