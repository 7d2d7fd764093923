//! Writes the tables of plans: hands the words, the files and standard output to `table_run`, and ends with its status.
#![tactic(auto)]

use run_ends::end_of_run;
use std::process::ExitCode;
use table_runs::table_run;

fn main(rt: HostRuntime) -> ExitCode {
    end_of_run(
        &rt,
        |words, shelf, out| table_run(rt.alloc(), words, shelf, out),
    )
}
