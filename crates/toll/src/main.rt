//! The programs of the office.
//!
//! `toll script` runs a script from standard input, over an office that is empty at first and kept in
//! memory. `toll --db FILE` does a command of the plant, imports a file of actuals, or serves owners, over
//! the office in a file.
#![tactic(auto)]

use std::process::ExitCode;
use toll_office::run;
use toll_opener::{SqlOpener, run_script};

fn main(rt: HostRuntime) -> ExitCode {
    ExitCode::from(u8::try_from(run(&rt, SqlOpener::new(), run_script)).unwrap_or(u8::MAX))
}
