//! Cases of paths, files, feeds and sinks. Each line of standard input is printed, and after it what it gives.
//!
//! `README.md` beside `src` says what each line asks for. A line of any other form, a stream that fails and a call that is out
//! of memory end the program with status 1; the line is then the last that is printed.
#![tactic(auto)]

mod act;
mod case;
mod feeds;
mod inputs;
mod paths;
mod sinks;
mod text;

use case::Case;
use case_text::{Stopped, run};
use std::process::ExitCode;

fn main(rt: HostRuntime) -> ExitCode {
    match Case::new(rt.alloc()) {
        Ok(mut case) => run(&rt, &mut case),
        Err(Stopped) => ExitCode::FAILURE,
    }
}
