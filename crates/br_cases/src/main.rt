//! Cases of words and of whole runs. Each line of standard input is printed, and after it what it gives.
//!
//! `README.md` beside `src` says what each line asks for. A line of any other form, a stream that fails and a call that is out
//! of memory end the program with status 1; the line is then the last that is printed.
#![tactic(auto)]

mod case;
mod input;
mod runs;
mod words;

use case::Case;
use case_text::run;
use std::process::ExitCode;

fn main(rt: HostRuntime) -> ExitCode {
    run(&rt, &mut Case::new(rt.alloc()))
}
