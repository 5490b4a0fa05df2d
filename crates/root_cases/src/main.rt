//! Cases of images of root file systems. Each line of standard input is printed, and after it what it gives.
//!
//! `README.md` beside `src` says what each line asks for. A line of any other form, a stream that fails and a call that is out
//! of memory end the program with status 1; the line is then the last that is printed.
#![tactic(auto)]

mod cases;
mod kinds;
mod roots;

use case_text::run;
use cases::Cases;
use std::process::ExitCode;

fn main(rt: HostRuntime) -> ExitCode {
    let mut cases = Cases::new(rt.alloc());
    run(&rt, &mut cases)
}
