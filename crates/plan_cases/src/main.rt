//! Plans of small inputs, and needs of small graphs, as a table.
//!
//! Each line of standard input is printed, and what it asks for is printed below it, indented. `README.md` says which lines
//! there are. A line that isn't understood ends the program with status 1, and so does a call that is out of memory. It is then the
//! last line that is printed.
#![tactic(auto)]

mod case;
mod chosen;
mod input;
mod needs;
mod plans;
mod rows;
mod walks;

use case::Case;
use case_text::{Stopped, run};
use std::process::ExitCode;

fn main(rt: HostRuntime) -> ExitCode {
    match Case::new(rt.alloc()) {
        Ok(mut case) => run(&rt, &mut case),
        Err(Stopped) => ExitCode::FAILURE,
    }
}
