//! Cases of trees and worlds: scripts of changes. Each line of standard input is printed, and below it what it gives.
//!
//! `README.md` beside `src` says what each line asks for. A line of any other form, a stream that fails and a call that is out
//! of memory end the program with status 1; the line is then the last that is printed.
#![tactic(auto)]

mod act;
mod changes;
mod commands;
mod faults;
mod inputs;
mod looks;
mod script;
mod shows;
mod tasks;
mod text;

use case_text::{Stopped, run};
use script::Script;
use std::process::ExitCode;
use tree_map::MapTree;

fn main(rt: HostRuntime) -> ExitCode {
    match Script::<MapTree>::new(rt.alloc()) {
        Ok(mut script) => run(&rt, &mut script),
        Err(Stopped) => ExitCode::FAILURE,
    }
}
