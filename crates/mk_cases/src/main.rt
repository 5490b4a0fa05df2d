//! Cases of recipes and of expansions: what each public call of `mk_syntax` and `mk_expand` gives.
//!
//! Each line of standard input is printed, and after it what it answers, indented by two blanks. README.md says which
//! lines there are. Any other line, an answer out of memory and a stream that fails end the program with status 1. What
//! was printed until then shows the line.
#![tactic(auto)]

mod act;
mod case;
mod page;
mod recipe;
mod stopped;
mod text;
mod value;

use case::Case;
use std::alloc::Global;
use std::io::{self, Read, Write};
use std::process::ExitCode;
use stopped::Stopped;

fn main(rt: HostRuntime) -> ExitCode {
    match run(&rt) {
        Ok(()) => ExitCode::SUCCESS,
        Err(Stopped) => ExitCode::FAILURE,
    }
}

fn run<R: Input + Print + AllocGlobal>(rt: &R) -> Result<(), Stopped> {
    let mut text = Vec::new(rt.alloc());
    rt.reader().read_to_end(&mut text)?;
    let (printed, answered) = answers(rt.alloc(), without_end(text.as_slice()));
    io::writer(rt).write_all(printed.as_slice())?;
    answered
}

/// What is printed, and whether all lines were answered.
fn answers(alloc: Global, text: &[u8]) -> (Vec<u8>, Result<(), Stopped>) {
    let mut case = Case::new(alloc);
    let answered = answer(&mut case, text);
    (case.page.printed, answered)
}

fn answer(case: &mut Case, text: &[u8]) -> Result<(), Stopped> {
    for line in text.split(|byte| *byte == b'\n') {
        case.line(line)?;
    }
    Ok(())
}

/// A text without its last newline.
fn without_end(text: &[u8]) -> &[u8] {
    match text.split_last() {
        Some((b'\n', front)) => front,
        _ => text,
    }
}
