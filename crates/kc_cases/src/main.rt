//! Cases of configurations: a program that answers a table of calls.
//!
//! Standard input is read line by line. Each line is printed as it is, and below it what it answers, each line of an answer
//! after `-> `. `README.md`, beside this crate's `src`, lists the lines that are understood. At any other line, a stream that
//! fails and out of memory the program ends with status 1; the question at which it stopped is the last that it prints.
#![tactic(auto)]

mod case;
mod conditions;
mod configs;
mod graphs;
mod input;
mod menus;
mod parts;
mod rows;
mod sheet;
mod stopped;
mod text;
mod values;

use case::Case;
use std::io::{self, Read, Write};
use std::process::ExitCode;
use stopped::Stopped;

fn main(rt: HostRuntime) -> ExitCode {
    match run(&rt) {
        Ok(()) => ExitCode::SUCCESS,
        Err(Stopped) => ExitCode::FAILURE,
    }
}

fn run<R: Input + Print + AllocGlobal>(rt: &R) -> Result<(), Stopped> {
    let mut text = Vec::new(rt.alloc());
    rt.reader().read_to_end(&mut text)?;
    let mut case = Case::new(rt.alloc())?;
    let answered = answer(&mut case, without_last_newline(text.as_slice()));
    io::writer(rt).write_all(case.sheet.text.as_slice())?;
    answered
}

// Answers each line of a text, up to the first that stops the program.
fn answer(case: &mut Case, text: &[u8]) -> Result<(), Stopped> {
    for line in text.split(|byte| *byte == b'\n') {
        case.line(line)?;
    }
    Ok(())
}

fn without_last_newline(text: &[u8]) -> &[u8] {
    match text.split_last() {
        Some((b'\n', front)) => front,
        _ => text,
    }
}
