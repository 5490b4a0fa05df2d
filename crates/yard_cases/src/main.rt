//! Scripts of the ready set, lists of turns that are judged, and scripts of cells for results, as a table.
//!
//! A case is a block of lines, and an empty line ends it. Each line is printed, and what it asks for below it. A line
//! that isn't understood, a stream that fails and out of memory end the program with status 1.
//!
//!     # TEXT                says what the cases after it show
//!     case NAME             names the case
//!     tasks N               the graph of N tasks that need nothing, at most 512
//!     need TASK ON..        the task needs these; `need 3-5 0-1` lets each of tasks 3, 4 and 5 need 0 and 1
//!     chain                 each task needs the one before it
//!     judge N TURN..        judges a list of turns for N workers; `S1.7` is worker 1 that starts task 7, `E1.7` that ends it
//!     workers N             opens the yard of the graph; the rest of the case is its script
//!     take WORKER           the worker asks what to do
//!     finish WORKER         the worker ends what it runs
//!     running WORKER        what the worker runs
//!     drain                 the workers ask and end by turns, until all are told that there is nothing left
//!     history               all turns, and what they are judged to be
//!     summary               how many turns there are, and what they are judged to be
//!     board N               opens a board of N cells and two notes of it; the rest of the case is its script
//!     post NOTES TASK VALUE posts a value with the first notes or the second
//!     read NOTES TASK       what the notes find in a cell
//!     compare               compares the two notes
#![tactic(auto)]

mod board;
mod case;
mod input;
mod script;
mod stopped;

use case::run_case;
use std::alloc::Global;
use std::io::{self, Read, Write};
use std::process::ExitCode;
use stopped::Stopped;

fn main(rt: HostRuntime) -> ExitCode {
    match run(&rt) {
        Ok(()) => ExitCode::SUCCESS,
        Err(Stopped) => ExitCode::FAILURE,
    }
}

fn run<R: Input + Print + AllocGlobal>(rt: &R) -> Result<(), Stopped> {
    let mut text = Vec::new(rt.alloc());
    rt.reader().read_to_end(&mut text)?;
    let printed = answers(rt.alloc(), text.as_slice())?;
    Ok(io::writer(rt).write_all(printed.as_slice())?)
}

fn answers(alloc: Global, text: &[u8]) -> Result<Vec<u8>, Stopped> {
    let mut printed = Vec::new(alloc);
    let mut lines = Vec::new(alloc);
    for line in text.split(|byte| *byte == b'\n') {
        if line.is_empty() {
            run_case(alloc, lines.as_slice(), &mut printed)?;
            printed.push(b'\n')?;
            lines.clear();
        } else {
            lines.push(line)?;
        }
    }
    Ok(printed)
}
