//! Cases of the words of command lines, and of the options of commands. Each line of standard input is printed, and after it
//! what it gives.
//!
//! `README.md` beside `src` says what each line asks for. A line of any other form, a stream that fails and a call that is out
//! of memory end the program with status 1; the line is then the last that is printed.
#![tactic(auto)]

mod options;
mod spelled;
mod words;

use case_text::{Page, Stopped, Table, found, run};
use std::process::ExitCode;

fn main(rt: HostRuntime) -> ExitCode {
    run(&rt, &mut Cases)
}

/// What a line asks for.
#[derive(Clone, Copy)]
enum Act {
    Case,
    Split,
    Install,
    Sed,
}

const ACTS: [(&[u8], Act); 4] = [
    (b"case", Act::Case),
    (b"split", Act::Split),
    (b"install", Act::Install),
    (b"sed", Act::Sed),
];

/// The cases, which know nothing of each other.
#[derive(Drop)]
struct Cases;

impl Table for Cases {
    fn line(&mut self, page: &mut Page, word: &[u8], text: &[u8]) -> Result<(), Stopped> {
        match found(&ACTS, word)? {
            Act::Case => Ok(()),
            Act::Split => words::split_text(page, text),
            Act::Install => options::install(page, text),
            Act::Sed => options::sed(page, text),
        }
    }
}
