//! How a program of cases runs.
use crate::notation::spelled_out;
use crate::page::Page;
use crate::stopped::Stopped;
use crate::words::word;
use std::alloc::Global;
use std::io::{self, Read, Write};
use std::process::ExitCode;

/// What a program of cases does with a line.
pub trait Table {
    /// Takes the word that begins a line and the text after it, spelled out, and prints its answers.
    fn line(&mut self, page: &mut Page, word: &[u8], text: &[u8]) -> Result<(), Stopped>;
}

/// Prints each line of standard input with its answers.
pub fn run<R: Input + Print + AllocGlobal, T: Table>(rt: &R, table: &mut T) -> ExitCode {
    match read_and_print(rt, table) {
        Ok(()) => ExitCode::SUCCESS,
        Err(Stopped) => ExitCode::FAILURE,
    }
}

fn read_and_print<R: Input + Print + AllocGlobal, T: Table>(
    rt: &R,
    table: &mut T,
) -> Result<(), Stopped> {
    let mut text = Vec::new(rt.alloc());
    rt.reader().read_to_end(&mut text)?;
    let mut page = Page::new(rt.alloc());
    let answered = answer(rt.alloc(), table, &mut page, text.as_slice());
    io::writer(rt).write_all(page.as_slice())?;
    answered
}

fn answer<T: Table>(
    alloc: Global,
    table: &mut T,
    page: &mut Page,
    text: &[u8],
) -> Result<(), Stopped> {
    let text = text.strip_suffix(b"\n").unwrap_or(text);
    for line in text.split(|byte| *byte == b'\n') {
        answer_line(alloc, table, page, line)?;
    }
    Ok(())
}

fn answer_line<T: Table>(
    alloc: Global,
    table: &mut T,
    page: &mut Page,
    line: &[u8],
) -> Result<(), Stopped> {
    page.line(line, b"")?;
    if line.is_empty() || line.starts_with(b"#") {
        return Ok(());
    }
    let (word, text) = word(line);
    let text = spelled_out(alloc, text)?;
    table.line(page, word, text.as_slice())
}
