//! The commands that a script asks for, and what they answer.
use crate::faults::word_of;
use crate::tasks::Tasks;
use br_path::Files;
use case_text::{Page, Stopped};
use sh_words::{Line, WordFault, split};
use std::alloc::Global;
use tree_ops::{ChangeFault, TreeOps};
use tree_worlds::Reason;

/// The most bytes of a line.
const MOST_BYTES: usize = 1 << 30;

/// Runs the command of a line, and prints what it answers.
pub(crate) fn command<T: TreeOps>(
    page: &mut Page,
    tasks: &mut Tasks<T>,
    files: &Files,
    text: &[u8],
) -> Result<(), Stopped> {
    let refusal = match line(page.alloc(), text)? {
        None => Some(Reason::Syntax),
        Some(line) => refusal(tasks, files, &line)?,
    };
    print_refusal(page, refusal)
}

/// Runs a line, and gives the reason if it fails. Only a command on texts has output for a target.
fn refusal<T: TreeOps>(
    tasks: &mut Tasks<T>,
    files: &Files,
    line: &Line,
) -> Result<Option<Reason>, Stopped> {
    match line.words.items.split_first() {
        Some((name, words)) if line.into.is_none() => {
            match tasks.file_command(files, name.as_slice(), words)? {
                Some(Reason::NotFound) => tasks.text_command(files, line),
                refusal => Ok(refusal),
            }
        }
        _ => match tasks.text_command(files, line)? {
            Some(Reason::NotFound) => Ok(Some(Reason::Syntax)),
            refusal => Ok(refusal),
        },
    }
}

/// The words of a line and its target, if it is one.
fn line(alloc: Global, text: &[u8]) -> Result<Option<Line>, Stopped> {
    if text.len() > MOST_BYTES {
        return Err(Stopped);
    }
    match split(alloc, text) {
        Ok(line) => Ok(Some(line)),
        Err(WordFault::Memory) => Err(Stopped),
        Err(_) => Ok(None),
    }
}

fn print_refusal(page: &mut Page, refusal: Option<Reason>) -> Result<(), Stopped> {
    match refusal {
        None => page.line(b"= done", b""),
        Some(reason) => print_reason(page, reason),
    }
}

fn print_reason(page: &mut Page, reason: Reason) -> Result<(), Stopped> {
    let word: &[u8] = match reason {
        Reason::NotFound => b"not-found",
        Reason::Syntax => b"syntax",
        Reason::Option => b"option",
        Reason::Operand | Reason::Change(ChangeFault::TooLong) => b"operand",
        Reason::False => b"false",
        Reason::Same => b"same",
        Reason::Change(fault) => word_of(fault),
    };
    page.line(b"! ", word)
}
