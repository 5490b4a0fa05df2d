//! The words of command lines.
use crate::spelled::put_line;
use case_text::{Page, Stopped};
use sh_words::{Line, Redirect, WordFault, split};

/// The most bytes of a line.
const LENGTH_LIMIT: usize = 0xffff;

/// Prints the words of a line and its target, or its first fault.
pub(crate) fn split_text(page: &mut Page, text: &[u8]) -> Result<(), Stopped> {
    if text.len() > LENGTH_LIMIT {
        return Err(Stopped);
    }
    match split(page.alloc(), text) {
        Ok(line) => put_words(page, &line),
        Err(WordFault::OpenQuote) => page.line(b"! open-quote", b""),
        Err(WordFault::Unsupported(byte, place)) => put_fault(page, byte, place),
        Err(WordFault::Memory) => Err(Stopped),
    }
}

fn put_words(page: &mut Page, line: &Line) -> Result<(), Stopped> {
    page.number(b"= ", line.words.items.len() as u64)?;
    for word in line.words.items.as_slice() {
        put_line(page, b"  ", word.as_slice())?;
    }
    match &line.into {
        None => Ok(()),
        Some(target) => put_target(page, target),
    }
}

fn put_target(page: &mut Page, target: &Redirect) -> Result<(), Stopped> {
    let front: &[u8] = if target.append { b"= >> " } else { b"= > " };
    put_line(page, front, target.word.as_slice())
}

fn put_fault(page: &mut Page, byte: u8, place: u32) -> Result<(), Stopped> {
    page.put(b"! unsupported ")?;
    page.put(&[byte])?;
    page.number(b" ", u64::from(place))
}
