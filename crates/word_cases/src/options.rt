//! The options of commands.
use crate::spelled::put_line;
use br_path::{Bytes, Names};
use case_text::{Page, Stopped};
use opt_table::{OptFault, OptTable, Options, letters, read_options};
use std::alloc::Global;

/// The most words of a line.
const WORD_LIMIT: usize = 0xffff;

/// Reads words by the letters of install.
pub(crate) fn install(page: &mut Page, text: &[u8]) -> Result<(), Stopped> {
    let table = letters![b'D', b'c', b'd', b'm' value, b'p', b't' value, b'v'];
    read(page, &table, b"Dcdmptv", text)
}

/// Reads words by the letters of sed.
pub(crate) fn sed(page: &mut Page, text: &[u8]) -> Result<(), Stopped> {
    let table = letters![b'e' value, b'i'];
    read(page, &table, b"ei", text)
}

/// Prints what the words of a text say by a table: its letters that were given with their last values, and the operands; or
/// the first word at fault.
fn read<const N: usize>(
    page: &mut Page,
    table: &OptTable<N>,
    letters: &[u8],
    text: &[u8],
) -> Result<(), Stopped> {
    let words = words_of(page.alloc(), text)?;
    if words.items.len() > WORD_LIMIT {
        return Err(Stopped);
    }
    match read_options(page.alloc(), table, words.items.as_slice()) {
        Ok(options) => put_options(page, letters, &options),
        Err(OptFault::Unknown(place)) => page.number(b"! unknown ", u64::from(place)),
        Err(OptFault::NeedsValue(place)) => page.number(b"! needs-value ", u64::from(place)),
        Err(OptFault::Memory) => Err(Stopped),
    }
}

fn put_options(page: &mut Page, letters: &[u8], options: &Options) -> Result<(), Stopped> {
    for letter in letters {
        if options.has(*letter) {
            put_letter(page, *letter, options.value(*letter))?;
        }
    }
    page.number(b"= operands ", options.operands().len() as u64)?;
    for operand in options.operands() {
        put_line(page, b"  ", operand.as_slice())?;
    }
    Ok(())
}

fn put_letter(page: &mut Page, letter: u8, value: Option<&[u8]>) -> Result<(), Stopped> {
    page.put(b"= ")?;
    page.put(&[letter])?;
    match value {
        None => page.end(),
        Some(value) => put_line(page, b" ", value),
    }
}

/// The words of a text, with one blank between two. A text of none has none.
fn words_of(alloc: Global, text: &[u8]) -> Result<Names, Stopped> {
    let mut words = Vec::new(alloc);
    if !text.is_empty() {
        let parts: Vec<&[u8]> = text.split(|byte| *byte == b' ').collect(alloc)?;
        for word in parts.as_slice() {
            words.push(Bytes::from_slice(alloc, word)?)?;
        }
    }
    Ok(Names { items: words })
}
