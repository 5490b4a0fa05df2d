//! Words, and the command that they are.
use br_path::{Bytes, Names};
use br_words::{Words, WordsFault};
use case_text::{Page, Stopped};
use std::alloc::Global;

/// Words with a blank between two; `''` stands for the empty word.
pub(crate) fn words(alloc: Global, text: &[u8]) -> Result<Names, Stopped> {
    let mut items = Vec::new(alloc);
    if !text.is_empty() {
        for word in text.split(|byte| *byte == b' ') {
            items.push(Bytes::from_slice(alloc, meant(word))?)?;
        }
    }
    Ok(Names { items })
}

fn meant(word: &[u8]) -> &[u8] {
    match word {
        b"''" => b"",
        _ => word,
    }
}

pub(crate) fn read(page: &mut Page, words: &Names) -> Result<(), Stopped> {
    match &Words::read(&words.items) {
        Ok(command) => print_command(page, command),
        Err(WordsFault::At(place)) => page.number(b"! at ", u64::from(*place)),
        Err(WordsFault::Memory) => Err(Stopped),
    }
}

fn print_command(page: &mut Page, command: &Words) -> Result<(), Stopped> {
    match command {
        Words::Build { workers, trace } => print_build(page, *workers, *trace),
        Words::Config => page.line(b"= config", b""),
        Words::Plan => page.line(b"= plan", b""),
        Words::ShowDepends(name) => page.line(b"= depends of ", name.as_slice()),
        Words::ShowRecursive(name) => page.line(b"= recursive depends of ", name.as_slice()),
        Words::ShowRdepends(name) => page.line(b"= rdepends of ", name.as_slice()),
    }
}

fn print_build(page: &mut Page, workers: u32, trace: bool) -> Result<(), Stopped> {
    page.put(b"= build by ")?;
    page.put_number(u64::from(workers))?;
    page.line(if trace { b" with a trace" } else { b"" }, b"")
}
