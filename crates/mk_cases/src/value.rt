//! How values, variables and words are printed.
use crate::page::Page;
use crate::stopped::Stopped;
use mk_expand::ExpandFault;

/// A line for a value.
pub(crate) fn put_value(page: &mut Page, value: &[u8]) -> Result<(), Stopped> {
    page.word(b"  ")?;
    page.text(value)?;
    page.end()
}

/// A line for what keeps a text from having a value.
pub(crate) fn put_fault(page: &mut Page, fault: &ExpandFault) -> Result<(), Stopped> {
    match fault {
        ExpandFault::SelfReference(name) => {
            put_named(page, b"  ! self-reference ", name.as_slice())
        }
        ExpandFault::BadCall => page.line(b"  ! bad-call"),
        ExpandFault::Unsupported(name) => put_named(page, b"  ! unsupported ", name.as_slice()),
        ExpandFault::TooCostly => page.line(b"  ! too-costly"),
        ExpandFault::Memory => Err(Stopped),
    }
}

fn put_named(page: &mut Page, front: &[u8], name: &[u8]) -> Result<(), Stopped> {
    page.word(front)?;
    page.text(name)?;
    page.end()
}

/// A line for a variable: how it is expanded, and its text.
pub(crate) fn put_variable(
    page: &mut Page,
    simple: Option<bool>,
    text: Option<&[u8]>,
) -> Result<(), Stopped> {
    page.word(match simple {
        None => b"  unset ",
        Some(false) => b"  expanded at use ",
        Some(true) => b"  simple ",
    })?;
    match text {
        None => page.word(b"without text")?,
        Some(text) => page.text(text)?,
    }
    page.end()
}

/// A line for the words of a text.
pub(crate) fn put_words(page: &mut Page, words: &[&[u8]]) -> Result<(), Stopped> {
    page.word(b" ")?;
    if words.is_empty() {
        page.word(b" no word")?;
    }
    for word in words {
        page.word(b" ")?;
        page.text(word)?;
    }
    page.end()
}
