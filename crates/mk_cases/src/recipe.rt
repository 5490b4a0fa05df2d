//! How a recipe and its faults are printed.
use crate::page::Page;
use crate::stopped::Stopped;
use br_path::Bytes;
use mk_syntax::{How, MkError, MkFault, MkKind, Recipe, Statement, Test, What};

/// A line for each statement: its number and what it does.
pub(crate) fn put_recipe(page: &mut Page, recipe: &Recipe) -> Result<(), Stopped> {
    if recipe.items.is_empty() {
        return page.line(b"  no statement");
    }
    for statement in &recipe.items {
        put_statement(page, statement)?;
    }
    Ok(())
}

fn put_statement(page: &mut Page, statement: &Statement) -> Result<(), Stopped> {
    page.word(b"  ")?;
    page.number(statement.line as usize)?;
    put_what(page, &statement.what)?;
    page.end()
}

fn put_what(page: &mut Page, what: &What) -> Result<(), Stopped> {
    match what {
        What::Set { name, how, text } => put_named(page, b" ", name, sign(*how), text),
        What::Define { name, text } => put_named(page, b" define ", name, b" ", text),
        What::If(test) => put_test(page, b" ", test),
        What::ElseIf(test) => put_test(page, b" else ", test),
        What::Else => page.word(b" else"),
        What::EndIf => page.word(b" endif"),
        What::Make { host: false } => page.word(b" make"),
        What::Make { host: true } => page.word(b" make host"),
    }
}

fn sign(how: How) -> &'static [u8] {
    match how {
        How::Later => b" = ",
        How::Now => b" := ",
        How::Append => b" += ",
        How::IfUnset => b" ?= ",
    }
}

fn put_named(
    page: &mut Page,
    front: &[u8],
    name: &Bytes,
    gap: &[u8],
    text: &Bytes,
) -> Result<(), Stopped> {
    page.word(front)?;
    page.word(name.as_slice())?;
    page.word(gap)?;
    page.text(text.as_slice())
}

fn put_test(page: &mut Page, front: &[u8], test: &Test) -> Result<(), Stopped> {
    page.word(front)?;
    match test {
        Test::Equal {
            left,
            right,
            wanted: true,
        } => put_sides(page, b"ifeq ", left, right),
        Test::Equal {
            left,
            right,
            wanted: false,
        } => put_sides(page, b"ifneq ", left, right),
        Test::Defined { name, wanted: true } => put_word(page, b"ifdef ", name),
        Test::Defined {
            name,
            wanted: false,
        } => put_word(page, b"ifndef ", name),
    }
}

fn put_sides(page: &mut Page, word: &[u8], left: &Bytes, right: &Bytes) -> Result<(), Stopped> {
    page.word(word)?;
    page.text(left.as_slice())?;
    page.word(b" ")?;
    page.text(right.as_slice())
}

fn put_word(page: &mut Page, word: &[u8], name: &Bytes) -> Result<(), Stopped> {
    page.word(word)?;
    page.word(name.as_slice())
}

/// A line for the fault: its line and its kind.
pub(crate) fn put_error(page: &mut Page, error: &MkError) -> Result<(), Stopped> {
    match error {
        MkError::Fault(fault) => put_fault(page, fault),
        MkError::Memory => Err(Stopped),
    }
}

fn put_fault(page: &mut Page, fault: &MkFault) -> Result<(), Stopped> {
    page.word(b"  ! ")?;
    page.number(fault.line as usize)?;
    put_kind(page, &fault.kind)?;
    page.end()
}

fn put_kind(page: &mut Page, kind: &MkKind) -> Result<(), Stopped> {
    match kind {
        MkKind::BadLine => page.word(b" bad-line"),
        MkKind::OpenDefine => page.word(b" open-define"),
        MkKind::OpenIf => page.word(b" open-if"),
        MkKind::StrayElse => page.word(b" stray-else"),
        MkKind::Unsupported(word) => {
            page.word(b" unsupported ")?;
            page.text(word.as_slice())
        }
    }
}
