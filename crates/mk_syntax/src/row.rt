//! Each line is of one row.
ghost use Rattle.std.specs.Prelude.{◌≡◌, IfOk};
ghost use Rattle.mk_syntax.specs.Row.{ends_definition, definition_row, else_row, end_row, is_unsupported, other_row, word_row, keyword_row, row_of, row_of_text, end_of_definition, inside_row, inside_of};

use crate::assignment::{assignment, name_length};
use crate::blanks::{is, skip_blanks, split_word, trim_end};
use crate::comment::without_comment;
use crate::condition::test;
use crate::fault::MkKind;
use crate::recipe::What;
use br_path::{Bytes, Memory};
use std::alloc::Global;

/// What a line outside `define` is.
#[derive(Drop)]
pub(crate) enum Row {
    /// A line on which nothing is left.
    Nothing,
    /// A statement.
    Says(What),
    /// `define` and a name.
    Opens(Bytes),
    /// It begins with `else` or `endif`, but what follows makes it neither.
    Loose,
    /// A line that stands nowhere.
    Refused(MkKind),
}

/// What a line in a `define` is.
#[derive(Drop)]
pub(crate) enum Inside {
    /// A line of the value.
    Text,
    /// `endef`.
    Ends,
    /// A line that stands in no `define`.
    Refused(MkKind),
}

/// The row of a line outside `define`.
#[tactic(auto, unfolding(crate::specs::Row::row_of))]
pub(crate) fn row_of(alloc: Global, line: &[u8]) -> Result<Row, Memory>
    ensures { IfOk result (λ row. row ≡ row_of line.now) }
{
    let kept = without_comment(alloc, line)?;
    row_of_text(alloc, skip_blanks(&kept))
}

fn row_of_text(alloc: Global, text: &[u8]) -> Result<Row, Memory>
    ensures { IfOk result (λ row. row ≡ row_of_text text.now) }
{
    match assignment(alloc, text)? {
        Some(what) => Ok(Row::Says(what)),
        None => keyword_row(alloc, trim_end(text)),
    }
}

fn keyword_row(alloc: Global, text: &[u8]) -> Result<Row, Memory>
    ensures { IfOk result (λ row. row ≡ keyword_row text.now) }
{
    let (word, further) = split_word(text);
    word_row(alloc, text, word, further)
}

fn word_row(alloc: Global, text: &[u8], word: &[u8], further: &[u8]) -> Result<Row, Memory>
    ensures { IfOk result (λ row. row ≡ word_row text.now word.now further.now) }
{
    if text.is_empty() {
        return Ok(Row::Nothing);
    }
    if is(word, b"define") {
        return definition_row(alloc, further);
    }
    if is(word, b"else") {
        return else_row(alloc, further);
    }
    if is(word, b"endif") {
        return Ok(end_row(further));
    }
    if is(word, b"endef") {
        return Ok(Row::Refused(MkKind::StrayElse));
    }
    match test(alloc, word, further)? {
        Some(test) => Ok(Row::Says(What::If(test))),
        None => other_row(alloc, text, word),
    }
}

fn definition_row(alloc: Global, text: &[u8]) -> Result<Row, Memory>
    ensures { IfOk result (λ row. row ≡ definition_row text.now) }
{
    let length = name_length(text);
    if length == 0 {
        return Ok(Row::Refused(MkKind::BadLine));
    }
    let (name, further) = text.split_at(length);
    if ends_definition(skip_blanks(further)) {
        Ok(Row::Opens(Bytes::from_slice(alloc, name)?))
    } else {
        Ok(Row::Refused(MkKind::BadLine))
    }
}

fn ends_definition(text: &[u8]) -> bool
    ensures { result ≡ ends_definition text.now }
{
    text.is_empty() || is(text, b"=")
}

fn else_row(alloc: Global, text: &[u8]) -> Result<Row, Memory>
    ensures { IfOk result (λ row. row ≡ else_row text.now) }
{
    if text.is_empty() {
        return Ok(Row::Says(What::Else));
    }
    let (word, further) = split_word(text);
    match test(alloc, word, further)? {
        Some(test) => Ok(Row::Says(What::ElseIf(test))),
        None => Ok(Row::Loose),
    }
}

fn end_row(text: &[u8]) -> Row
    ensures { result ≡ end_row text.now }
{
    if text.is_empty() {
        Row::Says(What::EndIf)
    } else {
        Row::Loose
    }
}

fn other_row(alloc: Global, text: &[u8], word: &[u8]) -> Result<Row, Memory>
    ensures { IfOk result (λ row. row ≡ other_row text.now word.now) }
{
    if is_unsupported(word) {
        return Ok(Row::Refused(MkKind::Unsupported(Bytes::from_slice(alloc, word)?)));
    }
    if is(text, b"$(eval $(generic-package))") {
        return Ok(Row::Says(What::Make { host: false }));
    }
    if is(text, b"$(eval $(host-generic-package))") {
        return Ok(Row::Says(What::Make { host: true }));
    }
    if text.starts_with(b"$(") {
        return Ok(Row::Refused(MkKind::Unsupported(Bytes::from_slice(alloc, word)?)));
    }
    Ok(Row::Refused(MkKind::BadLine))
}

fn is_unsupported(word: &[u8]) -> bool
    ensures { result ≡ is_unsupported word.now }
{
    is(word, b"include")
        || is(word, b"-include")
        || is(word, b"sinclude")
        || is(word, b"override")
        || is(word, b"export")
        || is(word, b"unexport")
        || is(word, b"private")
        || is(word, b"vpath")
}

/// The row of a line in a `define`.
#[tactic(auto, unfolding(crate::specs::Row::inside_of))]
pub(crate) fn inside_of(alloc: Global, line: &[u8]) -> Result<Inside, Memory>
    ensures { IfOk result (λ row. row ≡ inside_of line.now) }
{
    let (word, further) = split_word(skip_blanks(line));
    inside_row(alloc, word, further)
}

fn inside_row(alloc: Global, word: &[u8], further: &[u8]) -> Result<Inside, Memory>
    ensures { IfOk result (λ row. row ≡ inside_row word.now further.now) }
{
    if is(word, b"endef") {
        return Ok(end_of_definition(further));
    }
    if is(word, b"define") {
        return Ok(Inside::Refused(MkKind::Unsupported(Bytes::from_slice(alloc, word)?)));
    }
    Ok(Inside::Text)
}

fn end_of_definition(text: &[u8]) -> Inside
    ensures { result ≡ end_of_definition text.now }
{
    if text.is_empty() || text.starts_with(b"#") {
        Inside::Ends
    } else {
        Inside::Refused(MkKind::BadLine)
    }
}
