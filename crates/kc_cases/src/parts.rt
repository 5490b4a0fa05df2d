//! Lines and their parts.
use crate::sheet::Sheet;
use crate::stopped::Stopped;
use kc_text::{Line, Part, lines_of, parts_of};

/// Answers the number of the parts of a line, and these.
pub(crate) fn answer_parts(sheet: &mut Sheet, line: &[u8]) -> Result<(), Stopped> {
    match parts_of(sheet.alloc, line)? {
        Some(parts) => answer_found(sheet, parts.items.as_slice()),
        None => sheet.answer(b"open quote"),
    }
}

fn answer_found(sheet: &mut Sheet, parts: &[Part]) -> Result<(), Stopped> {
    let Ok(count) = u32::try_from(parts.len()) else {
        return Err(Stopped);
    };
    sheet.begin()?;
    sheet.put_number(count)?;
    sheet.put(b":")?;
    put_parts(sheet, parts)?;
    sheet.end()
}

/// Answers the lines of a text that aren't empty, each with its number and its parts.
pub(crate) fn answer_lines(sheet: &mut Sheet, text: &[u8]) -> Result<(), Stopped> {
    if text.len() > 1 << 30 {
        return Err(Stopped);
    }
    let lines = lines_of(sheet.alloc, text)?;
    for line in &lines {
        answer_line(sheet, line)?;
    }
    if lines.is_empty() {
        sheet.answer(b"no lines")?;
    }
    Ok(())
}

fn answer_line(sheet: &mut Sheet, line: &Line) -> Result<(), Stopped> {
    sheet.begin()?;
    sheet.put_number(line.number)?;
    sheet.put(b":")?;
    match &line.parts {
        Some(parts) => put_parts(sheet, parts.items.as_slice())?,
        None => sheet.put(b" open quote")?,
    }
    sheet.end()
}

/// Puts parts, each after a blank.
pub(crate) fn put_parts(sheet: &mut Sheet, parts: &[Part]) -> Result<(), Stopped> {
    for part in parts {
        sheet.put(b" ")?;
        put_part(sheet, part)?;
    }
    Ok(())
}

fn put_part(sheet: &mut Sheet, part: &Part) -> Result<(), Stopped> {
    match part {
        Part::Word(word) => sheet.put(word.as_slice()),
        Part::Quoted(text) => put_quoted(sheet, text.as_slice()),
        Part::Or => sheet.put(b"||"),
        Part::And => sheet.put(b"&&"),
        Part::Not => sheet.put(b"!"),
        Part::Same => sheet.put(b"="),
        Part::Differ => sheet.put(b"!="),
        Part::Open => sheet.put(b"("),
        Part::Close => sheet.put(b")"),
        Part::Other => sheet.put(b"?"),
    }
}

/// Puts a quoted text, between `<` and `>`.
pub(crate) fn put_quoted(sheet: &mut Sheet, text: &[u8]) -> Result<(), Stopped> {
    sheet.put(b"<")?;
    sheet.put(text)?;
    sheet.put(b">")
}
