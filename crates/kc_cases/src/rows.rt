//! Lines by themselves: which row of the table of lines each is.
use crate::conditions::{put_expr, put_if};
use crate::parts::put_quoted;
use crate::sheet::Sheet;
use crate::stopped::Stopped;
use kc_expr::Expr;
use kc_rows::{Row, row_of};
use kc_text::{Part, parts_of};
use kc_values::Kind;
use std::alloc::Global;

/// Answers the row that a line is.
pub(crate) fn answer_row(sheet: &mut Sheet, line: &[u8]) -> Result<(), Stopped> {
    match parts_of(sheet.alloc, line)? {
        Some(parts) => answer_found(sheet, parts.items.as_slice()),
        None => sheet.answer(b"open quote"),
    }
}

fn answer_found(sheet: &mut Sheet, parts: &[Part]) -> Result<(), Stopped> {
    let rows = row_of_parts(sheet.alloc, parts)?;
    match rows.as_slice() {
        [row] => {
            sheet.begin()?;
            put_row(sheet, row)?;
            sheet.end()
        }
        _ => sheet.answer(b"no row"),
    }
}

// One row or none.
fn row_of_parts(alloc: Global, parts: &[Part]) -> Result<Vec<Row>, Stopped> {
    let mut rows = Vec::new(alloc);
    if let Some(row) = row_of(alloc, parts)? {
        rows.push(row)?;
    }
    Ok(rows)
}

fn put_row(sheet: &mut Sheet, row: &Row) -> Result<(), Stopped> {
    match row {
        Row::MainMenu => sheet.put(b"mainmenu"),
        Row::Source(path) => {
            sheet.put(b"source ")?;
            put_quoted(sheet, path.as_slice())
        }
        Row::Menu => sheet.put(b"menu"),
        Row::EndMenu => sheet.put(b"endmenu"),
        Row::If(condition) => {
            sheet.put(b"if ")?;
            put_expr(sheet, condition)
        }
        Row::EndIf => sheet.put(b"endif"),
        Row::Choice => sheet.put(b"choice"),
        Row::EndChoice => sheet.put(b"endchoice"),
        Row::Comment => sheet.put(b"comment"),
        Row::Config(symbol) => {
            sheet.put(b"config ")?;
            sheet.put(symbol.as_slice())
        }
        _ => put_attribute(sheet, row),
    }
}

fn put_attribute(sheet: &mut Sheet, row: &Row) -> Result<(), Stopped> {
    match row {
        Row::Typed(kind, None) => sheet.put(kind_name(*kind)),
        Row::Typed(kind, Some(condition)) => {
            sheet.put(kind_name(*kind))?;
            sheet.put(b" with a prompt")?;
            put_if(sheet, condition)
        }
        Row::Prompt(condition) => {
            sheet.put(b"prompt")?;
            put_if(sheet, condition)
        }
        Row::DefBool(value, condition) => put_default(sheet, b"def_bool ", value, condition),
        Row::Default {
            value,
            single: true,
            condition,
        } => put_default(sheet, b"default of one part ", value, condition),
        Row::Default {
            value,
            condition,
            ..
        } => put_default(sheet, b"default ", value, condition),
        Row::Depends(condition) => {
            sheet.put(b"depends on ")?;
            put_expr(sheet, condition)
        }
        Row::Select(symbol, condition) => {
            sheet.put(b"select ")?;
            sheet.put(symbol.as_slice())?;
            put_if(sheet, condition)
        }
        Row::Help => sheet.put(b"help"),
        Row::DashedHelp => sheet.put(b"---help---"),
        _ => Err(Stopped),
    }
}

fn put_default(
    sheet: &mut Sheet,
    name: &[u8],
    value: &Expr,
    condition: &Expr,
) -> Result<(), Stopped> {
    sheet.put(name)?;
    put_expr(sheet, value)?;
    put_if(sheet, condition)
}

pub(crate) fn kind_name(kind: Kind) -> &'static [u8] {
    match kind {
        Kind::Bool => b"bool",
        Kind::Text => b"string",
        Kind::Int => b"int",
    }
}
