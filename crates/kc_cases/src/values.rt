//! Values of symbols, as a case states them.
ghost use Rattle.std.specs.Prelude.{IfOk};
ghost use Rattle.kc_values.specs.Values.{IsFit};

use crate::parts::put_quoted;
use crate::rows::kind_name;
use crate::sheet::Sheet;
use crate::stopped::Stopped;
use crate::text::divided;
use br_path::Bytes;
use kc_values::{Kind, Valued, Values};
use std::alloc::Global;

/// Adds the symbol of a text `S bool y`, `S bool n`, `S string TEXT` or `S int TEXT`.
pub(crate) fn add_value(alloc: Global, values: &mut Values, text: &[u8]) -> Result<(), Stopped> {
    let (symbol, rest) = divided(text);
    let (kind, text) = divided(rest);
    if values.find(symbol).is_some() {
        return Err(Stopped);
    }
    let valued = valued(alloc, kind, text)?;
    let symbol = Bytes::from_slice(alloc, symbol)?;
    Ok(values.add(symbol, valued)?)
}

fn valued(alloc: Global, kind: &[u8], text: &[u8]) -> Result<Valued, Stopped>
    ensures { IfOk result IsFit }
{
    match kind {
        b"bool" => bool_value(alloc, text),
        b"string" => Ok(Valued {
            kind: Kind::Text,
            text: Bytes::from_slice(alloc, text)?,
        }),
        b"int" => Ok(Valued {
            kind: Kind::Int,
            text: Bytes::from_slice(alloc, text)?,
        }),
        _ => Err(Stopped),
    }
}

fn bool_value(alloc: Global, text: &[u8]) -> Result<Valued, Stopped>
    ensures { IfOk result IsFit }
{
    let kind = Kind::Bool;
    match text {
        b"y" => Ok(Valued {
            kind,
            text: Bytes::from_slice(alloc, b"y")?,
        }),
        b"n" => Ok(Valued {
            kind,
            text: Bytes::from_slice(alloc, b"n")?,
        }),
        _ => Err(Stopped),
    }
}

/// Answers the type and text of a symbol.
pub(crate) fn answer_value(
    sheet: &mut Sheet,
    values: &Values,
    symbol: &[u8],
) -> Result<(), Stopped> {
    match (values.kind(symbol), values.get(symbol)) {
        (Some(kind), Some(text)) => {
            sheet.begin()?;
            put_value(sheet, kind, text)
        }
        (None, None) => sheet.answer(b"not declared"),
        _ => Err(Stopped),
    }
}

/// Answers all symbols in their order, each with its type and text.
pub(crate) fn answer_values(sheet: &mut Sheet, values: &Values) -> Result<(), Stopped> {
    for place in 0..values.count() {
        if let Some((symbol, valued)) = values.at(place) {
            sheet.begin()?;
            sheet.put(symbol)?;
            sheet.put(b" ")?;
            put_value(sheet, valued.kind, valued.text.as_slice())?;
        }
    }
    if values.count() == 0 {
        sheet.answer(b"nothing")?;
    }
    Ok(())
}

fn put_value(sheet: &mut Sheet, kind: Kind, text: &[u8]) -> Result<(), Stopped> {
    sheet.put(kind_name(kind))?;
    sheet.put(b" ")?;
    put_quoted(sheet, text)?;
    sheet.end()
}
