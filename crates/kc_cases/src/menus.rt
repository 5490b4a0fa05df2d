//! What configuration files declare, or their first fault.
use crate::conditions::{put_expr, put_if};
use crate::input::Input;
use crate::rows::kind_name;
use crate::sheet::Sheet;
use crate::stopped::Stopped;
use kc_expr::Expr;
use kc_menu::{KcChoice, KcDefault, KcEntry, Menu, SymbolIf};
use kc_syntax::{KcError, KcFault, KcKind, parse};
use kc_values::Values;

/// Answers the entries and choices of the files, or their first fault.
pub(crate) fn answer_menu(sheet: &mut Sheet, input: &Input) -> Result<(), Stopped> {
    match parse(sheet.alloc, &input.files) {
        Ok(menu) => answer_items(sheet, &menu),
        Err(error) => answer_error(sheet, &error),
    }
}

/// Answers how many entries and choices there are, or the first fault of the files.
pub(crate) fn answer_count(sheet: &mut Sheet, input: &Input) -> Result<(), Stopped> {
    match parse(sheet.alloc, &input.files) {
        Ok(menu) => answer_counts(sheet, menu.entries().len(), menu.choices().len()),
        Err(error) => answer_error(sheet, &error),
    }
}

/// Answers whether a symbol is visible at some values, or the first fault of the files.
pub(crate) fn answer_visible(
    sheet: &mut Sheet,
    input: &Input,
    values: &Values,
    symbol: &[u8],
) -> Result<(), Stopped> {
    match parse(sheet.alloc, &input.files) {
        Ok(menu) => sheet.answer_whether(menu.is_visible(symbol, values)),
        Err(error) => answer_error(sheet, &error),
    }
}

fn answer_counts(sheet: &mut Sheet, entries: usize, choices: usize) -> Result<(), Stopped> {
    let (Ok(entries), Ok(choices)) = (u32::try_from(entries), u32::try_from(choices)) else {
        return Err(Stopped);
    };
    sheet.begin()?;
    sheet.put_number(entries)?;
    sheet.put(b" entries, ")?;
    sheet.put_number(choices)?;
    sheet.put_line(b" choices")
}

fn answer_items(sheet: &mut Sheet, menu: &Menu) -> Result<(), Stopped> {
    for entry in menu.entries() {
        answer_entry(sheet, entry)?;
    }
    for choice in menu.choices() {
        answer_choice(sheet, choice)?;
    }
    if menu.entries().is_empty() && menu.choices().is_empty() {
        sheet.answer(b"nothing")?;
    }
    Ok(())
}

fn answer_entry(sheet: &mut Sheet, entry: &KcEntry) -> Result<(), Stopped> {
    sheet.begin()?;
    sheet.put(entry.symbol.as_slice())?;
    sheet.put(b" ")?;
    sheet.put(kind_name(entry.kind))?;
    if let Some(place) = entry.choice {
        sheet.put(b" in choice ")?;
        sheet.put_number(place)?;
    }
    put_prompts(sheet, entry.prompts.items.as_slice())?;
    put_defaults(sheet, entry.defaults.items.as_slice())?;
    put_symbols(sheet, b"; select ", entry.selects.items.as_slice())?;
    put_depends(sheet, entry.depends.items.as_slice())?;
    sheet.end()
}

fn answer_choice(sheet: &mut Sheet, choice: &KcChoice) -> Result<(), Stopped> {
    sheet.begin()?;
    sheet.put(b"a choice")?;
    put_prompts(sheet, choice.prompts.items.as_slice())?;
    put_symbols(sheet, b"; default ", choice.defaults.items.as_slice())?;
    put_depends(sheet, choice.depends.items.as_slice())?;
    sheet.end()
}

fn put_prompts(sheet: &mut Sheet, conditions: &[Expr]) -> Result<(), Stopped> {
    for condition in conditions {
        sheet.put(b"; prompt")?;
        put_if(sheet, condition)?;
    }
    Ok(())
}

fn put_defaults(sheet: &mut Sheet, defaults: &[KcDefault]) -> Result<(), Stopped> {
    for default in defaults {
        sheet.put(b"; default ")?;
        put_expr(sheet, &default.value)?;
        put_if(sheet, &default.condition)?;
    }
    Ok(())
}

fn put_symbols(sheet: &mut Sheet, word: &[u8], symbols: &[SymbolIf]) -> Result<(), Stopped> {
    for symbol in symbols {
        sheet.put(word)?;
        sheet.put(symbol.symbol.as_slice())?;
        put_if(sheet, &symbol.condition)?;
    }
    Ok(())
}

fn put_depends(sheet: &mut Sheet, conditions: &[Expr]) -> Result<(), Stopped> {
    for condition in conditions {
        sheet.put(b"; depends on ")?;
        put_expr(sheet, condition)?;
    }
    Ok(())
}

/// Answers the first fault of the files.
pub(crate) fn answer_error(sheet: &mut Sheet, error: &KcError) -> Result<(), Stopped> {
    match error {
        KcError::Fault(fault) => answer_fault(sheet, fault),
        KcError::Memory => Err(Stopped),
    }
}

fn answer_fault(sheet: &mut Sheet, fault: &KcFault) -> Result<(), Stopped> {
    sheet.begin()?;
    sheet.put(b"fault config")?;
    let mut divider: &[u8] = b" ";
    for name in fault.file.names() {
        sheet.put(divider)?;
        sheet.put(name.as_slice())?;
        divider = b"/";
    }
    sheet.put(b" ")?;
    sheet.put_number(fault.line)?;
    sheet.put(b" ")?;
    sheet.put_line(fault_name(fault.kind))
}

fn fault_name(kind: KcKind) -> &'static [u8] {
    match kind {
        KcKind::NoFile => b"no-file",
        KcKind::BadLine => b"bad-line",
        KcKind::BadString => b"bad-string",
        KcKind::OpenBlock => b"open-block",
        KcKind::Loop => b"loop",
        KcKind::TwoTypes => b"two-types",
        KcKind::NoType => b"no-type",
        KcKind::TooMany => b"too-many",
    }
}
