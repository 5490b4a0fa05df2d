//! Wishes, and the solution of a configuration.
use crate::input::Input;
use crate::menus::answer_error;
use crate::parts::put_quoted;
use crate::sheet::Sheet;
use crate::stopped::Stopped;
use crate::values::answer_values;
use br_path::Bytes;
use dot_config::{WishError, read, write};
use kc_menu::{Menu, Wish, WishValue, Wishes};
use kc_solve::{SolveFault, Solved, solve};
use kc_syntax::parse;
use kc_values::Values;
use std::alloc::Global;

/// What is told of a solution.
#[derive(Clone, Copy)]
pub(crate) enum Telling {
    /// The lines of `.config`, and the symbols that are forced.
    Lines,
    /// All symbols with their types and texts.
    Values,
}

/// Answers the wishes of a text, or its first line that has no form.
pub(crate) fn answer_wishes(sheet: &mut Sheet, text: &[u8]) -> Result<(), Stopped> {
    match wishes_of(sheet.alloc, text) {
        Ok(wishes) => answer_read(sheet, &wishes),
        Err(error) => answer_wish_error(sheet, &error),
    }
}

// The wishes of a text of at most 2^30 bytes; a longer one is answered by out of memory.
#[tactic(auto, using(dot_config::proofs::Readings::few_lines))]
fn wishes_of(alloc: Global, text: &[u8]) -> Result<Wishes, WishError> {
    if text.len() > 1 << 30 {
        return Err(WishError::Memory);
    }
    read(alloc, text)
}

fn answer_read(sheet: &mut Sheet, wishes: &Wishes) -> Result<(), Stopped> {
    let wishes = wishes.as_slice();
    for wish in wishes {
        answer_wish(sheet, wish)?;
    }
    if wishes.is_empty() {
        sheet.answer(b"nothing")?;
    }
    Ok(())
}

fn answer_wish(sheet: &mut Sheet, wish: &Wish) -> Result<(), Stopped> {
    sheet.begin()?;
    sheet.put(b"line ")?;
    sheet.put_number(wish.line)?;
    sheet.put(b": ")?;
    sheet.put(wish.symbol.as_slice())?;
    match &wish.value {
        WishValue::No => sheet.put_line(b" not set"),
        WishValue::Word(word) => {
            sheet.put(b" = ")?;
            sheet.put_line(word.as_slice())
        }
        WishValue::Quoted(text) => {
            sheet.put(b" = ")?;
            put_quoted(sheet, text.as_slice())?;
            sheet.end()
        }
    }
}

fn answer_wish_error(sheet: &mut Sheet, error: &WishError) -> Result<(), Stopped> {
    match error {
        WishError::Line(line) => {
            sheet.begin()?;
            sheet.put(b"fault wish ")?;
            sheet.put_number(*line)?;
            sheet.end()
        }
        WishError::Memory => Err(Stopped),
    }
}

/// Answers the solution of the files and the wishes of a text, or the first fault.
pub(crate) fn answer_solution(
    sheet: &mut Sheet,
    input: &Input,
    wishes: &[u8],
    telling: Telling,
) -> Result<(), Stopped> {
    match parse(sheet.alloc, &input.files) {
        Ok(menu) => answer_menu_solution(sheet, &menu, wishes, telling),
        Err(error) => answer_error(sheet, &error),
    }
}

fn answer_menu_solution(
    sheet: &mut Sheet,
    menu: &Menu,
    text: &[u8],
    telling: Telling,
) -> Result<(), Stopped> {
    match wishes_of(sheet.alloc, text) {
        Ok(wishes) => answer_wished_solution(sheet, menu, &wishes, telling),
        Err(error) => answer_wish_error(sheet, &error),
    }
}

fn answer_wished_solution(
    sheet: &mut Sheet,
    menu: &Menu,
    wishes: &Wishes,
    telling: Telling,
) -> Result<(), Stopped> {
    match solve(sheet.alloc, menu, wishes) {
        Ok(solved) => match telling {
            Telling::Lines => answer_solved(sheet, menu, &solved),
            Telling::Values => answer_values(sheet, &solved.values),
        },
        Err(fault) => answer_solve_fault(sheet, &fault),
    }
}

fn answer_solved(sheet: &mut Sheet, menu: &Menu, solved: &Solved) -> Result<(), Stopped> {
    answer_written(sheet, menu, &solved.values)?;
    for symbol in &solved.forced.items {
        sheet.answer_named(b"forced", symbol.as_slice())?;
    }
    Ok(())
}

/// Answers the lines of `.config` at some values, or the first fault of the files.
pub(crate) fn answer_lines_at(
    sheet: &mut Sheet,
    input: &Input,
    values: &Values,
) -> Result<(), Stopped> {
    match parse(sheet.alloc, &input.files) {
        Ok(menu) => answer_written(sheet, &menu, values),
        Err(error) => answer_error(sheet, &error),
    }
}

fn answer_written(sheet: &mut Sheet, menu: &Menu, values: &Values) -> Result<(), Stopped> {
    let text = write(sheet.alloc, menu, values)?;
    let text = text.as_slice();
    if text.is_empty() {
        return sheet.answer(b"nothing");
    }
    match text.split_last() {
        Some((b'\n', front)) => answer_text(sheet, front),
        _ => Err(Stopped),
    }
}

fn answer_text(sheet: &mut Sheet, text: &[u8]) -> Result<(), Stopped> {
    for line in text.split(|byte| *byte == b'\n') {
        sheet.answer(line)?;
    }
    Ok(())
}

fn answer_solve_fault(sheet: &mut Sheet, fault: &SolveFault) -> Result<(), Stopped> {
    match fault {
        SolveFault::SelectOfChoice(symbol) => answer_fault(
            sheet,
            b"fault select-of-choice",
            symbol,
        ),
        SolveFault::SelectOfValue(symbol) => answer_fault(sheet, b"fault select-of-value", symbol),
        SolveFault::Cycle(symbol) => answer_fault(sheet, b"fault config-cycle", symbol),
        SolveFault::BadNumber(symbol) => answer_fault(sheet, b"fault bad-number", symbol),
        SolveFault::Memory => Err(Stopped),
    }
}

fn answer_fault(sheet: &mut Sheet, kind: &[u8], symbol: &Bytes) -> Result<(), Stopped> {
    sheet.answer_named(kind, symbol.as_slice())
}
