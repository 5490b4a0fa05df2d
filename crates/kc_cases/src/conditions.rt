//! Conditions: how they are read, and which hold.
use crate::parts::{put_parts, put_quoted};
use crate::sheet::Sheet;
use crate::stopped::Stopped;
use kc_expr::{Atom, Expr, expression};
use kc_text::{Part, parts_of};
use kc_values::Values;
use std::alloc::Global;

/// Answers the condition that a line begins with, and the parts after it.
pub(crate) fn answer_condition(sheet: &mut Sheet, line: &[u8]) -> Result<(), Stopped> {
    match parts_of(sheet.alloc, line)? {
        Some(parts) => answer_front(sheet, parts.items.as_slice()),
        None => sheet.answer(b"open quote"),
    }
}

fn answer_front(sheet: &mut Sheet, parts: &[Part]) -> Result<(), Stopped> {
    match expression(sheet.alloc, parts)? {
        Some((expr, rest)) => {
            let answered = answer_found(sheet, &expr, rest);
            drop(expr);
            answered
        }
        None => sheet.answer(b"no condition"),
    }
}

fn answer_found(sheet: &mut Sheet, expr: &Expr, rest: &[Part]) -> Result<(), Stopped> {
    sheet.begin()?;
    put_expr(sheet, expr)?;
    if !rest.is_empty() {
        sheet.put(b", then")?;
        put_parts(sheet, rest)?;
    }
    sheet.end()
}

/// Answers a copy of the condition that a line is.
pub(crate) fn answer_copy(sheet: &mut Sheet, line: &[u8]) -> Result<(), Stopped> {
    let conditions = condition_of(sheet.alloc, line)?;
    match conditions.as_slice() {
        [expr] => {
            let copy = expr.copy(sheet.alloc)?;
            let answered = answer_found(sheet, &copy, &[]);
            drop(copy);
            answered
        }
        _ => sheet.answer(b"no condition"),
    }
}

/// Answers whether the condition that a line is holds at some values.
pub(crate) fn answer_holds(sheet: &mut Sheet, values: &Values, line: &[u8]) -> Result<(), Stopped> {
    let conditions = condition_of(sheet.alloc, line)?;
    match conditions.as_slice() {
        [expr] => sheet.answer_whether(expr.holds(values)),
        _ => sheet.answer(b"no condition"),
    }
}

// The condition that a line is; none where it is none, or where more stands after it.
fn condition_of(alloc: Global, line: &[u8]) -> Result<Vec<Expr>, Stopped> {
    match parts_of(alloc, line)? {
        Some(parts) => whole_condition(alloc, parts.items.as_slice()),
        None => Ok(Vec::new(alloc)),
    }
}

fn whole_condition(alloc: Global, parts: &[Part]) -> Result<Vec<Expr>, Stopped> {
    let mut conditions = Vec::new(alloc);
    if let Some((expr, rest)) = expression(alloc, parts)? {
        conditions.push(expr)?;
        if !rest.is_empty() {
            conditions.clear();
        }
    }
    Ok(conditions)
}

/// Puts a condition, with brackets that show how it is joined.
pub(crate) fn put_expr(sheet: &mut Sheet, expr: &Expr) -> Result<(), Stopped> {
    match expr {
        Expr::True => sheet.put(b"true"),
        Expr::And(left, right) => {
            sheet.put(b"(")?;
            put_expr(sheet, left.get())?;
            sheet.put(b" && ")?;
            put_expr(sheet, right.get())?;
            sheet.put(b")")
        }
        Expr::Or(left, right) => {
            sheet.put(b"(")?;
            put_expr(sheet, left.get())?;
            sheet.put(b" || ")?;
            put_expr(sheet, right.get())?;
            sheet.put(b")")
        }
        Expr::Not(inner) => {
            sheet.put(b"!")?;
            put_expr(sheet, inner.get())
        }
        Expr::Holds(atom) => put_atom(sheet, atom),
        Expr::Same(left, right) => put_compared(sheet, left, b" = ", right),
        Expr::Differ(left, right) => put_compared(sheet, left, b" != ", right),
    }
}

fn put_compared(sheet: &mut Sheet, left: &Atom, sign: &[u8], right: &Atom) -> Result<(), Stopped> {
    sheet.put(b"(")?;
    put_atom(sheet, left)?;
    sheet.put(sign)?;
    put_atom(sheet, right)?;
    sheet.put(b")")
}

fn put_atom(sheet: &mut Sheet, atom: &Atom) -> Result<(), Stopped> {
    match atom {
        Atom::Word(word) => sheet.put(word.as_slice()),
        Atom::Quoted(text) => put_quoted(sheet, text.as_slice()),
    }
}

/// Puts ` if ` and a condition; nothing where it is always true.
pub(crate) fn put_if(sheet: &mut Sheet, condition: &Expr) -> Result<(), Stopped> {
    match condition {
        Expr::True => Ok(()),
        _ => {
            sheet.put(b" if ")?;
            put_expr(sheet, condition)
        }
    }
}
