//! The rows of the table of lines.
ghost use Rattle.std.specs.Prelude.{◌≡◌, IfOk};
ghost use Rattle.std.specs.Option.{option_map};
ghost use Rattle.std.specs.List.{list_all};
ghost use Rattle.kc_text.specs.Bytes as byte_is;
ghost use Rattle.kc_rows.specs.Row.{row, row_behind, alone, quoted, source, begin_if, config, typed, prompt, prompted, depends, depends_on, select, defaulted, def_bool, condition, whole, symbol, is_symbol, value};
ghost use Rattle.kc_rows.specs.ShownFront.{front};

use crate::keyword::{Keyword, keyword_of};
use br_path::{Bytes, Memory, is_text};
use kc_expr::{Atom, Expr, expression};
use kc_text::{Part, is_symbol_byte};
use kc_values::Kind;
use std::alloc::Global;

/// A line by itself. A condition that isn't written is True.
#[derive(Debug, Drop)]
pub enum Row {
    /// `mainmenu "T"`
    MainMenu,
    /// `source "P"`, with the path as it is written.
    Source(Bytes),
    /// `menu "T"`
    Menu,
    /// `endmenu`
    EndMenu,
    /// `if E`
    If(Expr),
    /// `endif`
    EndIf,
    /// `choice`
    Choice,
    /// `endchoice`
    EndChoice,
    /// `comment "T"`
    Comment,
    /// `config S` or `menuconfig S`
    Config(Bytes),
    /// `bool`, `string` or `int`, and the condition of its prompt where it has one.
    Typed(Kind, Option<Expr>),
    /// `prompt "T" [if E]`
    Prompt(Expr),
    /// `def_bool E [if E]`
    DefBool(Expr, Expr),
    /// `default V [if E]`, where `single` says that V is one part.
    Default {
        value: Expr,
        single: bool,
        condition: Expr,
    },
    /// `depends on E`
    Depends(Expr),
    /// `select S [if E]`
    Select(Bytes, Expr),
    /// `help`
    Help,
    /// `---help---`
    DashedHelp,
}

/// The row of a line with these parts; none where it has the form of no row.
#[tactic(auto, unfolding(crate::specs::Row::row))]
pub fn row_of(alloc: Global, parts: &[Part]) -> Result<Option<Row>, Memory>
    ensures { IfOk result (λ found. found ≡ row parts.now) }
{
    match parts.split_first() {
        Some((Part::Word(word), rest)) => match keyword_of(word.as_slice()) {
            Some(keyword) => row_behind(alloc, keyword, rest),
            None => Ok(None),
        },
        _ => Ok(None),
    }
}

#[tactic(auto, unfolding(crate::specs::Row::row_behind))]
fn row_behind(alloc: Global, keyword: Keyword, rest: &[Part]) -> Result<Option<Row>, Memory>
    ensures { IfOk result (λ found. found ≡ row_behind keyword rest.now) }
{
    match keyword {
        Keyword::MainMenu => Ok(quoted(rest, Row::MainMenu)),
        Keyword::Source => source(rest),
        Keyword::Menu => Ok(quoted(rest, Row::Menu)),
        Keyword::EndMenu => Ok(alone(rest, Row::EndMenu)),
        Keyword::If => begin_if(alloc, rest),
        Keyword::EndIf => Ok(alone(rest, Row::EndIf)),
        Keyword::Choice => Ok(alone(rest, Row::Choice)),
        Keyword::EndChoice => Ok(alone(rest, Row::EndChoice)),
        Keyword::Comment => Ok(quoted(rest, Row::Comment)),
        Keyword::Config => config(rest),
        Keyword::Bool => typed(alloc, Kind::Bool, rest),
        Keyword::Text => typed(alloc, Kind::Text, rest),
        Keyword::Int => typed(alloc, Kind::Int, rest),
        Keyword::Prompt => prompt(alloc, rest),
        Keyword::DefBool => def_bool(alloc, rest),
        Keyword::Default => defaulted(alloc, rest),
        Keyword::Depends => depends(alloc, rest),
        Keyword::Select => select(alloc, rest),
        Keyword::Help => Ok(alone(rest, Row::Help)),
        Keyword::DashedHelp => Ok(alone(rest, Row::DashedHelp)),
    }
}

// What is read of a line, where nothing stands after it.
fn alone<T: Drop>(behind: &[Part], found: T) -> Option<T>
    ensures { result ≡ alone behind.now found }
{
    if behind.is_empty() { Some(found) } else { None }
}

// A line that has a quoted text after its first word.
fn quoted<T: Drop>(rest: &[Part], found: T) -> Option<T>
    ensures { result ≡ quoted rest.now found }
{
    match rest.split_first() {
        Some((Part::Quoted(_), behind)) => alone(behind, found),
        _ => None,
    }
}

fn source(rest: &[Part]) -> Result<Option<Row>, Memory>
    ensures { IfOk result (λ found. found ≡ source rest.now) }
{
    match rest.split_first() {
        Some((Part::Quoted(path), behind)) => Ok(alone(behind, Row::Source(path.copy()?))),
        _ => Ok(None),
    }
}

fn begin_if(alloc: Global, rest: &[Part]) -> Result<Option<Row>, Memory>
    ensures { IfOk result (λ found. found ≡ begin_if rest.now) }
{
    Ok(whole(alloc, rest)?.map(Row::If))
}

fn config(rest: &[Part]) -> Result<Option<Row>, Memory>
    ensures { IfOk result (λ found. found ≡ config rest.now) }
{
    Ok(symbol(rest)?.and_then(|(name, behind)| alone(behind, Row::Config(name))))
}

fn typed(alloc: Global, kind: Kind, rest: &[Part]) -> Result<Option<Row>, Memory>
    ensures { IfOk result (λ found. found ≡ typed kind rest.now) }
{
    if rest.is_empty() {
        return Ok(Some(Row::Typed(kind, None)));
    }
    Ok(prompted(alloc, rest)?.map(|condition| Row::Typed(kind, Some(condition))))
}

fn prompt(alloc: Global, rest: &[Part]) -> Result<Option<Row>, Memory>
    ensures { IfOk result (λ found. found ≡ prompt rest.now) }
{
    Ok(prompted(alloc, rest)?.map(Row::Prompt))
}

// The condition of a prompt: a quoted text, and perhaps a condition after it.
fn prompted(alloc: Global, rest: &[Part]) -> Result<Option<Expr>, Memory>
    ensures { IfOk result (λ found. found ≡ prompted rest.now) }
{
    match rest.split_first() {
        Some((Part::Quoted(_), behind)) => condition(alloc, behind),
        _ => Ok(None),
    }
}

fn def_bool(alloc: Global, rest: &[Part]) -> Result<Option<Row>, Memory>
    ensures { IfOk result (λ found. found ≡ def_bool rest.now) }
{
    let Some((value, behind)) = expression(alloc, rest)? else {
        return Ok(None);
    };
    Ok(condition(alloc, behind)?.map(|condition| Row::DefBool(value, condition)))
}

fn defaulted(alloc: Global, rest: &[Part]) -> Result<Option<Row>, Memory>
    ensures { IfOk result (λ found. found ≡ defaulted rest.now) }
{
    let Some((value, behind)) = value(alloc, rest)? else {
        return Ok(None);
    };
    let single = behind.len() + 1 == rest.len();
    Ok(condition(alloc, behind)?.map(|condition| Row::Default {
        value,
        single,
        condition,
    }))
}

// The value of a default: a condition, or the bare word `m`, which no condition has but which may name a symbol.
fn value(alloc: Global, rest: &[Part]) -> Result<Option<(Expr, &[Part])>, Memory>
    ensures { IfOk result (λ found. option_map front found ≡ value rest.now) }
{
    match rest.split_first() {
        Some((Part::Word(word), behind)) if is_text(word.as_slice(), b"m") => {
            Ok(Some((Expr::Holds(Atom::Word(word.copy()?)), behind)))
        }
        _ => expression(alloc, rest),
    }
}

fn depends(alloc: Global, rest: &[Part]) -> Result<Option<Row>, Memory>
    ensures { IfOk result (λ found. found ≡ depends rest.now) }
{
    match rest.split_first() {
        Some((Part::Word(word), behind)) if is_text(word.as_slice(), b"on") => depends_on(
            alloc, behind,
        ),
        _ => Ok(None),
    }
}

fn depends_on(alloc: Global, rest: &[Part]) -> Result<Option<Row>, Memory>
    ensures { IfOk result (λ found. found ≡ depends_on rest.now) }
{
    Ok(whole(alloc, rest)?.map(Row::Depends))
}

fn select(alloc: Global, rest: &[Part]) -> Result<Option<Row>, Memory>
    ensures { IfOk result (λ found. found ≡ select rest.now) }
{
    let Some((name, behind)) = symbol(rest)? else {
        return Ok(None);
    };
    Ok(condition(alloc, behind)?.map(|condition| Row::Select(name, condition)))
}

// Nothing, or `if` and a condition.
fn condition(alloc: Global, rest: &[Part]) -> Result<Option<Expr>, Memory>
    ensures { IfOk result (λ found. found ≡ condition rest.now) }
{
    match rest.split_first() {
        None => Ok(Some(Expr::True)),
        Some((Part::Word(word), behind)) if is_text(word.as_slice(), b"if") => whole(alloc, behind),
        _ => Ok(None),
    }
}

// A condition with nothing after it.
#[tactic(auto, unfolding(crate::specs::Row::whole))]
fn whole(alloc: Global, rest: &[Part]) -> Result<Option<Expr>, Memory>
    ensures { IfOk result (λ found. found ≡ whole rest.now) }
{
    Ok(expression(alloc, rest)?.and_then(|(expr, behind)| alone(behind, expr)))
}

// The name of a symbol, and the parts after it.
fn symbol(rest: &[Part]) -> Result<Option<(Bytes, &[Part])>, Memory>
    ensures { IfOk result (λ found. option_map front found ≡ symbol rest.now) }
{
    match rest.split_first() {
        Some((Part::Word(word), behind)) if is_symbol(word.as_slice()) => Ok(Some((
            word.copy()?,
            behind,
        ))),
        _ => Ok(None),
    }
}

/// Whether a word is the name of a symbol: one or more letters, digits and `_`.
#[tactic(auto, unfolding(crate::specs::Row::is_symbol))]
pub fn is_symbol(word: &[u8]) -> bool
    ensures { result ≡ is_symbol word.now }
{
    !word.is_empty() && has_symbol_bytes(word)
}

fn has_symbol_bytes(word: &[u8]) -> bool
    ensures { result ≡ list_all byte_is.of_symbol word.now }
{
    word.iter().all(|byte| is_symbol_byte(*byte))
}
