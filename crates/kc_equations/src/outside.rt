//! The text of a symbol outside choices, from what the menu and the wishes say of it.
ghost use Rattle.std.specs.Prelude.{◌≡◌, find, option_copied};
ghost use Rattle.kc_equations.specs.Behind.{behind, selects_behind};
ghost use Rattle.kc_equations.specs.Equation.{counts, is_shown, default_of, fitting, fitting_word, wished, base, is_effective, is_selected, bool_text, default_text, value_text, text_by_kind};
ghost use Rattle.kc_expr.specs.Holds.{text_of};

use br_path::is_text;
use kc_expr::{Atom, Expr};
use kc_menu::{KcDefault, KcEntry, SymbolIf, WishValue};
use kc_values::{Kind, Values};

/// The text that the equation of a symbol outside choices gives at some values.
///
/// It takes the type of the symbol, its wish, its entries in reading order, and all selects that name it, each with its entry.
/// The time is proportional to the conditions in them.
pub fn text_by_kind<'a>(
    values: &'a Values,
    kind: Kind,
    wish: Option<&'a WishValue>,
    own: &[&'a KcEntry],
    selects: &[(&'a KcEntry, &'a SymbolIf)],
) -> &'a [u8]
    ensures { result.now ≡ text_by_kind values.now kind (option_copied wish.entry) (behind own.now) (selects_behind selects.now) }
{
    match kind {
        Kind::Bool => bool_text(values, wish, own, selects),
        _ => value_text(values, kind, wish, own),
    }
}

fn bool_text<'a>(
    values: &Values,
    wish: Option<&WishValue>,
    own: &[&KcEntry],
    selects: &[(&KcEntry, &SymbolIf)],
) -> &'a [u8]
    ensures { result.now ≡ bool_text values.now (option_copied wish.entry) (behind own.now) (selects_behind selects.now) }
{
    if base(values, wish, own) || is_selected(values, selects) {
        b"y"
    } else {
        b"n"
    }
}

/// Whether a bool is y before the selects.
#[tactic(auto, unfolding(crate::specs::Equation::base))]
fn base(values: &Values, wish: Option<&WishValue>, own: &[&KcEntry]) -> bool
    ensures { result ≡ base values.now (option_copied wish.entry) (behind own.now) }
{
    if let Some(text) = wished(values, Kind::Bool, wish, own) {
        return is_text(text, b"y");
    }
    match default_of(values, own) {
        Some(default) => default.value.holds(values),
        None => false,
    }
}

/// Whether one of the selects is effective.
fn is_selected(values: &Values, selects: &[(&KcEntry, &SymbolIf)]) -> bool
    ensures { result ≡ is_selected values.now (selects_behind selects.now) }
{
    for (entry, select) in selects {
        if is_effective(values, entry, select) {
            return true;
        }
    }
    false
}

fn is_effective(values: &Values, entry: &KcEntry, select: &SymbolIf) -> bool
    ensures { result ≡ is_effective values.now entry.now select.now }
{
    values.is_yes(entry.symbol.as_slice()) && counts(values, entry, &select.condition)
}

#[tactic(auto, unfolding(crate::specs::Equation::value_text))]
fn value_text<'a>(
    values: &'a Values,
    kind: Kind,
    wish: Option<&'a WishValue>,
    own: &[&'a KcEntry],
) -> &'a [u8]
    ensures { result.now ≡ value_text values.now kind (option_copied wish.entry) (behind own.now) }
{
    if let Some(text) = wished(values, kind, wish, own) {
        return text;
    }
    match default_of(values, own) {
        Some(default) => default_text(values, &default.value),
        None => b"",
    }
}

/// The text that a default stands for.
fn default_text<'a>(values: &'a Values, value: &'a Expr) -> &'a [u8]
    ensures { result.now ≡ default_text values.now value.now }
{
    match value {
        Expr::Holds(atom) => text_of(values, atom),
        _ => b"",
    }
}

fn text_of<'a>(values: &'a Values, atom: &'a Atom) -> &'a [u8]
    ensures { result.now ≡ text_of values.now atom.now }
{
    match atom {
        Atom::Word(word) => values.get(word.as_slice()).unwrap_or(word.as_slice()),
        Atom::Quoted(text) => text.as_slice(),
    }
}

/// The text that is wished, where the wish fits and the symbol is visible.
#[tactic(auto, unfolding(crate::specs::Equation::wished))]
fn wished<'a>(
    values: &Values,
    kind: Kind,
    wish: Option<&'a WishValue>,
    own: &[&KcEntry],
) -> Option<&'a [u8]>
    ensures { option_copied result ≡ wished values.now kind (option_copied wish.entry) (behind own.now) }
{
    match wish {
        Some(value) if is_shown(values, own) => fitting(kind, value),
        _ => None,
    }
}

/// The text of a wish that fits a type.
fn fitting(kind: Kind, wish: &WishValue) -> Option<&[u8]>
    ensures { option_copied result ≡ fitting kind wish.now }
{
    match (kind, wish) {
        (Kind::Bool, WishValue::No) => Some(b"n"),
        (Kind::Bool, WishValue::Word(word)) => fitting_word(word.as_slice()),
        (Kind::Text, WishValue::Quoted(text)) => Some(text.as_slice()),
        (Kind::Int, WishValue::Word(word)) => Some(word.as_slice()),
        _ => None,
    }
}

/// A bare word that a bool takes.
fn fitting_word(word: &[u8]) -> Option<&[u8]>
    ensures { option_copied result ≡ fitting_word word.now }
{
    if is_text(word, b"y") || is_text(word, b"n") {
        Some(word)
    } else {
        None
    }
}

/// Whether one of the entries has a prompt that counts.
fn is_shown(values: &Values, own: &[&KcEntry]) -> bool
    ensures { result ≡ is_shown values.now (behind own.now) }
{
    for entry in own {
        if entry.shows(values) {
            return true;
        }
    }
    false
}

/// The first default that counts.
fn default_of<'a>(values: &Values, own: &[&'a KcEntry]) -> Option<&'a KcDefault>
    ensures { option_copied result ≡ default_of values.now (behind own.now) }
{
    for entry in own {
        if let Some(default) = default_in(values, entry) {
            return Some(default);
        }
    }
    None
}

/// The first default of an entry that counts.
fn default_in<'a>(values: &Values, entry: &'a KcEntry) -> Option<&'a KcDefault>
    ensures { option_copied result ≡ find (λ d. counts values.now entry.now d.condition) entry.now.defaults }
{
    for default in &entry.defaults.items {
        if counts(values, entry, &default.condition) {
            return Some(default);
        }
    }
    None
}

/// Whether a default or select of an entry counts.
fn counts(values: &Values, entry: &KcEntry, condition: &Expr) -> bool
    ensures { result ≡ counts values.now entry.now condition.now }
{
    entry.depends.all_hold(values) && condition.holds(values)
}
