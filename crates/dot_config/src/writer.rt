//! From values to the text that states them.
ghost use Rattle.std.specs.Prelude.{◌≡◌, ◌++◌, ◌∷◌, [], ℕ, List, IfOk, OnOk};
ghost use Rattle.kc_menu.specs.Visible.{is_visible};
ghost use Rattle.kc_menu.specs.declared.wishes.WishValue.TheVariants.{No, Word, Quoted};
ghost use Rattle.dot_config.specs.Symbols.{has};
ghost use Rattle.dot_config.specs.Writing.{config_text, bool_wish, string_wish, int_wish, escaped, escaped_byte, wish_for, wish_text, line_of};

use crate::symbols::Symbols;
use br_path::{Bytes, Memory, is_text};
use kc_menu::Menu;
use kc_values::{Kind, Valued, Values};
use std::alloc::Global;

/// The text that states these values of the symbols of a menu. The time is proportional to the menu and the values.
pub fn write(alloc: Global, menu: &Menu, values: &Values) -> Result<Bytes, Memory>
    ensures { IfOk result (λ text. text ≡ config_text menu.now.entries values.now) }
{
    let visible = visible_symbols(alloc, menu, values)?;
    let mut items = Vec::new(alloc);
    for place in 0..values.count() {
        let (symbol, valued) = values.at(place).unwrap();
        put_line(&mut items, symbol, valued, visible.has(symbol))?;
    }
    Ok(Bytes { items })
}

fn visible_symbols(alloc: Global, menu: &Menu, values: &Values) -> Result<Symbols, Memory>
    ensures { IfOk result (λ visible. (symbol : List ℕ) → has symbol visible ≡ is_visible menu.now.entries symbol values.now) }
{
    let mut visible = Symbols::new(alloc);
    for entry in menu.entries() {
        if entry.shows(values) {
            visible.put(&entry.symbol)?;
        }
    }
    Ok(visible)
}

// Puts the line of a value after the text, if it has one.
fn put_line(text: &mut Vec<u8>, symbol: &[u8], valued: &Valued, visible: bool) -> Result<(), Memory>
    ensures { OnOk result (text.new.items ≡ text.old.items ++ line_of symbol.now (wish_for visible valued.now)) }
{
    let value = valued.text.as_slice();
    match valued.kind {
        Kind::Bool => put_bool(text, symbol, value, visible),
        Kind::Text => put_string(text, symbol, value, visible),
        Kind::Int => put_int(text, symbol, value),
    }
}

fn put_bool(text: &mut Vec<u8>, symbol: &[u8], value: &[u8], visible: bool) -> Result<(), Memory>
    ensures { OnOk result (text.new.items ≡ text.old.items ++ line_of symbol.now (bool_wish visible value.now)) }
{
    if is_text(value, b"y") {
        return put_word(text, symbol, b"y");
    }
    if visible {
        return put_unset(text, symbol);
    }
    Ok(())
}

fn put_string(text: &mut Vec<u8>, symbol: &[u8], value: &[u8], visible: bool) -> Result<(), Memory>
    ensures { OnOk result (text.new.items ≡ text.old.items ++ line_of symbol.now (string_wish visible value.now)) }
{
    if visible || !value.is_empty() {
        return put_quoted(text, symbol, value);
    }
    Ok(())
}

fn put_int(text: &mut Vec<u8>, symbol: &[u8], value: &[u8]) -> Result<(), Memory>
    ensures { OnOk result (text.new.items ≡ text.old.items ++ line_of symbol.now (int_wish value.now)) }
{
    if value.is_empty() {
        return Ok(());
    }
    put_word(text, symbol, value)
}

// `# S is not set`
fn put_unset(text: &mut Vec<u8>, symbol: &[u8]) -> Result<(), Memory>
    ensures { OnOk result (text.new.items ≡ text.old.items ++ (wish_text symbol.now No ++ 10 ∷ [])) }
{
    text.extend_from_slice(b"# ")?;
    text.extend_from_slice(symbol)?;
    text.extend_from_slice(b" is not set\n")?;
    Ok(())
}

// `S=word`
fn put_word(text: &mut Vec<u8>, symbol: &[u8], word: &[u8]) -> Result<(), Memory>
    ensures { OnOk result (text.new.items ≡ text.old.items ++ (wish_text symbol.now (Word word.now) ++ 10 ∷ [])) }
{
    text.extend_from_slice(symbol)?;
    text.push(b'=')?;
    text.extend_from_slice(word)?;
    text.push(b'\n')?;
    Ok(())
}

// `S="text"`
fn put_quoted(text: &mut Vec<u8>, symbol: &[u8], value: &[u8]) -> Result<(), Memory>
    ensures { OnOk result (text.new.items ≡ text.old.items ++ (wish_text symbol.now (Quoted value.now) ++ 10 ∷ [])) }
{
    text.extend_from_slice(symbol)?;
    text.extend_from_slice(b"=\"")?;
    put_escaped(text, value)?;
    text.extend_from_slice(b"\"\n")?;
    Ok(())
}

// The text with a backslash before each quote and backslash.
#[tactic(auto, unfolding(crate::specs::Writing::escaped))]
fn put_escaped(text: &mut Vec<u8>, value: &[u8]) -> Result<(), Memory>
    ensures { OnOk result (text.new.items ≡ text.old.items ++ escaped value.now) }
{
    for byte in value {
        put_byte(text, *byte)?;
    }
    Ok(())
}

fn put_byte(text: &mut Vec<u8>, byte: u8) -> Result<(), Memory>
    ensures { OnOk result (text.new.items ≡ text.old.items ++ escaped_byte byte) }
{
    if byte == b'"' || byte == b'\\' {
        text.push(b'\\')?;
        text.push(byte)?;
        return Ok(());
    }
    text.push(byte)?;
    Ok(())
}
