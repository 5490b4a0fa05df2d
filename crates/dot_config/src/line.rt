//! What one line says.
ghost use Rattle.std.specs.Prelude.{◌≡◌, ◌==◌, ◌<◌, length, position, IfOk, IfSome};
ghost use Rattle.std.specs.List.{list_all};
ghost use Rattle.std.specs.Option.{option_copied, option_map};
ghost use Rattle.kc_text.specs.Bytes.{of_symbol};
ghost use Rattle.dot_config.specs.Line.{is_symbol, is_word, of_word, is_blank};
ghost use Rattle.dot_config.specs.SaidBy.{said_by, comment, is_comment, unset_symbol, assigned, assignment, value_of, unquoted, next_byte, seen_byte};

use br_path::{Bytes, Memory, is_text};
use kc_menu::WishValue;
use kc_text::{is_blank as is_blank_byte, is_symbol_byte};
use std::alloc::Global;

/// What a line says.
#[derive(Drop)]
pub enum Said {
    /// Nothing: it is blank, or a comment.
    Nothing,
    /// It asks for a value of a symbol.
    Asks(Bytes, WishValue),
}

/// What the line says; none where it has no form.
#[tactic(auto, unfolding(crate::specs::SaidBy::said_by))]
pub fn said_by(alloc: Global, line: &[u8]) -> Result<Option<Said>, Memory>
    ensures { IfOk result (λ said. said ≡ said_by line.now) }
{
    if is_blank(line) {
        return Ok(Some(Said::Nothing));
    }
    if is_comment(line) {
        return Ok(Some(comment(alloc, line)?));
    }
    assigned(alloc, line)
}

fn is_blank(line: &[u8]) -> bool
    ensures { result ≡ is_blank line.now }
{
    line.iter().all(|byte| is_blank_byte(*byte))
}

fn is_comment(line: &[u8]) -> bool
    ensures { result ≡ is_comment line.now }
{
    matches!(line, [b'#', ..])
}

#[tactic(auto, unfolding(crate::specs::SaidBy::comment))]
fn comment(alloc: Global, line: &[u8]) -> Result<Said, Memory>
    ensures { IfOk result (λ said. said ≡ comment line.now) }
{
    match unset_symbol(line) {
        Some(symbol) => Ok(Said::Asks(Bytes::from_slice(alloc, symbol)?, WishValue::No)),
        None => Ok(Said::Nothing),
    }
}

// The symbol of a line `# S is not set`.
fn unset_symbol(line: &[u8]) -> Option<&[u8]>
    ensures { option_copied result ≡ unset_symbol line.now }
{
    let symbol = line.strip_prefix(b"# ")?.strip_suffix(b" is not set")?;
    if is_symbol(symbol) {
        Some(symbol)
    } else {
        None
    }
}

fn is_symbol(symbol: &[u8]) -> bool
    ensures { result ≡ is_symbol symbol.now }
{
    !symbol.is_empty() && has_symbol_bytes(symbol)
}

fn has_symbol_bytes(symbol: &[u8]) -> bool
    ensures { result ≡ list_all of_symbol symbol.now }
{
    symbol.iter().all(|byte| is_symbol_byte(*byte))
}

// The first `=` ends the symbol.
#[tactic(auto, unfolding(crate::specs::SaidBy::assigned))]
fn assigned(alloc: Global, line: &[u8]) -> Result<Option<Said>, Memory>
    ensures { IfOk result (λ said. said ≡ assigned line.now) }
{
    match place_of_equals(line) {
        Some(place) => assignment(alloc, &line[..place], &line[place + 1..]),
        None => Ok(None),
    }
}

fn place_of_equals(line: &[u8]) -> Option<usize>
    ensures place { result ≡ position (λ byte. byte == 61) line.now }
    ensures within { IfSome result (λ place. place < length line.now) }
{
    line.iter().position(|byte| *byte == b'=')
}

#[tactic(auto, unfolding(crate::specs::SaidBy::assignment))]
fn assignment(alloc: Global, symbol: &[u8], value: &[u8]) -> Result<Option<Said>, Memory>
    ensures { IfOk result (λ said. said ≡ assignment symbol.now value.now) }
{
    if !is_symbol(symbol) {
        return Ok(None);
    }
    match value_of(alloc, value)? {
        Some(wished) => Ok(Some(Said::Asks(Bytes::from_slice(alloc, symbol)?, wished))),
        None => Ok(None),
    }
}

#[tactic(auto, unfolding(crate::specs::SaidBy::value_of))]
fn value_of(alloc: Global, value: &[u8]) -> Result<Option<WishValue>, Memory>
    ensures { IfOk result (λ wished. wished ≡ value_of value.now) }
{
    match value {
        [b'"', quoted @ ..] => Ok(unquoted(alloc, quoted)?.map(WishValue::Quoted)),
        word if is_word(word) => Ok(Some(WishValue::Word(Bytes::from_slice(alloc, word)?))),
        _ => Ok(None),
    }
}

fn is_word(word: &[u8]) -> bool
    ensures { result ≡ is_word word.now }
{
    !word.is_empty() && has_word_bytes(word)
}

fn has_word_bytes(word: &[u8]) -> bool
    ensures { result ≡ list_all of_word word.now }
{
    word.iter().all(|byte| is_word_byte(*byte))
}

// A printable byte but the space and `"`.
fn is_word_byte(byte: u8) -> bool
    ensures { result ≡ of_word byte }
{
    b'!' <= byte && byte <= b'~' && byte != b'"'
}

// The text in front of a closing quote that nothing follows.
fn unquoted(alloc: Global, quoted: &[u8]) -> Result<Option<Bytes>, Memory>
    ensures { IfOk result (λ text. text ≡ unquoted quoted.now) }
{
    let mut items = Vec::new(alloc);
    let mut rest = quoted;
    while let Some((byte, behind)) = next_byte(rest) {
        items.push(byte)?;
        rest = behind;
    }
    if is_text(rest, b"\"") {
        return Ok(Some(Bytes { items }));
    }
    Ok(None)
}

// The next byte of a quoted text, and what stands after it; none at a quote that nothing quotes, and where the text ends.
#[tactic(auto, unfolding(crate::specs::SaidBy::next_byte))]
fn next_byte(quoted: &[u8]) -> Option<(u8, &[u8])>
    ensures { option_map seen_byte result ≡ next_byte quoted.now }
{
    match quoted {
        [b'\\', byte, behind @ ..] => Some((*byte, behind)),
        [byte, behind @ ..] if *byte != b'"' && *byte != b'\\' => Some((*byte, behind)),
        _ => None,
    }
}
