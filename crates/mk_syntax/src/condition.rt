//! What a condition asks.
ghost use Rattle.std.specs.Prelude.{List, ℕ, ◌≡◌, IfOk, option_copied, option_map};
ghost use Rattle.mk_syntax.specs.Condition.{up_to_bracket, divided, sides_of, equality_of, definedness_of, test_of};

use crate::assignment::name_length;
use crate::blanks::{behind, is, skip_blanks, trim_end};
use crate::brackets::{closing, comma};
use crate::recipe::Test;
use br_path::{Bytes, Memory};
use std::alloc::Global;

/// The test that a word and what follows it are, if they are one.
pub(crate) fn test(alloc: Global, word: &[u8], further: &[u8]) -> Result<Option<Test>, Memory>
    ensures { IfOk result (λ found. found ≡ test_of word.now further.now) }
{
    if is(word, b"ifeq") {
        return equality(alloc, true, further);
    }
    if is(word, b"ifneq") {
        return equality(alloc, false, further);
    }
    if is(word, b"ifdef") {
        return definedness(alloc, true, further);
    }
    if is(word, b"ifndef") {
        return definedness(alloc, false, further);
    }
    Ok(None)
}

fn equality(alloc: Global, wanted: bool, text: &[u8]) -> Result<Option<Test>, Memory>
    ensures { IfOk result (λ found. found ≡ equality_of wanted text.now) }
{
    match sides(text) {
        None => Ok(None),
        Some((left, right)) => Ok(Some(Test::Equal {
            left: Bytes::from_slice(alloc, left)?,
            right: Bytes::from_slice(alloc, right)?,
            wanted,
        })),
    }
}

fn definedness(alloc: Global, wanted: bool, text: &[u8]) -> Result<Option<Test>, Memory>
    ensures { IfOk result (λ found. found ≡ definedness_of wanted text.now) }
{
    if !text.is_empty() && name_length(text) == text.len() {
        Ok(Some(Test::Defined {
            name: Bytes::from_slice(alloc, text)?,
            wanted,
        }))
    } else {
        Ok(None)
    }
}

/// The two sides of `(A,B)`.
fn sides(text: &[u8]) -> Option<(&[u8], &[u8])>
    ensures { option_map (λ found. (found.0.now, found.1.now)) result ≡ sides_of text.now }
{
    match behind(text, b"(") {
        None => None,
        Some(inner) => divided(inner),
    }
}

/// The two sides of the comma, up to the bracket that closes.
fn divided(text: &[u8]) -> Option<(&[u8], &[u8])>
    ensures { option_map (λ found. (found.0.now, found.1.now)) result ≡ divided text.now }
{
    match comma(text) {
        None => None,
        Some(place) => {
            let left = trim_end(text.split_at(place).0);
            beside(left, skip_blanks(text.split_at(place + 1).1))
        }
    }
}

fn beside<'a>(left: &'a [u8], text: &'a [u8]) -> Option<(&'a [u8], &'a [u8])>
    ensures { option_map (λ found. (found.0.now, found.1.now)) result ≡ option_map {U = List ℕ × List ℕ} (λ right. (left.now, right)) (up_to_bracket text.now) }
{
    match up_to_bracket(text) {
        None => None,
        Some(right) => Some((left, right)),
    }
}

fn up_to_bracket(text: &[u8]) -> Option<&[u8]>
    ensures { option_copied result ≡ up_to_bracket text.now }
{
    let place = closing(text, b'(', b')')?;
    if place + 1 == text.len() {
        Some(text.split_at(place).0)
    } else {
        None
    }
}
