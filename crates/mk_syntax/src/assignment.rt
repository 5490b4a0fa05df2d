//! Lines that set a variable.
ghost use Rattle.std.specs.Prelude.{◌≡◌, ◌≤◌, IfOk, length, not, position, option_map};
ghost use Rattle.mk_syntax.specs.Assignment.{is_name_byte, name_length, operator_of, assignment_of};

use crate::blanks::{behind, skip_blanks};
use crate::recipe::{How, What};
use br_path::{Bytes, Memory};
use std::alloc::Global;

fn is_name_byte(byte: u8) -> bool
    ensures { result ≡ is_name_byte byte }
{
    33 <= byte && byte <= 126 && !b":#=$()?+".contains(&byte)
}

/// How many bytes of a name a text begins with.
#[tactic(auto, using(crate::proofs::Places::places))]
pub(crate) fn name_length(text: &[u8]) -> usize
    ensures value { result ≡ name_length text.now }
    ensures within { result ≤ length text.now }
{
    first_other(text).unwrap_or(text.len())
}

/// The place of the first byte that no name has.
fn first_other(text: &[u8]) -> Option<usize>
    ensures { result ≡ position (λ byte. not (is_name_byte byte)) text.now }
{
    text.iter().position(|byte| !is_name_byte(*byte))
}

/// A line less its comment and the blanks before it, where it sets a variable.
pub(crate) fn assignment(alloc: Global, text: &[u8]) -> Result<Option<What>, Memory>
    ensures { IfOk result (λ what. what ≡ assignment_of text.now) }
{
    let length = name_length(text);
    if length == 0 {
        return Ok(None);
    }
    let (name, further) = text.split_at(length);
    match operator(skip_blanks(further)) {
        None => Ok(None),
        Some((how, value)) => Ok(Some(What::Set {
            name: Bytes::from_slice(alloc, name)?,
            how,
            text: Bytes::from_slice(alloc, skip_blanks(value))?,
        })),
    }
}

/// The operator that a text begins with, and what follows it.
fn operator(text: &[u8]) -> Option<(How, &[u8])>
    ensures { option_map (λ found. (found.0, found.1.now)) result ≡ operator_of text.now }
{
    if let Some(value) = behind(text, b"=") {
        return Some((How::Later, value));
    }
    if let Some(value) = behind(text, b":=") {
        return Some((How::Now, value));
    }
    if let Some(value) = behind(text, b"+=") {
        return Some((How::Append, value));
    }
    match behind(text, b"?=") {
        None => None,
        Some(value) => Some((How::IfUnset, value)),
    }
}
