//! Words, and the blanks between them.
ghost use Rattle.std.specs.Prelude.{◌≡◌, ◌<◌, map, length, position, IfOk, IfSome};
ghost use Rattle.mk_expand.specs.Words.{is_blank, is_white, words, without_front, without_back, trimmed};

use br_path::Memory;
use std::alloc::Global;

/// Whether a byte is a space or a tab.
pub fn is_blank(byte: u8) -> bool
    ensures { result ≡ is_blank byte }
{
    byte == b' ' || byte == b'\t'
}

/// Whether a byte stands between words: a space, a tab or a newline.
pub(crate) fn is_white(byte: u8) -> bool
    ensures { result ≡ is_white byte }
{
    byte == b' ' || byte == b'\t' || byte == b'\n'
}

/// The words of a text, which are slices of it.
pub fn words<'a>(alloc: Global, text: &'a [u8]) -> Result<Vec<&'a [u8]>, Memory>
    ensures { IfOk result (λ found. map (λ word. word.now) found.items ≡ words text.now) }
{
    Ok(
        text.split(|byte| is_white(*byte))
            .filter(|word| !word.is_empty())
            .collect(alloc)?,
    )
}

/// The place of the first blank of a text.
pub(crate) fn first_blank(text: &[u8]) -> Option<usize>
    ensures place { result ≡ position is_blank text.now }
    ensures within { IfSome result (λ place. place < length text.now) }
{
    text.iter().position(|byte| is_blank(*byte))
}

/// A text without the blanks at its start.
pub(crate) fn skip_blanks(text: &[u8]) -> &[u8]
    ensures { result.now ≡ without_front is_blank text.now }
{
    let mut rest = text;
    while let Some((first, tail)) = rest.split_first() {
        if !is_blank(*first) {
            return rest;
        }
        rest = tail;
    }
    rest
}

/// A text without spaces, tabs and newlines at both ends.
pub(crate) fn trim(text: &[u8]) -> &[u8]
    ensures { result.now ≡ trimmed text.now }
{
    trim_end(trim_start(text))
}

fn trim_start(text: &[u8]) -> &[u8]
    ensures { result.now ≡ without_front is_white text.now }
{
    let mut rest = text;
    while let Some((first, tail)) = rest.split_first() {
        if !is_white(*first) {
            return rest;
        }
        rest = tail;
    }
    rest
}

#[tactic(auto, using(crate::proofs::Trims::trims))]
fn trim_end(text: &[u8]) -> &[u8]
    ensures { result.now ≡ without_back is_white text.now }
{
    let mut rest = text;
    while let Some((last, front)) = rest.split_last() {
        if !is_white(*last) {
            return rest;
        }
        rest = front;
    }
    rest
}
