//! Comments.
ghost use Rattle.std.specs.Prelude.{List, ℕ, ◌≡◌, ◌<◌, ◌≤◌, ◌++◌, IfOk, IfSome, length, take, drop};
ghost use Rattle.mk_syntax.specs.Comment.{reach, behind_dollar, is_escape, kept_behind, without_comment};
ghost use Rattle.mk_syntax.specs.Remains.{Keeps};

use crate::brackets::closing;
use memchr::memchr3;
use std::alloc::{AllocError, Global};

/// A law with nothing to run: what a line keeps without its comment, by its pieces.
///
/// A `#` ends the line, `\#` is a `#` without ending it, and `$$` and references stay as they are. A reference is in
/// round or curly brackets, up to the bracket that matches its first, or to the end of the line where none does.
pub fn comments_end()
    ensures some { (line : List ℕ) → Keeps line (without_comment 0 line) }
    ensures one { (line kept : List ℕ) → Keeps line kept → without_comment 0 line ≡ kept }
{}

/// A line without its comment, and with `#` for each `\#` outside references.
pub(crate) fn without_comment(alloc: Global, line: &[u8]) -> Result<Vec<u8>, AllocError>
    ensures { IfOk result (λ kept. kept.items ≡ without_comment 0 line.now) }
{
    let mut kept = Vec::new(alloc);
    let mut rest = line;
    while let Some((byte, behind)) = rest.split_first() {
        if *byte == b'#' {
            return Ok(kept);
        }
        if is_escape(*byte, behind) {
            kept.push(b'#')?;
            rest = behind.split_at(1).1;
        } else {
            let (piece, further) = rest.split_at(kept_behind(*byte, behind) + 1);
            kept.extend_from_slice(piece)?;
            rest = put_plain(&mut kept, further)?;
        }
    }
    Ok(kept)
}

/// Puts the plain bytes that a text begins with after a line, and gives what follows them.
fn put_plain<'a>(kept: &mut Vec<u8>, text: &'a [u8]) -> Result<&'a [u8], AllocError>
    ensures same { IfOk result (λ rest. kept.new.items ++ without_comment 0 rest.now ≡ kept.old.items ++ without_comment 0 text.now) }
    ensures within { IfOk result (λ rest. length rest.now ≤ length text.now) }
{
    let (plain, rest) = text.split_at(plain_length(text));
    kept.extend_from_slice(plain)?;
    Ok(rest)
}

/// How many bytes stand before the first that can begin a comment, an escape or a reference.
#[tactic(auto, using(crate::proofs::Comments::plain_front))]
fn plain_length(text: &[u8]) -> usize
    ensures plain { without_comment 0 text.now ≡ take result text.now ++ without_comment 0 (drop result text.now) }
    ensures within { result ≤ length text.now }
{
    memchr3(b'#', b'\\', b'$', text).unwrap_or(text.len())
}

fn is_escape(byte: u8, behind: &[u8]) -> bool
    ensures { result ≡ is_escape byte behind.now }
{
    byte == b'\\' && behind.starts_with(b"#")
}

/// How many bytes stay as they are after a byte: after a dollar those that go with it.
fn kept_behind(byte: u8, behind: &[u8]) -> usize
    ensures value { result ≡ kept_behind byte behind.now }
    ensures within { result ≤ length behind.now }
{
    if byte == b'$' {
        behind_dollar(behind)
    } else {
        0
    }
}

fn behind_dollar(text: &[u8]) -> usize
    ensures value { result ≡ behind_dollar text.now }
    ensures within { result ≤ length text.now }
{
    match text.split_first() {
        None => 0,
        Some((b'$', _)) => 1,
        Some((b'(', inner)) => reach(closing(inner, b'(', b')'), inner.len()) + 1,
        Some((b'{', inner)) => reach(closing(inner, b'{', b'}'), inner.len()) + 1,
        Some(_) => 0,
    }
}

/// The bytes up to a closing bracket, and with it.
fn reach(place: Option<usize>, size: usize) -> usize
    requires { IfSome place (λ found. found < size) }
    ensures value { result ≡ reach place size }
    ensures within { result ≤ size }
{
    match place {
        None => size,
        Some(place) => place + 1,
    }
}
