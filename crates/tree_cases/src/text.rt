//! Paths, modes, areas, walks and texts of links, as a line writes them.
ghost use Rattle.std.specs.Prelude.{◌≡◌, ◌≤◌, IfOk, IsTrue};
ghost use Rattle.std.specs.List.{list_all};
ghost use Rattle.tree_cases.specs.Walks.{is_walk_byte};
ghost use Rattle.tree_ops.specs.Tree.{IsLinkText};
ghost use Rattle.tree_ops.specs.Walk.{IsWalk};

use crate::act::AREAS;
use br_path::{Area, Path};
use case_text::{Stopped, found};
use std::alloc::Global;

/// The path that is written with a `/` before each name, and the root as `/`.
pub(crate) fn path(alloc: Global, text: &[u8]) -> Result<Path, Stopped> {
    match text {
        b"/" => Ok(Path::root(alloc)),
        [b'/', names @ ..] => Ok(Path::parse(alloc, names)?),
        _ => Err(Stopped),
    }
}

pub(crate) fn area(word: &[u8]) -> Result<Area, Stopped> {
    found(&AREAS, word)
}

/// The mode that octal digits write.
pub(crate) fn mode(digits: &[u8]) -> Result<u16, Stopped>
    ensures { IfOk result (λ mode. mode ≤ 4095) }
{
    let mut mode = 0u16;
    for digit in digits {
        mode = with_digit(mode, *digit).ok_or(Stopped)?;
    }
    if mode > 0o7777 {
        return Err(Stopped);
    }
    Ok(mode)
}

fn with_digit(mode: u16, digit: u8) -> Option<u16> {
    let digit = digit.checked_sub(b'0').filter(|digit| *digit < 8)?;
    mode.checked_mul(8)?.checked_add(u16::from(digit))
}

/// Whether each byte is a slash or one that a name may have.
pub(crate) fn is_walk(text: &[u8]) -> bool
    ensures { IsTrue result → IsWalk text.now }
{
    has_walk_bytes(text)
}

fn has_walk_bytes(text: &[u8]) -> bool
    ensures { result ≡ list_all is_walk_byte text.now }
{
    text.iter().all(|byte| is_walk_byte(*byte))
}

fn is_walk_byte(byte: u8) -> bool
    ensures { result ≡ is_walk_byte byte }
{
    byte >= 32 && byte <= 126
}

/// Whether a link may have the text.
pub(crate) fn is_link_text(text: &[u8]) -> bool
    ensures { IsTrue result → IsLinkText text.now }
{
    if text.is_empty() || text.len() > 1024 {
        return false;
    }
    is_walk(text)
}
