//! From a root file system to its text.
ghost use Rattle.std.specs.Prelude.{◌≡◌, [], ◌∷◌, ◌++◌, map, IfOk, OnOk};
ghost use Rattle.std.specs.Fmt.{decimal};
ghost use Rattle.br_path.specs.Mode.{octal};
ghost use Rattle.root_image.specs.Lines.{image_text, lines_text, entry_lines, pieces, rooted};
ghost use Rattle.root_image.specs.Lines.{FileLine, BytesLine};

use crate::length::text_len;
use crate::root::{Root, RootEntry};
use br_path::{Bytes, Memory, Path};
use std::alloc::{AllocError, Global};

/// The text of a root. The time is proportional to the text, which is reserved once.
pub fn write(alloc: Global, root: &Root) -> Result<Bytes, Memory>
    ensures { IfOk result (λ text. text ≡ image_text root.now) }
{
    let mut text = Vec::with_capacity(alloc, text_len(root))?;
    text.extend_from_slice(b"rootfs 1\n")?;
    for (path, entry) in root.entries() {
        push_entry(alloc, &mut text, path, entry)?;
    }
    text.extend_from_slice(b"end ")?;
    push_number(alloc, &mut text, root.entries().len())?;
    text.push(b'\n')?;
    Ok(Bytes { items: text })
}

fn push_entry(
    alloc: Global,
    text: &mut Vec<u8>,
    path: &Path,
    entry: &RootEntry,
) -> Result<(), AllocError>
    ensures { OnOk result (text.new.items ≡ text.old.items ++ lines_text (entry_lines path.now entry.now)) }
{
    match entry {
        RootEntry::Dir(mode) => {
            text.extend_from_slice(b"d ")?;
            push_octal(text, *mode)?;
            push_path(text, b" ", path)
        }
        RootEntry::Link(target) => {
            push_path(text, b"l ", path)?;
            text.extend_from_slice(b"> ")?;
            text.extend_from_slice(target.as_slice())?;
            Ok(text.push(b'\n')?)
        }
        RootEntry::First { mode, bytes } => {
            push_head(alloc, text, path, *mode, bytes.as_slice().len())?;
            push_bytes(alloc, text, bytes.as_slice())
        }
        RootEntry::Same(first) => {
            push_path(text, b"h ", path)?;
            push_path(text, b"> ", first)
        }
    }
}

fn push_head(
    alloc: Global,
    text: &mut Vec<u8>,
    path: &Path,
    mode: u16,
    size: usize,
) -> Result<(), AllocError>
    ensures { OnOk result (text.new.items ≡ text.old.items ++ lines_text (FileLine mode size path.now ∷ [])) }
{
    text.extend_from_slice(b"f ")?;
    push_octal(text, mode)?;
    text.push(b' ')?;
    push_number(alloc, text, size)?;
    push_path(text, b" ", path)
}

// A word, the path and the end of the line.
fn push_path(text: &mut Vec<u8>, word: &[u8], path: &Path) -> Result<(), AllocError>
    ensures { OnOk result (text.new.items ≡ text.old.items ++ (word.now ++ rooted path.now) ++ 10 ∷ []) }
{
    text.extend_from_slice(word)?;
    push_names(text, path.names())?;
    Ok(text.push(b'\n')?)
}

// Names with a slash before each, or a slash alone.
fn push_names(text: &mut Vec<u8>, names: &[Bytes]) -> Result<(), AllocError>
    ensures { OnOk result (text.new.items ≡ text.old.items ++ rooted names.now) }
{
    if names.is_empty() {
        return Ok(text.push(b'/')?);
    }
    for name in names {
        text.push(b'/')?;
        text.extend_from_slice(name.as_slice())?;
    }
    Ok(())
}

fn push_octal(text: &mut Vec<u8>, mode: u16) -> Result<(), AllocError>
    ensures { OnOk result (text.new.items ≡ text.old.items ++ octal mode) }
{
    text.push(b'0' + (mode / 512 % 8) as u8)?;
    text.push(b'0' + (mode / 64 % 8) as u8)?;
    text.push(b'0' + (mode / 8 % 8) as u8)?;
    Ok(text.push(b'0' + (mode % 8) as u8)?)
}

fn push_number(alloc: Global, text: &mut Vec<u8>, number: usize) -> Result<(), AllocError>
    ensures { OnOk result (text.new.items ≡ text.old.items ++ decimal number) }
{
    let digits = number.to_string(alloc)?;
    text.extend_from_slice(digits.as_bytes())
}

fn push_bytes(alloc: Global, text: &mut Vec<u8>, bytes: &[u8]) -> Result<(), AllocError>
    ensures { OnOk result (text.new.items ≡ text.old.items ++ lines_text (map BytesLine (pieces bytes.now))) }
{
    let mut rest = bytes;
    while !rest.is_empty() {
        let (piece, more) = rest.split_at(rest.len().min(32));
        push_piece(alloc, text, piece)?;
        rest = more;
    }
    Ok(())
}

// A line with at most 32 bytes of a file.
fn push_piece(alloc: Global, text: &mut Vec<u8>, piece: &[u8]) -> Result<(), AllocError>
    ensures { OnOk result (text.new.items ≡ text.old.items ++ lines_text (BytesLine piece.now ∷ [])) }
{
    let digits = hex::encode(alloc, piece)?;
    text.extend_from_slice(b"= ")?;
    text.extend_from_slice(digits.as_bytes())?;
    Ok(text.push(b'\n')?)
}
