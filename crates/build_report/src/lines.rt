//! What lines are made of.
ghost use Rattle.std.specs.Prelude.{◌≡◌, ◌++◌, OnOk};
ghost use Rattle.std.specs.Fmt.{decimal};
ghost use Rattle.std.specs.List.{join_with_byte};
ghost use Rattle.br_path.specs.Path.{path_text};
ghost use Rattle.build_report.specs.Lines.{status_line};

use br_path::{Bytes, Path};
use std::alloc::{AllocError, Global};

/// Puts a path after a text: its names, with a slash between two.
pub fn push_path(text: &mut Vec<u8>, at: &Path) -> Result<(), AllocError>
    ensures { OnOk result (text.new.items ≡ text.old.items ++ path_text at.now) }
{
    push_joined(text, at.names(), b'/')
}

/// Puts names after a text, with a byte between two.
pub(crate) fn push_joined(
    text: &mut Vec<u8>,
    names: &[Bytes],
    between: u8,
) -> Result<(), AllocError>
    ensures { OnOk result (text.new.items ≡ text.old.items ++ join_with_byte between names.now) }
{
    let mut rest = names;
    while let Some((name, tail)) = rest.split_first() {
        text.extend_from_slice(name.as_slice())?;
        if !tail.is_empty() {
            text.push(between)?;
        }
        rest = tail;
    }
    Ok(())
}

/// Puts a word and a name after a text.
pub(crate) fn push_name(text: &mut Vec<u8>, word: &[u8], name: &[u8]) -> Result<(), AllocError>
    ensures { OnOk result (text.new.items ≡ text.old.items ++ (word.now ++ name.now)) }
{
    text.extend_from_slice(word)?;
    text.extend_from_slice(name)
}

/// Puts a word and a number after a text.
pub(crate) fn push_number(
    alloc: Global,
    text: &mut Vec<u8>,
    word: &[u8],
    number: u32,
) -> Result<(), AllocError>
    ensures { OnOk result (text.new.items ≡ text.old.items ++ (word.now ++ decimal number)) }
{
    let digits = number.to_string(alloc)?;
    push_name(text, word, digits.as_bytes())
}

/// Puts the line of a status after a text: `status 3`.
pub fn push_status(alloc: Global, text: &mut Vec<u8>, status: u8) -> Result<(), AllocError>
    ensures { OnOk result (text.new.items ≡ text.old.items ++ status_line status) }
{
    push_number(alloc, text, b"status ", u32::from(status))?;
    Ok(text.push(b'\n')?)
}
