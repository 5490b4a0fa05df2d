//! echo.
ghost use Rattle.std.specs.Prelude.{◌≡◌, ◌++◌, OnOk, IfOk};
ghost use Rattle.tree_worlds.specs.World.{WorldData};
ghost use Rattle.tree_worlds.specs.Program.{run, Ran};
ghost use Rattle.sh_places.specs.Parts.{attempt};
ghost use Rattle.sh_text.specs.Printing as printing;

use br_path::{Bytes, Memory, is_text};
use std::alloc::{AllocError, Global};
use tree_worlds::{CommandError, Reason};

/// What echo puts out: its words and a newline.
pub(crate) fn echo(alloc: Global, words: &[Bytes]) -> Result<Bytes, CommandError>
    ensures { (world : WorldData) → Ran (run (attempt (printing.echoed words.now)) world) result world }
{
    match words.split_first() {
        Some((word, _)) if is_refused(word.as_slice()) => Err(CommandError::Failed(Reason::Option)),
        Some((word, rest)) if is_text(word.as_slice(), b"-n") => Ok(row(alloc, rest)?),
        _ => Ok(line(alloc, words)?),
    }
}

fn is_refused(word: &[u8]) -> bool
    ensures { result ≡ printing.is_refused word.now }
{
    is_text(word, b"-e") || is_text(word, b"-E")
}

/// The words, with a blank between two.
fn row(alloc: Global, words: &[Bytes]) -> Result<Bytes, Memory>
    ensures { IfOk result (λ row. row ≡ printing.row words.now) }
{
    let mut items = Vec::new(alloc);
    put_row(words, &mut items)?;
    Ok(Bytes { items })
}

/// The same with a newline.
fn line(alloc: Global, words: &[Bytes]) -> Result<Bytes, Memory>
    ensures { IfOk result (λ line. line ≡ printing.line words.now) }
{
    let mut line = row(alloc, words)?;
    line.items.push(b'\n')?;
    Ok(line)
}

fn put_row(words: &[Bytes], out: &mut Vec<u8>) -> Result<(), AllocError>
    ensures { OnOk result (out.new.items ≡ out.old.items ++ printing.row words.now) }
{
    let mut gap: &[u8] = b"";
    for word in words {
        out.extend_from_slice(gap)?;
        out.extend_from_slice(word.as_slice())?;
        gap = b" ";
    }
    Ok(())
}
