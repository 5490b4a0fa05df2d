//! printf.
ghost use Rattle.std.specs.Prelude.{◌≡◌, IfOk};
ghost use Rattle.tree_worlds.specs.World.{WorldData};
ghost use Rattle.tree_worlds.specs.Program.{run, Ran};
ghost use Rattle.sh_places.specs.Parts.{attempt};
ghost use Rattle.sh_text.specs.Printing as printing;
ghost use Rattle.sh_text.specs.Formats.{put_out};

use crate::format::Format;
use br_path::{Bytes, Memory, is_text};
use std::alloc::Global;
use tree_worlds::{CommandError, Reason};

/// What printf puts out: its first word as a format, with the others.
pub(crate) fn printf(alloc: Global, words: &[Bytes]) -> Result<Bytes, CommandError>
    ensures { (world : WorldData) → Ran (run (attempt (printing.printed words.now)) world) result world }
{
    let Some((text, words)) = without_end(words).split_first() else {
        return Err(CommandError::Failed(Reason::Operand));
    };
    let Some(format) = Format::read(alloc, text.as_slice())? else {
        return Err(CommandError::Failed(Reason::Operand));
    };
    Ok(put_out(alloc, &format, words)?)
}

/// The words after a first word `--`.
fn without_end(words: &[Bytes]) -> &[Bytes]
    ensures { result.now ≡ printing.without_end words.now }
{
    match words.split_first() {
        Some((word, rest)) if is_text(word.as_slice(), b"--") => rest,
        _ => words,
    }
}

fn put_out(alloc: Global, format: &Format, words: &[Bytes]) -> Result<Bytes, Memory>
    ensures { IfOk result (λ out. out ≡ put_out format.now words.now) }
{
    let mut items = Vec::new(alloc);
    format.put(words, &mut items)?;
    Ok(Bytes { items })
}
