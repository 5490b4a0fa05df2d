//! Files and folders of the input, as operands name them.
ghost use Rattle.std.specs.Prelude.{◌≡◌, map, IfOk, Err, None};
ghost use Rattle.std.specs.List.{list_any};
ghost use Rattle.br_path.specs.Path.{parts};
ghost use Rattle.br_path.specs.Gives.{Gives};
ghost use Rattle.tree_ops.specs.Change.{is_below, is_at_or_below};
ghost use Rattle.tree_worlds.specs.Naming.{IsPathOf, IsNoPath};
ghost use Rattle.tree_worlds.specs.Operand.{is_counted, names_of, is_parent, board, is_within, is_inside, is_file, is_folder, is_there, found, input_of, told};
ghost use Rattle.tree_worlds.specs.declared.reason.CommandError.TheVariants.{Memory as no_memory};

use crate::acts::error_of;
use crate::operand::Operand;
use crate::reason::CommandError;
use br_path::{Bytes, Files, Memory, Path, PathFault, is_text};
use std::alloc::{AllocError, Global};
use tree_ops::ChangeFault;

/// The file or folder of the input that a word names, for a package with this folder.
pub(crate) fn input(
    alloc: Global,
    folder: &Path,
    files: &Files,
    word: &[u8],
) -> Result<Operand, CommandError>
    ensures { Gives no_memory (told (input_of folder.now files.now (names_of word.now))) result }
{
    let names = names_of(alloc, word)?;
    if has_parent(names.as_slice()) || !is_within(folder.names(), names.as_slice()) {
        return Err(error_of(ChangeFault::Outside));
    }
    match path_of(alloc, names.as_slice())? {
        None => Err(absent(folder, files, names.as_slice())),
        Some(path) => found(folder, files, path),
    }
}

/// The names of a word, without `.`.
fn names_of(alloc: Global, word: &[u8]) -> Result<Vec<Bytes>, Memory>
    ensures { IfOk result (λ names. names.items ≡ names_of word.now) }
{
    let mut parts = parts(alloc, word)?;
    let mut names = Vec::new(alloc);
    while let Some(part) = parts.pop() {
        if is_counted(part) {
            names.push(Bytes::from_slice(alloc, part)?)?;
        }
    }
    names.reverse();
    Ok(names)
}

/// The parts of a text between its slashes.
fn parts(alloc: Global, text: &[u8]) -> Result<Vec<&[u8]>, AllocError>
    ensures { IfOk result (λ all. map (λ part. part.now) all.items ≡ parts text.now) }
{
    text.split(|byte| *byte == b'/').collect(alloc)
}

/// Whether a component counts.
fn is_counted(name: &[u8]) -> bool
    ensures { result ≡ is_counted name.now }
{
    !name.is_empty() && !is_text(name, b".")
}

fn has_parent(names: &[Bytes]) -> bool
    ensures { result ≡ list_any is_parent names.now }
{
    names.iter().any(|name| is_text(name.as_slice(), b".."))
}

/// Whether the names are the package's folder or `board`, or lie below one of them.
fn is_within(folder: &[Bytes], names: &[Bytes]) -> bool
    ensures { result ≡ is_within folder.now names.now }
{
    is_at_or_below(folder, names) || is_board(names)
}

/// Whether the names lie below the package's folder or `board`.
fn is_inside(folder: &[Bytes], names: &[Bytes]) -> bool
    ensures { result ≡ is_inside folder.now names.now }
{
    is_below(folder, names) || is_below_board(names)
}

/// Whether the names are those of a head, or lie below it.
fn is_at_or_below(head: &[Bytes], names: &[Bytes]) -> bool
    ensures { result ≡ is_at_or_below head.now names.now }
{
    names.starts_with(head)
}

/// Whether the names lie below a head.
fn is_below(head: &[Bytes], names: &[Bytes]) -> bool
    ensures { result ≡ is_below head.now names.now }
{
    is_at_or_below(head, names) && head.len() < names.len()
}

/// Whether the names are `board`, or lie below it.
fn is_board(names: &[Bytes]) -> bool
    ensures { result ≡ is_at_or_below board names.now }
{
    match names.first() {
        None => false,
        Some(name) => is_text(b"board", name.as_slice()),
    }
}

/// Whether the names lie below `board`.
fn is_below_board(names: &[Bytes]) -> bool
    ensures { result ≡ is_below board names.now }
{
    is_board(names) && 1 < names.len()
}

/// The path of these names, if they are one.
fn path_of(alloc: Global, names: &[Bytes]) -> Result<Option<Path>, Memory>
    ensures { IfOk result (IsPathOf names.now) }
{
    let mut path = Path::root(alloc);
    for name in names {
        match path.child(alloc, name.as_slice()) {
            Ok(longer) => path = longer,
            Err(fault) => return no_path(fault),
        }
    }
    Ok(Some(path))
}

/// No path, unless the fault is that it is out of memory.
fn no_path(fault: PathFault) -> Result<Option<Path>, Memory>
    ensures { IfOk result (IsNoPath fault) }
{
    match fault {
        PathFault::Memory => Err(Memory),
        _ => Ok(None),
    }
}

/// The refusal of names that are no path, so that nothing of the input has them.
fn absent(folder: &Path, files: &Files, names: &[Bytes]) -> CommandError
    requires none { IsPathOf names.now None }
    ensures { told (found folder.now files.now names.now) ≡ Err result }
{
    // `len` says of the files that each has a path.
    let _count = files.len();
    error_of(ChangeFault::Absent)
}

/// The file or folder of the input with this path.
fn found(folder: &Path, files: &Files, path: Path) -> Result<Operand, CommandError>
    ensures { result ≡ told (found folder.now files.now path) }
{
    if is_there(folder, files, &path) {
        return Ok(Operand::Input(path));
    }
    Err(error_of(ChangeFault::Absent))
}

fn is_there(folder: &Path, files: &Files, path: &Path) -> bool
    ensures { result ≡ is_there folder.now files.now path.now }
{
    (is_inside(folder.names(), path.names()) && is_file(files, path)) || is_folder(files, path)
}

fn is_file(files: &Files, path: &Path) -> bool
    ensures { result ≡ is_file files.now path.now }
{
    files.get(path).is_some()
}

fn is_folder(files: &Files, path: &Path) -> bool
    ensures { result ≡ is_folder files.now path.now }
{
    files.is_dir(path)
}
