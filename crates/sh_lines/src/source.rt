//! The copy of a package's source into its build tree.
ghost use Rattle.std.specs.Prelude.{◌≡◌, IfOk};
ghost use Rattle.tree_worlds.specs.World.{world_data};
ghost use Rattle.tree_worlds.specs.Program.{run, Ran};
ghost use Rattle.tree_worlds.specs.HeldWorld.{IsHeldWorld};
ghost use Rattle.tree_worlds.specs.Kept.{KeepsUnlessMemory};
ghost use Rattle.sh_lines.specs.Source as source;

use br_path::{Bytes, Files, Memory, Path};
use sh_places::{Kind, find, kind_at};
use std::alloc::Global;
use tree_ops::TreeOps;
use tree_worlds::{CommandError, World};

/// Copies the source of the world's package: what `cp -r package/foo/src/. /output/build/foo` does.
///
/// If no file lies below `package/foo/src`, nothing is done. After a failure the world has the changes made before it; if it
/// is out of memory, the world can only be let go.
pub fn copy_source<T: TreeOps>(
    alloc: Global,
    world: &mut World<T>,
    files: &Files,
) -> Result<(), CommandError>
    requires held { IsHeldWorld T.tree T.sealed world.old }
    ensures ran { Ran (run (source.copy files.now (world_data T.tree world.old)) (world_data T.tree world.old)) result (world_data T.tree world.new) }
    ensures keeps { KeepsUnlessMemory (world_data T.tree world.old) result (world_data T.tree world.new) }
    ensures held { IsHeldWorld T.tree T.sealed world.new }
{
    copy(alloc, world, files)
}

fn copy<T: TreeOps>(alloc: Global, world: &mut World<T>, files: &Files) -> Result<(), CommandError>
    requires held { IsHeldWorld T.tree T.sealed world.old }
    ensures ran { Ran (run (source.copy files.now (world_data T.tree world.old)) (world_data T.tree world.old)) result (world_data T.tree world.new) }
    ensures held { IsHeldWorld T.tree T.sealed world.new }
{
    let folder = source_word(alloc, &world.folder)?;
    let is = is_folder(alloc, world, files, folder.as_slice())?;
    if is {
        copy_folder(alloc, world, files, folder)
    } else {
        Ok(())
    }
}

/// Copies what a folder holds.
fn copy_folder<T: TreeOps>(
    alloc: Global,
    world: &mut World<T>,
    files: &Files,
    folder: Bytes,
) -> Result<(), CommandError>
    requires held { IsHeldWorld T.tree T.sealed world.old }
    ensures ran { Ran (run (source.copy_folder files.now (world_data T.tree world.old) folder) (world_data T.tree world.old)) result (world_data T.tree world.new) }
    ensures held { IsHeldWorld T.tree T.sealed world.new }
{
    let words = words_of(alloc, folder, &world.package)?;
    sh_files::run(alloc, world, files, b"cp", words.as_slice())
}

/// The folder of a package's source, as a word.
fn source_word(alloc: Global, folder: &Path) -> Result<Bytes, Memory>
    ensures { IfOk result (λ word. word ≡ source.source_word folder.now) }
{
    let mut items = Vec::new(alloc);
    for name in folder.names() {
        items.extend_from_slice(name.as_slice())?;
        items.push(b'/')?;
    }
    items.extend_from_slice(b"src")?;
    Ok(Bytes { items })
}

/// Whether a word names a folder of the input.
fn is_folder<T: TreeOps>(
    alloc: Global,
    world: &World<T>,
    files: &Files,
    word: &[u8],
) -> Result<bool, Memory>
    requires held { IsHeldWorld T.tree T.sealed world.now }
    ensures { IfOk result (λ is. is ≡ source.is_folder (world_data T.tree world.now) files.now word.now) }
{
    match find(alloc, world, files, word, true) {
        Ok(spot) => Ok(is_dir(kind_at(world, files, &spot))),
        Err(CommandError::Memory) => Err(Memory),
        Err(CommandError::Failed(_)) => Ok(false),
    }
}

fn is_dir(kind: Option<Kind>) -> bool
    ensures { result ≡ source.is_dir kind }
{
    match kind {
        Some(Kind::Dir(_)) => true,
        _ => false,
    }
}

/// The words that cp is given.
fn words_of(alloc: Global, folder: Bytes, name: &Bytes) -> Result<Vec<Bytes>, Memory>
    ensures { IfOk result (λ words. words.items ≡ source.copy_words folder name.now) }
{
    let option = Bytes::from_slice(alloc, b"-r")?;
    let from = Bytes::concat(alloc, &[folder.as_slice(), b"/."])?;
    let into = Bytes::concat(alloc, &[b"/output/build/", name.as_slice()])?;
    Ok(vec![in alloc; option, from, into]?)
}
