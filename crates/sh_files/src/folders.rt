//! mkdir: folders, and those on the way to them.
ghost use Rattle.std.specs.Prelude.{◌≡◌, ◌≤◌, [], ◌∷◌, ◌++◌, All, IfOk, OnOk, Some, false, if◌then◌else◌};
ghost use Rattle.std.specs.List.{list_all};
ghost use Rattle.std.specs.Option.{option_copied};
ghost use Rattle.tree_ops.specs.Walk.{IsWalk};
ghost use Rattle.tree_worlds.specs.World.{WorldData, world_data};
ghost use Rattle.tree_worlds.specs.Program.{run, Ran};
ghost use Rattle.tree_worlds.specs.HeldWorld.{IsHeldWorld};
ghost use Rattle.tree_worlds.specs.Operand.{HasWalk};
ghost use Rattle.sh_places.specs.Finding.{walked};
ghost use Rattle.sh_files.specs.Folders as folders;

use crate::mode::mode_or;
use br_path::{Bytes, Files, Memory, is_text};
use sh_places::{Kind, Site, act_in, components, find, input_kind, kind_at, read, walk_in};
use std::alloc::Global;
use tree_ops::{ChangeFault, TreeOps};
use tree_worlds::{CommandError, Operand, Reason, Step, World, error_of};

/// `mkdir` of one word.
pub(crate) fn make_folder<T: TreeOps>(
    alloc: Global,
    world: &mut World<T>,
    files: &Files,
    mode: u16,
    word: &[u8],
) -> Result<(), CommandError>
    requires mode { mode ≤ 4095 }
    requires held { IsHeldWorld T.tree T.sealed world.old }
    ensures ran { Ran (run (folders.make_folder files.now mode word.now) (world_data T.tree world.old)) result (world_data T.tree world.new) }
    ensures held { IsHeldWorld T.tree T.sealed world.new }
{
    let place = find(alloc, world, files, word, false)?;
    act_in(alloc, world, place.site, Step::MakeDir(&place.path, mode))
}

/// `mkdir -p` of one word.
pub(crate) fn make_folders<T: TreeOps>(
    alloc: Global,
    world: &mut World<T>,
    files: &Files,
    mode: u16,
    word: &[u8],
) -> Result<(), CommandError>
    requires mode { mode ≤ 4095 }
    requires held { IsHeldWorld T.tree T.sealed world.old }
    ensures ran { Ran (run (folders.make_folders files.now mode word.now) (world_data T.tree world.old)) result (world_data T.tree world.new) }
    ensures held { IsHeldWorld T.tree T.sealed world.new }
{
    let operand = read(alloc, world, files, word)?;
    make_path(alloc, world, files, mode, &operand)
}

/// All folders of an operand. The last name that isn't `.` or `..` gets the mode if it is made, those before it 0755.
pub(crate) fn make_path<T: TreeOps>(
    alloc: Global,
    world: &mut World<T>,
    files: &Files,
    mode: u16,
    operand: &Operand,
) -> Result<(), CommandError>
    requires walk { HasWalk operand.now }
    requires mode { mode ≤ 4095 }
    requires held { IsHeldWorld T.tree T.sealed world.old }
    ensures ran { Ran (run (folders.make_path files.now mode operand.now) (world_data T.tree world.old)) result (world_data T.tree world.new) }
    ensures held { IsHeldWorld T.tree T.sealed world.new }
{
    match operand {
        Operand::Input(path) => input_folder(input_kind(files, path)),
        Operand::Place { area, walk } => {
            let names = components(alloc, walk.as_slice())?;
            ensure_folders(
                alloc,
                world,
                files,
                Site::Tree(*area),
                mode,
                names.items.as_slice(),
            )
        }
        Operand::Readable { task, walk } => {
            let names = components(alloc, walk.as_slice())?;
            ensure_folders(
                alloc,
                world,
                files,
                Site::Readable(*task),
                mode,
                names.items.as_slice(),
            )
        }
    }
}

/// The folders above an operand, by whether its last component is `.`. Those above something of the input are there.
pub(crate) fn make_parents<T: TreeOps>(
    alloc: Global,
    world: &mut World<T>,
    files: &Files,
    dotted: bool,
    operand: &Operand,
) -> Result<(), CommandError>
    requires walk { HasWalk operand.now }
    requires held { IsHeldWorld T.tree T.sealed world.old }
    ensures ran { Ran (run (folders.make_parents files.now dotted operand.now) (world_data T.tree world.old)) result (world_data T.tree world.new) }
    ensures held { IsHeldWorld T.tree T.sealed world.new }
{
    match operand {
        Operand::Input(path) => {
            if dotted {
                return input_folder(input_kind(files, path));
            }
            Ok(())
        }
        Operand::Place { area, walk } => {
            let names = components(alloc, walk.as_slice())?;
            ensure_folders(
                alloc,
                world,
                files,
                Site::Tree(*area),
                0o755,
                but_last(names.items.as_slice()),
            )
        }
        Operand::Readable { task, walk } => {
            let names = components(alloc, walk.as_slice())?;
            ensure_folders(
                alloc,
                world,
                files,
                Site::Readable(*task),
                0o755,
                but_last(names.items.as_slice()),
            )
        }
    }
}

/// All names but the last.
pub(crate) fn but_last(names: &[Bytes]) -> &[Bytes]
    ensures { result.now ≡ folders.but_last names.now }
{
    match names.split_last() {
        None => names,
        Some((_, front)) => front,
    }
}

/// Refuses what is no folder of the input.
fn input_folder(kind: Option<Kind>) -> Result<(), CommandError>
    ensures { (world : WorldData) → Ran (run (folders.input_folder kind) world) result world }
{
    match kind {
        Some(Kind::Dir(_)) => Ok(()),
        Some(_) => Err(error_of(ChangeFault::NotDir)),
        None => Err(error_of(ChangeFault::Absent)),
    }
}

/// The folders that names lead to, one after another.
fn ensure_folders<T: TreeOps>(
    alloc: Global,
    world: &mut World<T>,
    files: &Files,
    site: Site,
    mode: u16,
    names: &[Bytes],
) -> Result<(), CommandError>
    requires names { All IsWalk names.now }
    requires mode { mode ≤ 4095 }
    requires held { IsHeldWorld T.tree T.sealed world.old }
    ensures ran { Ran (run (folders.ensure_folders files.now site mode [] names.now) (world_data T.tree world.old)) result (world_data T.tree world.new) }
    ensures held { IsHeldWorld T.tree T.sealed world.new }
{
    let mut front = Vec::new(alloc);
    let mut left = names;
    while let Some((name, more)) = left.split_first() {
        put_step(&mut front, name.as_slice())?;
        ensure_folder(
            alloc,
            world,
            files,
            site,
            mode_before(more, mode),
            front.as_slice(),
        )?;
        left = more;
    }
    Ok(())
}

/// Puts a slash and a name after a walk.
fn put_step(walk: &mut Vec<u8>, name: &[u8]) -> Result<(), Memory>
    ensures { OnOk result (walk.new.items ≡ walk.old.items ++ 47 ∷ name.now) }
{
    walk.push(b'/')?;
    Ok(walk.extend_from_slice(name)?)
}

/// The mode of a folder before these names: the last that isn't `.` or `..` gets the mode.
fn mode_before(names: &[Bytes], mode: u16) -> u16
    ensures mode { result ≡ (if list_all folders.is_dots names.now then mode else 493) }
{
    if are_dots(names) { mode } else { 0o755 }
}

fn are_dots(names: &[Bytes]) -> bool
    ensures { result ≡ list_all folders.is_dots names.now }
{
    names.iter().all(|name| is_dots(name.as_slice()))
}

/// Whether a name is `.` or `..`.
pub(crate) fn is_dots(name: &[u8]) -> bool
    ensures { result ≡ folders.is_dots name.now }
{
    is_text(name, b".") || is_text(name, b"..")
}

/// The folder at the end of a walk. A link there that leads to nothing is `Absent`.
fn ensure_folder<T: TreeOps>(
    alloc: Global,
    world: &mut World<T>,
    files: &Files,
    site: Site,
    mode: u16,
    walk: &[u8],
) -> Result<(), CommandError>
    requires walk { IsWalk walk.now }
    requires mode { mode ≤ 4095 }
    requires held { IsHeldWorld T.tree T.sealed world.old }
    ensures ran { Ran (run (folders.ensure_folder files.now site mode walk.now) (world_data T.tree world.old)) result (world_data T.tree world.new) }
    ensures held { IsHeldWorld T.tree T.sealed world.new }
{
    let place = walk_in(alloc, world, site, walk, true)?;
    match kind_at(world, files, &place) {
        Some(Kind::Dir(_)) => Ok(()),
        Some(_) => Err(error_of(ChangeFault::NotDir)),
        None => {
            if is_there(alloc, world, files, site, walk)? {
                return Err(error_of(ChangeFault::Absent));
            }
            act_in(alloc, world, place.site, Step::MakeDir(&place.path, mode))
        }
    }
}

/// Whether something stands where a walk ends, its last link not followed.
fn is_there<T: TreeOps>(
    alloc: Global,
    world: &World<T>,
    files: &Files,
    site: Site,
    walk: &[u8],
) -> Result<bool, Memory>
    requires walk { IsWalk walk.now }
    requires held { IsHeldWorld T.tree T.sealed world.now }
    ensures { IfOk result (λ there. there ≡ folders.is_there (world_data T.tree world.now) files.now (walked (world_data T.tree world.now) site walk.now false)) }
{
    match walk_in(alloc, world, site, walk, false) {
        Ok(place) => Ok(kind_at(world, files, &place).is_some()),
        Err(CommandError::Memory) => Err(Memory),
        Err(CommandError::Failed(_)) => Ok(false),
    }
}

/// Makes the folder of each word; if `parents`, also those on the way to it.
pub(crate) fn mkdir<T: TreeOps>(
    alloc: Global,
    world: &mut World<T>,
    files: &Files,
    parents: bool,
    mode: Option<&[u8]>,
    words: &[Bytes],
) -> Result<(), CommandError>
    requires held { IsHeldWorld T.tree T.sealed world.old }
    ensures ran { Ran (run (folders.mkdir files.now parents (option_copied mode.entry) words.now) (world_data T.tree world.old)) result (world_data T.tree world.new) }
    ensures held { IsHeldWorld T.tree T.sealed world.new }
{
    match mode_or(mode, 0o755) {
        None => Err(CommandError::Failed(Reason::Operand)),
        Some(mode) => make_all(alloc, world, files, parents, mode, words),
    }
}

/// Makes the folder of each word, of which there are some.
fn make_all<T: TreeOps>(
    alloc: Global,
    world: &mut World<T>,
    files: &Files,
    parents: bool,
    mode: u16,
    words: &[Bytes],
) -> Result<(), CommandError>
    requires mode { mode ≤ 4095 }
    requires held { IsHeldWorld T.tree T.sealed world.old }
    ensures ran { Ran (run (folders.make_all files.now parents words.now (Some mode)) (world_data T.tree world.old)) result (world_data T.tree world.new) }
    ensures held { IsHeldWorld T.tree T.sealed world.new }
{
    if words.is_empty() {
        return Err(CommandError::Failed(Reason::Operand));
    }
    for word in words {
        make_one(alloc, world, files, parents, mode, word.as_slice())?;
    }
    Ok(())
}

fn make_one<T: TreeOps>(
    alloc: Global,
    world: &mut World<T>,
    files: &Files,
    parents: bool,
    mode: u16,
    word: &[u8],
) -> Result<(), CommandError>
    requires mode { mode ≤ 4095 }
    requires held { IsHeldWorld T.tree T.sealed world.old }
    ensures ran { Ran (run (folders.make_one files.now parents mode word.now) (world_data T.tree world.old)) result (world_data T.tree world.new) }
    ensures held { IsHeldWorld T.tree T.sealed world.new }
{
    if parents {
        make_folders(alloc, world, files, mode, word)
    } else {
        make_folder(alloc, world, files, mode, word)
    }
}
