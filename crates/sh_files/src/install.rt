//! install.
ghost use Rattle.std.specs.Prelude.{◌≡◌, ◌≤◌, Some};
ghost use Rattle.std.specs.Option.{option_copied};
ghost use Rattle.sh_places.specs.Parts.{attempt};
ghost use Rattle.tree_worlds.specs.World.{WorldData, world_data};
ghost use Rattle.tree_worlds.specs.Program.{run, Ran};
ghost use Rattle.tree_worlds.specs.HeldWorld.{IsHeldWorld};
ghost use Rattle.sh_files.specs.Goals.{IsBase};
ghost use Rattle.sh_files.specs.Install as installing;

use crate::folders::make_path;
use crate::goal::{Goal, base_for, goal_for, place_for, sources_of};
use crate::mode::mode_or;
use crate::room::{make_file, make_room};
use br_path::{Bytes, Files};
use sh_places::{Kind, Spot, act_in, bytes_at, find, is_same_file, kind_at, read, resolve};
use std::alloc::Global;
use tree_ops::{ChangeFault, Label, TreeOps};
use tree_worlds::{CommandError, Reason, Step, World, error_of};

/// What the options of install say.
#[derive(Clone, Copy)]
pub(crate) struct Choices<'a> {
    /// `d`: the operands are folders.
    pub(crate) folders: bool,
    /// `D`: the folders that lead to the goal are made.
    pub(crate) make: bool,
    /// `t`: the folder into which the sources go.
    pub(crate) into: Option<&'a [u8]>,
    /// `m`: the mode.
    pub(crate) mode: Option<&'a [u8]>,
}

/// Installs folders, or files each with a label of its own.
pub(crate) fn install<T: TreeOps>(
    alloc: Global,
    world: &mut World<T>,
    files: &Files,
    choices: &Choices<'_>,
    operands: &[Bytes],
) -> Result<(), CommandError>
    requires held { IsHeldWorld T.tree T.sealed world.old }
    ensures ran { Ran (run (installing.install files.now choices.now.folders choices.now.make (option_copied choices.now.into) (option_copied choices.now.mode) operands.now) (world_data T.tree world.old)) result (world_data T.tree world.new) }
    ensures held { IsHeldWorld T.tree T.sealed world.new }
{
    match mode_or(choices.mode, 0o755) {
        None => Err(CommandError::Failed(Reason::Operand)),
        Some(mode) => install_with(alloc, world, files, choices, mode, operands),
    }
}

fn install_with<T: TreeOps>(
    alloc: Global,
    world: &mut World<T>,
    files: &Files,
    choices: &Choices<'_>,
    mode: u16,
    operands: &[Bytes],
) -> Result<(), CommandError>
    requires mode { mode ≤ 4095 }
    requires held { IsHeldWorld T.tree T.sealed world.old }
    ensures ran { Ran (run (installing.install_with files.now choices.now.folders choices.now.make (option_copied choices.now.into) operands.now (Some mode)) (world_data T.tree world.old)) result (world_data T.tree world.new) }
    ensures held { IsHeldWorld T.tree T.sealed world.new }
{
    if choices.folders {
        install_folders(alloc, world, files, mode, operands)
    } else {
        install_files(alloc, world, files, choices, mode, operands)
    }
}

/// Installs the sources among the operands at their goal.
fn install_files<T: TreeOps>(
    alloc: Global,
    world: &mut World<T>,
    files: &Files,
    choices: &Choices<'_>,
    mode: u16,
    operands: &[Bytes],
) -> Result<(), CommandError>
    requires mode { mode ≤ 4095 }
    requires held { IsHeldWorld T.tree T.sealed world.old }
    ensures ran { Ran (run (installing.install_files files.now choices.now.make (option_copied choices.now.into) operands.now mode) (world_data T.tree world.old)) result (world_data T.tree world.new) }
    ensures held { IsHeldWorld T.tree T.sealed world.new }
{
    let goal = goal_for(alloc, world, files, choices.make, choices.into, operands)?;
    let sources = sources_of(choices.into, operands);
    install_sources(alloc, world, files, mode, sources, &goal)
}

/// Makes the folders of each word, and gives the last of them the mode.
fn install_folders<T: TreeOps>(
    alloc: Global,
    world: &mut World<T>,
    files: &Files,
    mode: u16,
    words: &[Bytes],
) -> Result<(), CommandError>
    requires mode { mode ≤ 4095 }
    requires held { IsHeldWorld T.tree T.sealed world.old }
    ensures ran { Ran (run (installing.install_folders files.now mode words.now) (world_data T.tree world.old)) result (world_data T.tree world.new) }
    ensures held { IsHeldWorld T.tree T.sealed world.new }
{
    if words.is_empty() {
        return Err(CommandError::Failed(Reason::Operand));
    }
    for word in words {
        install_folder(alloc, world, files, mode, word.as_slice())?;
    }
    Ok(())
}

fn install_folder<T: TreeOps>(
    alloc: Global,
    world: &mut World<T>,
    files: &Files,
    mode: u16,
    word: &[u8],
) -> Result<(), CommandError>
    requires mode { mode ≤ 4095 }
    requires held { IsHeldWorld T.tree T.sealed world.old }
    ensures ran { Ran (run (installing.install_folder files.now mode word.now) (world_data T.tree world.old)) result (world_data T.tree world.new) }
    ensures held { IsHeldWorld T.tree T.sealed world.new }
{
    let operand = read(alloc, world, files, word)?;
    make_path(alloc, world, files, 0o755, &operand)?;
    let folder = resolve(alloc, world, &operand, true)?;
    give_mode(alloc, world, files, mode, &folder)
}

/// Gives a folder the mode, if it has another.
fn give_mode<T: TreeOps>(
    alloc: Global,
    world: &mut World<T>,
    files: &Files,
    mode: u16,
    folder: &Spot,
) -> Result<(), CommandError>
    requires mode { mode ≤ 4095 }
    requires held { IsHeldWorld T.tree T.sealed world.old }
    ensures ran { Ran (run (installing.give_mode files.now mode folder.now) (world_data T.tree world.old)) result (world_data T.tree world.new) }
    ensures held { IsHeldWorld T.tree T.sealed world.new }
{
    match kind_at(world, files, folder) {
        Some(Kind::Dir(old)) if mode != old => {
            act_in(alloc, world, folder.site, Step::SetMode(&folder.path, mode))
        }
        _ => Ok(()),
    }
}

fn install_sources<T: TreeOps>(
    alloc: Global,
    world: &mut World<T>,
    files: &Files,
    mode: u16,
    sources: &[Bytes],
    goal: &Goal,
) -> Result<(), CommandError>
    requires mode { mode ≤ 4095 }
    requires held { IsHeldWorld T.tree T.sealed world.old }
    ensures ran { Ran (run (installing.install_sources files.now mode sources.now goal.now) (world_data T.tree world.old)) result (world_data T.tree world.new) }
    ensures held { IsHeldWorld T.tree T.sealed world.new }
{
    for word in sources {
        install_source(alloc, world, files, mode, goal, word.as_slice())?;
    }
    Ok(())
}

/// Installs one source, which is followed.
fn install_source<T: TreeOps>(
    alloc: Global,
    world: &mut World<T>,
    files: &Files,
    mode: u16,
    goal: &Goal,
    word: &[u8],
) -> Result<(), CommandError>
    requires mode { mode ≤ 4095 }
    requires held { IsHeldWorld T.tree T.sealed world.old }
    ensures ran { Ran (run (installing.install_source files.now mode goal.now word.now) (world_data T.tree world.old)) result (world_data T.tree world.new) }
    ensures held { IsHeldWorld T.tree T.sealed world.new }
{
    let base = base_for(alloc, goal, word)?;
    let source = find(alloc, world, files, word, true)?;
    install_from(alloc, world, files, mode, goal, base.as_slice(), &source)
}

/// Makes a new file with the bytes of a source. They are taken before the place is cleared.
fn install_from<T: TreeOps>(
    alloc: Global,
    world: &mut World<T>,
    files: &Files,
    mode: u16,
    goal: &Goal,
    base: &[u8],
    source: &Spot,
) -> Result<(), CommandError>
    requires mode { mode ≤ 4095 }
    requires base { IsBase goal.now base.now }
    requires held { IsHeldWorld T.tree T.sealed world.old }
    ensures ran { Ran (run (installing.install_from files.now mode goal.now base.now source.now) (world_data T.tree world.old)) result (world_data T.tree world.new) }
    ensures held { IsHeldWorld T.tree T.sealed world.new }
{
    let label = file_label(kind_at(world, files, source))?;
    let place = place_for(alloc, goal, base)?;
    let bytes = Bytes::from_slice(alloc, bytes_at(world, files, source))?;
    let there = kind_at(world, files, &place);
    let same = is_source(source, label, &place, there);
    install_at(alloc, world, same, &place, there, mode, bytes.as_slice())
}

/// Makes a new file at a place, unless the source itself stands there.
fn install_at<T: TreeOps>(
    alloc: Global,
    world: &mut World<T>,
    same: bool,
    place: &Spot,
    there: Option<Kind>,
    mode: u16,
    bytes: &[u8],
) -> Result<(), CommandError>
    requires mode { mode ≤ 4095 }
    requires held { IsHeldWorld T.tree T.sealed world.old }
    ensures ran { Ran (run (installing.install_at same place.now there mode bytes.now) (world_data T.tree world.old)) result (world_data T.tree world.new) }
    ensures held { IsHeldWorld T.tree T.sealed world.new }
{
    if same {
        return Err(CommandError::Failed(Reason::Same));
    }
    replace(alloc, world, place, there, mode, bytes)
}

/// Makes a new file in the room of what stands at its place.
fn replace<T: TreeOps>(
    alloc: Global,
    world: &mut World<T>,
    place: &Spot,
    there: Option<Kind>,
    mode: u16,
    bytes: &[u8],
) -> Result<(), CommandError>
    requires mode { mode ≤ 4095 }
    requires held { IsHeldWorld T.tree T.sealed world.old }
    ensures ran { Ran (run (installing.replace place.now there mode bytes.now) (world_data T.tree world.old)) result (world_data T.tree world.new) }
    ensures held { IsHeldWorld T.tree T.sealed world.new }
{
    make_room(alloc, world, place, there)?;
    make_file(alloc, world, place, mode, bytes)
}

/// Whether a place holds the source itself, under whatever name.
pub(crate) fn is_source(
    source: &Spot,
    label: Option<Label>,
    place: &Spot,
    there: Option<Kind>,
) -> bool
    ensures { result ≡ installing.is_source source.now label place.now there }
{
    match there {
        Some(Kind::File(other)) => is_same_file(source.site, label, place.site, other),
        _ => false,
    }
}

/// The label of a source, which must be a file. A file of the input has none.
fn file_label(kind: Option<Kind>) -> Result<Option<Label>, CommandError>
    ensures { (world : WorldData) → Ran (run (attempt (installing.file_label kind)) world) result world }
{
    match kind {
        None | Some(Kind::Link) => Err(error_of(ChangeFault::Absent)),
        Some(Kind::Dir(_)) => Err(error_of(ChangeFault::IsDir)),
        Some(Kind::File(label)) => Ok(label),
    }
}
