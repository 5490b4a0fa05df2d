//! rm.
ghost use Rattle.std.specs.Prelude.{◌≡◌};
ghost use Rattle.tree_worlds.specs.World.{world_data};
ghost use Rattle.tree_worlds.specs.Program.{run, Ran};
ghost use Rattle.tree_worlds.specs.HeldWorld.{IsHeldWorld};
ghost use Rattle.sh_places.specs.Parts.{each};
ghost use Rattle.sh_places.specs.Looks.{kind_at};
ghost use Rattle.sh_files.specs.Removing as removing;

use br_path::{Bytes, Files};
use sh_places::{Kind, Spot, act_in, entry_of, kind_at, names_at, read, resolve};
use std::alloc::Global;
use tree_ops::{ChangeFault, TreeOps};
use tree_worlds::{CommandError, Reason, Step, World, error_of};

/// More than the folders that any path has.
pub(crate) const DEPTH: u32 = 1024;

/// Removes each word's file, link or, if `recursive`, folder. `force` forgives what is missing.
pub(crate) fn rm<T: TreeOps>(
    alloc: Global,
    world: &mut World<T>,
    files: &Files,
    force: bool,
    recursive: bool,
    words: &[Bytes],
) -> Result<(), CommandError>
    requires held { IsHeldWorld T.tree T.sealed world.old }
    ensures ran { Ran (run (removing.rm files.now force recursive words.now) (world_data T.tree world.old)) result (world_data T.tree world.new) }
    ensures held { IsHeldWorld T.tree T.sealed world.new }
{
    if !words.is_empty() {
        return remove_words(alloc, world, files, force, recursive, words);
    }
    if force {
        return Ok(());
    }
    Err(CommandError::Failed(Reason::Operand))
}

fn remove_words<T: TreeOps>(
    alloc: Global,
    world: &mut World<T>,
    files: &Files,
    force: bool,
    recursive: bool,
    words: &[Bytes],
) -> Result<(), CommandError>
    requires held { IsHeldWorld T.tree T.sealed world.old }
    ensures ran { Ran (run (each (removing.remove_word files.now force recursive) words.now) (world_data T.tree world.old)) result (world_data T.tree world.new) }
    ensures held { IsHeldWorld T.tree T.sealed world.new }
{
    for word in words {
        remove_word(alloc, world, files, force, recursive, word.as_slice())?;
    }
    Ok(())
}

fn remove_word<T: TreeOps>(
    alloc: Global,
    world: &mut World<T>,
    files: &Files,
    force: bool,
    recursive: bool,
    word: &[u8],
) -> Result<(), CommandError>
    requires held { IsHeldWorld T.tree T.sealed world.old }
    ensures ran { Ran (run (removing.remove_word files.now force recursive word.now) (world_data T.tree world.old)) result (world_data T.tree world.new) }
    ensures held { IsHeldWorld T.tree T.sealed world.new }
{
    let operand = read(alloc, world, files, word)?;
    match resolve(alloc, world, &operand, false) {
        Err(error) => missing(force, error),
        Ok(place) => remove_place(alloc, world, files, force, recursive, &place),
    }
}

#[tactic(auto, using(crate::proofs::Missing::ran_missed))]
fn remove_place<T: TreeOps>(
    alloc: Global,
    world: &mut World<T>,
    files: &Files,
    force: bool,
    recursive: bool,
    place: &Spot,
) -> Result<(), CommandError>
    requires held { IsHeldWorld T.tree T.sealed world.old }
    ensures ran { Ran (run (removing.remove_kind files.now force recursive place.now (kind_at (world_data T.tree world.old) files.now place.now)) (world_data T.tree world.old)) result (world_data T.tree world.new) }
    ensures held { IsHeldWorld T.tree T.sealed world.new }
{
    match kind_at(world, files, place) {
        None => missing(force, error_of(ChangeFault::Absent)),
        Some(Kind::Dir(_)) => remove_folder(alloc, world, files, recursive, place),
        Some(_) => act_in(alloc, world, place.site, Step::Remove(&place.path)),
    }
}

/// Nothing, if what is missing is forgiven; else the error.
pub(crate) fn missing(force: bool, error: CommandError) -> Result<(), CommandError>
    ensures { result ≡ removing.answered force error }
{
    match error {
        CommandError::Failed(Reason::Change(ChangeFault::Absent)) if force => Ok(()),
        error => Err(error),
    }
}

fn remove_folder<T: TreeOps>(
    alloc: Global,
    world: &mut World<T>,
    files: &Files,
    recursive: bool,
    place: &Spot,
) -> Result<(), CommandError>
    requires held { IsHeldWorld T.tree T.sealed world.old }
    ensures ran { Ran (run (removing.remove_folder files.now recursive place.now) (world_data T.tree world.old)) result (world_data T.tree world.new) }
    ensures held { IsHeldWorld T.tree T.sealed world.new }
{
    if !recursive {
        return Err(error_of(ChangeFault::IsDir));
    }
    if place.path.names().is_empty() {
        return Err(error_of(ChangeFault::Outside));
    }
    remove_below(alloc, world, files, place, DEPTH)?;
    act_in(alloc, world, place.site, Step::Remove(&place.path))
}

/// Removes what stands below a place, last name first.
#[tactic(auto, using(crate::proofs::Depths::remove_none, crate::proofs::Depths::remove_more))]
fn remove_below<T: TreeOps>(
    alloc: Global,
    world: &mut World<T>,
    files: &Files,
    place: &Spot,
    depth: u32,
) -> Result<(), CommandError>
    requires held { IsHeldWorld T.tree T.sealed world.old }
    ensures ran { Ran (run (removing.remove_below depth files.now place.now) (world_data T.tree world.old)) result (world_data T.tree world.new) }
    ensures held { IsHeldWorld T.tree T.sealed world.new }
{
    if depth == 0 {
        return Ok(());
    }
    let mut names = names_at(alloc, world, files, place)?;
    names.items.reverse();
    for name in names.items.iter() {
        let entry = entry_of(alloc, place, name.as_slice())?;
        remove_below(alloc, world, files, &entry, depth - 1)?;
        act_in(alloc, world, entry.site, Step::Remove(&entry.path))?;
    }
    Ok(())
}
