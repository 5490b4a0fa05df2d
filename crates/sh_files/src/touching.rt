//! touch.
ghost use Rattle.std.specs.Prelude.{◌≡◌};
ghost use Rattle.tree_worlds.specs.World.{world_data};
ghost use Rattle.tree_worlds.specs.Program.{run, Ran};
ghost use Rattle.tree_worlds.specs.HeldWorld.{IsHeldWorld};
ghost use Rattle.sh_places.specs.Parts.{each};
ghost use Rattle.sh_places.specs.Looks.{kind_at};
ghost use Rattle.sh_files.specs.Touching as touching;

use crate::removing::missing;
use crate::room::make_file;
use br_path::{Bytes, Files};
use sh_places::{Spot, kind_at, read, resolve};
use std::alloc::Global;
use tree_ops::TreeOps;
use tree_worlds::{CommandError, Reason, World};

/// Makes an empty file of each word that names nothing yet, or nothing if `only_there`.
pub(crate) fn touch<T: TreeOps>(
    alloc: Global,
    world: &mut World<T>,
    files: &Files,
    only_there: bool,
    words: &[Bytes],
) -> Result<(), CommandError>
    requires held { IsHeldWorld T.tree T.sealed world.old }
    ensures ran { Ran (run (touching.touch files.now only_there words.now) (world_data T.tree world.old)) result (world_data T.tree world.new) }
    ensures held { IsHeldWorld T.tree T.sealed world.new }
{
    if words.is_empty() {
        return Err(CommandError::Failed(Reason::Operand));
    }
    touch_words(alloc, world, files, only_there, words)
}

fn touch_words<T: TreeOps>(
    alloc: Global,
    world: &mut World<T>,
    files: &Files,
    only_there: bool,
    words: &[Bytes],
) -> Result<(), CommandError>
    requires held { IsHeldWorld T.tree T.sealed world.old }
    ensures ran { Ran (run (each (touching.touch_word files.now only_there) words.now) (world_data T.tree world.old)) result (world_data T.tree world.new) }
    ensures held { IsHeldWorld T.tree T.sealed world.new }
{
    for word in words {
        touch_word(alloc, world, files, only_there, word.as_slice())?;
    }
    Ok(())
}

fn touch_word<T: TreeOps>(
    alloc: Global,
    world: &mut World<T>,
    files: &Files,
    only_there: bool,
    word: &[u8],
) -> Result<(), CommandError>
    requires held { IsHeldWorld T.tree T.sealed world.old }
    ensures ran { Ran (run (touching.touch_word files.now only_there word.now) (world_data T.tree world.old)) result (world_data T.tree world.new) }
    ensures held { IsHeldWorld T.tree T.sealed world.new }
{
    let operand = read(alloc, world, files, word)?;
    match resolve(alloc, world, &operand, true) {
        Err(error) => missing(only_there, error),
        Ok(place) => touch_place(alloc, world, files, only_there, &place),
    }
}

fn touch_place<T: TreeOps>(
    alloc: Global,
    world: &mut World<T>,
    files: &Files,
    only_there: bool,
    place: &Spot,
) -> Result<(), CommandError>
    requires held { IsHeldWorld T.tree T.sealed world.old }
    ensures ran { Ran (run (touching.touch_kind only_there place.now (kind_at (world_data T.tree world.old) files.now place.now)) (world_data T.tree world.old)) result (world_data T.tree world.new) }
    ensures held { IsHeldWorld T.tree T.sealed world.new }
{
    match kind_at(world, files, place) {
        Some(_) => Ok(()),
        None if only_there => Ok(()),
        None => make_file(alloc, world, place, 0o644, &[]),
    }
}
