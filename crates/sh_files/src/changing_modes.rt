//! chmod.
ghost use Rattle.std.specs.Prelude.{◌≡◌};
ghost use Rattle.tree_worlds.specs.World.{world_data};
ghost use Rattle.tree_worlds.specs.Program.{run, Ran};
ghost use Rattle.tree_worlds.specs.HeldWorld.{IsHeldWorld};
ghost use Rattle.sh_places.specs.Parts.{each};
ghost use Rattle.sh_files.specs.Modes.{IsModest};
ghost use Rattle.sh_files.specs.ChangingModes as changing;

use crate::mode::{ModeChange, mode_change};
use crate::removing::DEPTH;
use br_path::{Bytes, Files};
use sh_places::{Kind, Spot, act_in, entry_of, find, kind_at, mode_at, names_at};
use std::alloc::Global;
use tree_ops::{ChangeFault, TreeOps};
use tree_worlds::{CommandError, Reason, Step, World, error_of};

/// Changes the mode of each operand after the first, which says how.
pub(crate) fn chmod<T: TreeOps>(
    alloc: Global,
    world: &mut World<T>,
    files: &Files,
    recursive: bool,
    operands: &[Bytes],
) -> Result<(), CommandError>
    requires held { IsHeldWorld T.tree T.sealed world.old }
    ensures ran { Ran (run (changing.chmod files.now recursive operands.now) (world_data T.tree world.old)) result (world_data T.tree world.new) }
    ensures held { IsHeldWorld T.tree T.sealed world.new }
{
    let (mode, words) = match operands.split_first() {
        None => return Err(CommandError::Failed(Reason::Operand)),
        Some((mode, words)) => (mode, words),
    };
    match mode_change(mode.as_slice()) {
        Some(change) if !words.is_empty() => change_words(
            alloc, world, files, recursive, change, words,
        ),
        _ => Err(CommandError::Failed(Reason::Operand)),
    }
}

fn change_words<T: TreeOps>(
    alloc: Global,
    world: &mut World<T>,
    files: &Files,
    recursive: bool,
    change: ModeChange,
    words: &[Bytes],
) -> Result<(), CommandError>
    requires modest { IsModest change }
    requires held { IsHeldWorld T.tree T.sealed world.old }
    ensures ran { Ran (run (each (changing.change_word files.now recursive change) words.now) (world_data T.tree world.old)) result (world_data T.tree world.new) }
    ensures held { IsHeldWorld T.tree T.sealed world.new }
{
    for word in words {
        change_word(alloc, world, files, recursive, change, word.as_slice())?;
    }
    Ok(())
}

fn change_word<T: TreeOps>(
    alloc: Global,
    world: &mut World<T>,
    files: &Files,
    recursive: bool,
    change: ModeChange,
    word: &[u8],
) -> Result<(), CommandError>
    requires modest { IsModest change }
    requires held { IsHeldWorld T.tree T.sealed world.old }
    ensures ran { Ran (run (changing.change_word files.now recursive change word.now) (world_data T.tree world.old)) result (world_data T.tree world.new) }
    ensures held { IsHeldWorld T.tree T.sealed world.new }
{
    let place = find(alloc, world, files, word, true)?;
    change_at(alloc, world, files, change, &place, depth_of(recursive))
}

/// How deep a change goes.
fn depth_of(recursive: bool) -> u32
    ensures { result ≡ changing.depth_of recursive }
{
    if recursive { DEPTH } else { 0 }
}

/// Changes the mode of a file or folder, and of all below it to a depth. Links are left out.
#[cycle(change)]
fn change_at<T: TreeOps>(
    alloc: Global,
    world: &mut World<T>,
    files: &Files,
    change: ModeChange,
    place: &Spot,
    depth: u32,
) -> Result<(), CommandError>
    requires modest { IsModest change }
    requires held { IsHeldWorld T.tree T.sealed world.old }
    ensures ran { Ran (run (changing.change_at (changing.change_below depth files.now change) files.now change place.now) (world_data T.tree world.old)) result (world_data T.tree world.new) }
    ensures held { IsHeldWorld T.tree T.sealed world.new }
{
    match kind_at(world, files, place) {
        None => Err(error_of(ChangeFault::Absent)),
        Some(Kind::Link) => Ok(()),
        Some(Kind::File(_)) => {
            let old = mode_at(world, place);
            act_in(
                alloc,
                world,
                place.site,
                Step::SetMode(&place.path, change.of(old)),
            )
        }
        Some(Kind::Dir(old)) => {
            act_in(
                alloc,
                world,
                place.site,
                Step::SetMode(&place.path, change.of(old)),
            )?;
            change_below(alloc, world, files, change, place, depth)
        }
    }
}

#[cycle(change)]
#[tactic(auto, using(crate::proofs::Depths::change_none, crate::proofs::Depths::change_more))]
fn change_below<T: TreeOps>(
    alloc: Global,
    world: &mut World<T>,
    files: &Files,
    change: ModeChange,
    place: &Spot,
    depth: u32,
) -> Result<(), CommandError>
    requires modest { IsModest change }
    requires held { IsHeldWorld T.tree T.sealed world.old }
    ensures ran { Ran (run (changing.change_below depth files.now change place.now) (world_data T.tree world.old)) result (world_data T.tree world.new) }
    ensures held { IsHeldWorld T.tree T.sealed world.new }
{
    if depth == 0 {
        return Ok(());
    }
    let names = names_at(alloc, world, files, place)?;
    for name in names.items.iter() {
        let entry = entry_of(alloc, place, name.as_slice())?;
        change_at(alloc, world, files, change, &entry, depth - 1)?;
    }
    Ok(())
}
