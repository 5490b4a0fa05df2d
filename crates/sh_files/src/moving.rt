//! mv.
ghost use Rattle.std.specs.Prelude.{◌≡◌};
ghost use Rattle.tree_worlds.specs.World.{WorldData, world_data};
ghost use Rattle.tree_worlds.specs.Program.{run, Ran};
ghost use Rattle.tree_worlds.specs.HeldWorld.{IsHeldWorld};
ghost use Rattle.sh_places.specs.Parts.{attempt};
ghost use Rattle.sh_files.specs.Goals.{IsBase};
ghost use Rattle.sh_files.specs.Moving as moving;

use crate::goal::{Goal, base_for, goal_for, sources_of};
use crate::linking::place_within;
use br_path::{Bytes, Files};
use sh_places::{Kind, Spot, act_in, find, kind_at};
use std::alloc::Global;
use tree_ops::{ChangeFault, TreeOps};
use tree_worlds::{CommandError, Reason, Step, World, error_of};

/// Moves sources, each with all that stands below it, to their goal.
pub(crate) fn mv<T: TreeOps>(
    alloc: Global,
    world: &mut World<T>,
    files: &Files,
    operands: &[Bytes],
) -> Result<(), CommandError>
    requires held { IsHeldWorld T.tree T.sealed world.old }
    ensures ran { Ran (run (moving.mv files.now operands.now) (world_data T.tree world.old)) result (world_data T.tree world.new) }
    ensures held { IsHeldWorld T.tree T.sealed world.new }
{
    let goal = goal_for(alloc, world, files, false, None, operands)?;
    move_sources(alloc, world, files, sources_of(None, operands), &goal)
}

fn move_sources<T: TreeOps>(
    alloc: Global,
    world: &mut World<T>,
    files: &Files,
    sources: &[Bytes],
    goal: &Goal,
) -> Result<(), CommandError>
    requires held { IsHeldWorld T.tree T.sealed world.old }
    ensures ran { Ran (run (moving.move_sources files.now sources.now goal.now) (world_data T.tree world.old)) result (world_data T.tree world.new) }
    ensures held { IsHeldWorld T.tree T.sealed world.new }
{
    for word in sources {
        move_source(alloc, world, files, goal, word.as_slice())?;
    }
    Ok(())
}

fn move_source<T: TreeOps>(
    alloc: Global,
    world: &mut World<T>,
    files: &Files,
    goal: &Goal,
    word: &[u8],
) -> Result<(), CommandError>
    requires held { IsHeldWorld T.tree T.sealed world.old }
    ensures ran { Ran (run (moving.move_source files.now goal.now word.now) (world_data T.tree world.old)) result (world_data T.tree world.new) }
    ensures held { IsHeldWorld T.tree T.sealed world.new }
{
    let base = base_for(alloc, goal, word)?;
    let source = find(alloc, world, files, word, false)?;
    move_from(alloc, world, files, goal, base.as_slice(), &source)
}

fn move_from<T: TreeOps>(
    alloc: Global,
    world: &mut World<T>,
    files: &Files,
    goal: &Goal,
    base: &[u8],
    source: &Spot,
) -> Result<(), CommandError>
    requires base { IsBase goal.now base.now }
    requires held { IsHeldWorld T.tree T.sealed world.old }
    ensures ran { Ran (run (moving.move_from files.now goal.now base.now source.now) (world_data T.tree world.old)) result (world_data T.tree world.new) }
    ensures held { IsHeldWorld T.tree T.sealed world.new }
{
    is_something(kind_at(world, files, source))?;
    let place = place_within(alloc, source.site, goal, base)?;
    move_to(alloc, world, source, &place)
}

/// Refuses a place at which nothing stands.
fn is_something(kind: Option<Kind>) -> Result<(), CommandError>
    ensures { (world : WorldData) → Ran (run (attempt (moving.is_something kind)) world) result world }
{
    match kind {
        None => Err(error_of(ChangeFault::Absent)),
        Some(_) => Ok(()),
    }
}

fn move_to<T: TreeOps>(
    alloc: Global,
    world: &mut World<T>,
    source: &Spot,
    place: &Spot,
) -> Result<(), CommandError>
    requires held { IsHeldWorld T.tree T.sealed world.old }
    ensures ran { Ran (run (moving.move_to source.now place.now) (world_data T.tree world.old)) result (world_data T.tree world.new) }
    ensures held { IsHeldWorld T.tree T.sealed world.new }
{
    if source.is(place) {
        return Err(CommandError::Failed(Reason::Same));
    }
    let step = Step::Rename(&source.path, &place.path);
    act_in(alloc, world, place.site, step)
}
