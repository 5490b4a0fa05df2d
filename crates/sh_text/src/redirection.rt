//! Where the output of a command goes.
//!
//! A target is made or emptied before the command runs, so it stays so where the command fails.
ghost use Rattle.std.specs.Prelude.{◌≡◌};
ghost use Rattle.tree_worlds.specs.World.{world_data};
ghost use Rattle.tree_worlds.specs.Program.{run, Ran};
ghost use Rattle.tree_worlds.specs.HeldWorld.{IsHeldWorld};
ghost use Rattle.sh_places.specs.Finding.{HasWalk};
ghost use Rattle.sh_text.specs.Redirection as redirection;

use br_path::Files;
use sh_places::{Kind, Spot, act_in, kind_at, read, resolve};
use sh_words::Redirect;
use std::alloc::Global;
use tree_ops::{ChangeFault, TreeOps};
use tree_worlds::{CommandError, Operand, Step, World, error_of};

/// Makes the target of a line ready, if it has one.
pub(crate) fn open_into<T: TreeOps>(
    alloc: Global,
    world: &mut World<T>,
    files: &Files,
    into: &Option<Redirect>,
) -> Result<Option<Spot>, CommandError>
    requires held { IsHeldWorld T.tree T.sealed world.old }
    ensures ran { Ran (run (redirection.open_into files.now into.now) (world_data T.tree world.old)) result (world_data T.tree world.new) }
    ensures held { IsHeldWorld T.tree T.sealed world.new }
{
    match into {
        None => Ok(None),
        Some(target) => {
            let place = open_target(alloc, world, files, target)?;
            Ok(Some(place))
        }
    }
}

/// Makes a target ready. Its place is answered.
fn open_target<T: TreeOps>(
    alloc: Global,
    world: &mut World<T>,
    files: &Files,
    target: &Redirect,
) -> Result<Spot, CommandError>
    requires held { IsHeldWorld T.tree T.sealed world.old }
    ensures ran { Ran (run (redirection.open_target files.now target.now) (world_data T.tree world.old)) result (world_data T.tree world.new) }
    ensures held { IsHeldWorld T.tree T.sealed world.new }
{
    let operand = read(alloc, world, files, target.word.as_slice())?;
    open_operand(alloc, world, files, target.append, &operand)
}

fn open_operand<T: TreeOps>(
    alloc: Global,
    world: &mut World<T>,
    files: &Files,
    append: bool,
    operand: &Operand,
) -> Result<Spot, CommandError>
    requires walk { HasWalk operand.now }
    requires held { IsHeldWorld T.tree T.sealed world.old }
    ensures ran { Ran (run (redirection.open_operand files.now append operand.now) (world_data T.tree world.old)) result (world_data T.tree world.new) }
    ensures held { IsHeldWorld T.tree T.sealed world.new }
{
    let name = resolve(alloc, world, operand, false)?;
    let place = resolve(alloc, world, operand, true)?;
    make_target(alloc, world, files, append, &name, &place)?;
    Ok(place)
}

/// Makes the target of a name ready at the place to which the name leads.
fn make_target<T: TreeOps>(
    alloc: Global,
    world: &mut World<T>,
    files: &Files,
    append: bool,
    name: &Spot,
    place: &Spot,
) -> Result<(), CommandError>
    requires held { IsHeldWorld T.tree T.sealed world.old }
    ensures ran { Ran (run (redirection.make_target files.now append name.now place.now) (world_data T.tree world.old)) result (world_data T.tree world.new) }
    ensures held { IsHeldWorld T.tree T.sealed world.new }
{
    let dangling = is_link(kind_at(world, files, name));
    let there = kind_at(world, files, place);
    make_ready(alloc, world, place, append, dangling, there)
}

fn is_link(kind: Option<Kind>) -> bool
    ensures { result ≡ redirection.is_link kind }
{
    matches!(kind, Some(Kind::Link))
}

/// Makes the file of a target, or empties it unless it is appended to. Where a link leads to nothing none is made.
fn make_ready<T: TreeOps>(
    alloc: Global,
    world: &mut World<T>,
    place: &Spot,
    append: bool,
    dangling: bool,
    there: Option<Kind>,
) -> Result<(), CommandError>
    requires held { IsHeldWorld T.tree T.sealed world.old }
    ensures ran { Ran (run (redirection.make_ready place.now append dangling there) (world_data T.tree world.old)) result (world_data T.tree world.new) }
    ensures held { IsHeldWorld T.tree T.sealed world.new }
{
    match there {
        Some(Kind::Dir(_)) => Err(error_of(ChangeFault::IsDir)),
        Some(Kind::Link) => Err(error_of(ChangeFault::Absent)),
        Some(Kind::File(_)) if append => Ok(()),
        Some(Kind::File(_)) => act_in(alloc, world, place.site, Step::Write(&place.path, &[])),
        None if dangling => Err(error_of(ChangeFault::Absent)),
        None => act_in(
            alloc,
            world,
            place.site,
            Step::MakeFile(&place.path, 0o644, &[]),
        ),
    }
}

/// Appends output to the target, unless it is empty. Without a target it is dropped.
pub(crate) fn put_output<T: TreeOps>(
    alloc: Global,
    world: &mut World<T>,
    place: &Option<Spot>,
    output: &[u8],
) -> Result<(), CommandError>
    requires held { IsHeldWorld T.tree T.sealed world.old }
    ensures ran { Ran (run (redirection.put_output place.now output.now) (world_data T.tree world.old)) result (world_data T.tree world.new) }
    ensures held { IsHeldWorld T.tree T.sealed world.new }
{
    match place {
        None => Ok(()),
        Some(_) if output.is_empty() => Ok(()),
        Some(place) => act_in(alloc, world, place.site, Step::Append(&place.path, output)),
    }
}
