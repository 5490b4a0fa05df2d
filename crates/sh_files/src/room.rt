//! Room at a place, and what is made there.
ghost use Rattle.std.specs.Prelude.{◌≡◌, ◌≤◌};
ghost use Rattle.tree_worlds.specs.World.{world_data};
ghost use Rattle.tree_worlds.specs.Program.{run, Ran};
ghost use Rattle.tree_worlds.specs.HeldWorld.{IsHeldWorld};
ghost use Rattle.sh_files.specs.Room as room;

use sh_places::{Kind, Spot, act_in};
use std::alloc::Global;
use tree_ops::{ChangeFault, TreeOps};
use tree_worlds::{CommandError, Step, World, error_of};

pub(crate) fn is_link(kind: Option<Kind>) -> bool
    ensures { result ≡ room.is_link kind }
{
    matches!(kind, Some(Kind::Link))
}

/// Takes away a file or link at a place. A folder makes no room.
pub(crate) fn make_room<T: TreeOps>(
    alloc: Global,
    world: &mut World<T>,
    place: &Spot,
    there: Option<Kind>,
) -> Result<(), CommandError>
    requires held { IsHeldWorld T.tree T.sealed world.old }
    ensures ran { Ran (run (room.make_room place.now there) (world_data T.tree world.old)) result (world_data T.tree world.new) }
    ensures held { IsHeldWorld T.tree T.sealed world.new }
{
    match there {
        None => Ok(()),
        Some(Kind::Dir(_)) => Err(error_of(ChangeFault::IsDir)),
        Some(_) => act_in(alloc, world, place.site, Step::Remove(&place.path)),
    }
}

pub(crate) fn make_file<T: TreeOps>(
    alloc: Global,
    world: &mut World<T>,
    place: &Spot,
    mode: u16,
    bytes: &[u8],
) -> Result<(), CommandError>
    requires mode { mode ≤ 4095 }
    requires held { IsHeldWorld T.tree T.sealed world.old }
    ensures ran { Ran (run (room.make_file place.now mode bytes.now) (world_data T.tree world.old)) result (world_data T.tree world.new) }
    ensures held { IsHeldWorld T.tree T.sealed world.new }
{
    act_in(
        alloc,
        world,
        place.site,
        Step::MakeFile(&place.path, mode, bytes),
    )
}
