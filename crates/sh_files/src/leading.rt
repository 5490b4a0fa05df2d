//! Where a place leads, and what lies below a folder.
ghost use Rattle.std.specs.Prelude.{◌≡◌, ◌&&◌};
ghost use Rattle.tree_ops.specs.Change.{is_at_or_below};
ghost use Rattle.tree_worlds.specs.World.{world_data};
ghost use Rattle.tree_worlds.specs.Program.{run, Ran};
ghost use Rattle.tree_worlds.specs.HeldWorld.{IsHeldWorld};
ghost use Rattle.sh_places.specs.Parts.{attempt};
ghost use Rattle.sh_places.specs.Spot.{is_site};
ghost use Rattle.sh_files.specs.Copying as copying;

use br_path::{Bytes, Files};
use sh_places::{Kind, Spot, kind_at, rooted_walk, walk_in};
use std::alloc::Global;
use tree_ops::TreeOps;
use tree_worlds::{CommandError, World};

/// Where a place leads.
pub(crate) fn followed<T: TreeOps>(
    alloc: Global,
    world: &World<T>,
    files: &Files,
    place: &Spot,
) -> Result<Spot, CommandError>
    requires held { IsHeldWorld T.tree T.sealed world.now }
    ensures { Ran (run (attempt (copying.followed (world_data T.tree world.now) files.now place.now)) (world_data T.tree world.now)) result (world_data T.tree world.now) }
{
    match kind_at(world, files, place) {
        Some(Kind::Link) => {
            let walk = rooted_walk(alloc, &place.path)?;
            walk_in(alloc, world, place.site, walk.as_slice(), true)
        }
        _ => Ok(place.copy()?),
    }
}

/// Whether a place is a folder's own or lies below it.
pub(crate) fn is_within(folder: &Spot, place: &Spot) -> bool
    ensures { result ≡ (is_site folder.now.site place.now.site && is_at_or_below folder.now.path place.now.path) }
{
    folder.site.is(place.site) && is_at_or_below(folder.path.names(), place.path.names())
}

/// Whether the names are those of a head, or lie below it.
fn is_at_or_below(head: &[Bytes], names: &[Bytes]) -> bool
    ensures { result ≡ is_at_or_below head.now names.now }
{
    names.starts_with(head)
}
