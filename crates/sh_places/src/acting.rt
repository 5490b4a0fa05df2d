//! Changes at a place.
ghost use Rattle.std.specs.Prelude.{◌≡◌};
ghost use Rattle.tree_worlds.specs.World.{world_data};
ghost use Rattle.tree_worlds.specs.Program.{run, Ran};
ghost use Rattle.tree_worlds.specs.HeldWorld.{IsHeldWorld};
ghost use Rattle.tree_worlds.specs.Steps.{change_of, IsModest};
ghost use Rattle.sh_places.specs.Parts as parts;

use crate::spot::Site;
use std::alloc::Global;
use tree_ops::{ChangeFault, TreeOps};
use tree_worlds::{CommandError, Step, World, error_of};

/// Changes one of the task's trees, where the task may. What is elsewhere can't be changed.
pub fn act_in<T: TreeOps>(
    alloc: Global,
    world: &mut World<T>,
    site: Site,
    step: Step<'_>,
) -> Result<(), CommandError>
    requires modest { IsModest step }
    requires held { IsHeldWorld T.tree T.sealed world.old }
    ensures ran { Ran (run (parts.act_in site (change_of step.entry)) (world_data T.tree world.old)) result (world_data T.tree world.new) }
    ensures held { IsHeldWorld T.tree T.sealed world.new }
{
    match site {
        Site::Tree(area) => world.act(alloc, area, step),
        _ => Err(error_of(ChangeFault::ReadOnly)),
    }
}
