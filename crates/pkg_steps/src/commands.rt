//! What runs the lines of a task.
ghost use Rattle.tree_worlds.specs.HeldWorld.{IsHeldWorld};
ghost use Rattle.tree_worlds.specs.Program.{Ran};
ghost use Rattle.tree_worlds.specs.World.{world_data};
ghost use Rattle.pkg_steps.specs.Lines.{Shell};

use std::alloc::Global;
use tree_ops::TreeOps;
use tree_worlds::{CommandError, World};

/// What runs lines, and copies the source of a package.
///
/// After a failure the world is as the changes before it left it; if it is out of memory, the world is only let go.
pub trait Commands<T: TreeOps> {
    /// What a line does, and the copy of the source.
    ghost shell: { Self → Shell };

    /// Runs a line.
    fn line(&self, alloc: Global, world: &mut World<T>, text: &[u8]) -> Result<(), CommandError>
        requires held { IsHeldWorld T.tree T.sealed world.old }
        ensures ran { Ran ((shell self.now).line text.now (world_data T.tree world.old)) result (world_data T.tree world.new) }
        ensures held { IsHeldWorld T.tree T.sealed world.new };

    /// Copies the source of the package into its build tree.
    fn copy_source(&self, alloc: Global, world: &mut World<T>) -> Result<(), CommandError>
        requires held { IsHeldWorld T.tree T.sealed world.old }
        ensures ran { Ran ((shell self.now).copy (world_data T.tree world.old)) result (world_data T.tree world.new) }
        ensures held { IsHeldWorld T.tree T.sealed world.new };
}
