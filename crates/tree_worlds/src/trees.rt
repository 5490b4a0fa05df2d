//! The trees that a task can look at.
ghost use Rattle.std.specs.Prelude.{◌≡◌, IfSome};
ghost use Rattle.std.specs.Option.{option_map, option_copied};
ghost use Rattle.tree_ops.specs.Held.{IsSealed};
ghost use Rattle.tree_ops.specs.Tree.{IsTree};
ghost use Rattle.tree_worlds.specs.HeldWorld.{IsHeldWorld};
ghost use Rattle.tree_worlds.specs.Naming.{tree_of};
ghost use Rattle.tree_worlds.specs.World.{world_data, tree_in, shown_tree};

use crate::world::{Shown, World};
use br_path::Area;
use tree_ops::TreeOps;

impl<T: TreeOps> World<T> {
    /// The tree of an area.
    pub fn tree(&self, area: Area) -> &T
        ensures tree { T.tree result.now ≡ tree_in (world_data T.tree self.now).trees area }
        ensures sound { IsHeldWorld T.tree T.sealed self.now → IsTree (T.tree result.now) }
    {
        match area {
            Area::Build => &self.trees.build,
            Area::Host => &self.trees.host,
            Area::Staging => &self.trees.staging,
            Area::Target => &self.trees.target,
        }
    }

    /// The readable build tree of a task.
    pub fn shown_tree(&self, task: u32) -> Option<&T>
        ensures tree { option_map T.tree (option_copied result) ≡ shown_tree (world_data T.tree self.now).shown task }
        ensures readable { IsHeldWorld T.tree T.sealed self.now → IfSome result (λ t. IsTree (T.tree t.now) × IsSealed (T.tree t.now) (T.sealed t.now)) }
    {
        self.shown.tree_of(task)
    }
}

impl<T: TreeOps> Shown<T> {
    fn tree_of(&self, task: u32) -> Option<&T>
        ensures { option_copied result ≡ tree_of self.now task }
    {
        for shown in self.items.as_slice() {
            if shown.task == task {
                return Some(&shown.tree);
            }
        }
        None
    }
}
