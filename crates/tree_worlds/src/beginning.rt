//! Worlds as they begin, before a task's own lines.
ghost use Rattle.std.specs.Prelude.{◌≡◌, IfOk, OnOk, OnErr};
ghost use Rattle.tree_ops.specs.Tree.{IsTree};
ghost use Rattle.tree_ops.specs.Held.{IsSealed};
ghost use Rattle.tree_ops.specs.Pen.{new_pen};
ghost use Rattle.tree_worlds.specs.World.{world_data, trees_data, empty_trees, new_world, readable, shown_too};
ghost use Rattle.tree_worlds.specs.HeldWorld.{IsHeldWorld};

use crate::world::{Shown, ShownTree, Trees, World};
use br_path::{Bytes, Memory, Path};
use std::alloc::Global;
use tree_ops::{Pen, TreeOps};

impl<T: TreeOps> World<T> {
    /// The world of a task that has done nothing yet: four empty trees, counts of 0, and nothing to read.
    pub fn new(
        alloc: Global,
        task: u32,
        owner: Bytes,
        folder: Path,
        host: bool,
        prep: bool,
    ) -> Result<World<T>, Memory>
        ensures new { IfOk result (λ world. world_data T.tree world ≡ new_world task owner folder host prep) }
        ensures pen { IfOk result (λ world. world.pen ≡ new_pen task) }
        ensures held { IfOk result (IsHeldWorld T.tree T.sealed) }
    {
        let trees = empty_trees(alloc)?;
        Ok(World {
            trees,
            pen: Pen::new(task),
            package: owner,
            folder,
            host,
            prep,
            shown: Shown {
                items: Vec::new(alloc),
            },
        })
    }

    /// Makes a sealed tree the readable build tree of a package. If it is out of memory, the world is as before.
    pub fn show(&mut self, task: u32, owner: Bytes, tree: T) -> Result<(), Memory>
        requires sound { IsTree (T.tree tree) }
        requires sealed { IsSealed (T.tree tree) (T.sealed tree) }
        requires held { IsHeldWorld T.tree T.sealed self.old }
        ensures ok { OnOk result (world_data T.tree self.new ≡ shown_too (world_data T.tree self.old) (readable task owner (T.tree tree))) }
        ensures err { OnErr result (world_data T.tree self.new ≡ world_data T.tree self.old) }
        ensures pen { self.new.pen ≡ self.old.pen }
        ensures held { IsHeldWorld T.tree T.sealed self.new }
    {
        let shown = ShownTree {
            task,
            package: owner,
            tree,
        };
        Ok(self.shown.items.push(shown)?)
    }
}

fn empty_trees<T: TreeOps>(alloc: Global) -> Result<Trees<T>, Memory>
    ensures { IfOk result (λ trees. trees_data T.tree trees ≡ empty_trees) }
{
    Ok(Trees {
        build: T::empty(alloc)?,
        host: T::empty(alloc)?,
        staging: T::empty(alloc)?,
        target: T::empty(alloc)?,
    })
}
