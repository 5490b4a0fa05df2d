//! The shelves of all tasks of a plan.
ghost use Rattle.std.specs.Prelude.{◌≡◌, ◌<◌, ℕ};
ghost use Rattle.task_shelves.specs.Shelf.{ShelfData, shelf_data};
ghost use Rattle.task_shelves.specs.Sealed.{IsSealedShelf};

use crate::shelf::Shelf;
use tree_ops::TreeOps;

/// A shelf for each task, by its number.
pub trait Shelves {
    /// How their trees are kept.
    type Tree: TreeOps;

    /// How many there are.
    ghost tasks: { Self → ℕ };

    /// What each of them says.
    ghost shelves: { Self → ℕ → ShelfData };

    /// How many tasks have a shelf here. It takes no memory.
    fn count(&self) -> u32
        ensures { result ≡ tasks self.now };

    /// The shelf of a task. It takes no memory.
    fn shelf(&self, task: u32) -> &Shelf<Self::Tree>
        requires { task < tasks self.now }
        ensures shelf { shelf_data Self.Tree.tree result.now ≡ shelves self.now task }
        ensures sealed { IsSealedShelf Self.Tree.tree Self.Tree.sealed result.now };
}
