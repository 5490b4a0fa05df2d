//! What a built package left.
ghost use Rattle.std.specs.Prelude.{◌≡◌, ◌<◌, length, IfSome};
ghost use Rattle.std.specs.Option.{option_map};
ghost use Rattle.tree_worlds.specs.World.{tree_in, trees_data};
ghost use Rattle.task_shelves.specs.Packages.{left_by, left_on};
ghost use Rattle.task_shelves.specs.Sealed.{AreSealed, IsSealedShelf};
ghost use Rattle.task_shelves.specs.Shelf.{shelf_data};
ghost use Rattle.root_merge.specs.Found.{left_data};

use br_path::{Area, Bytes};
use plan_rows::Plan;
use task_shelves::{Shelf, Shelves, Written};
use tree_ops::TreeOps;
use tree_worlds::Trees;

/// A built package: the number of its make, its name, the trees that its make left, and the paths that it wrote.
#[derive(Drop)]
pub(crate) struct Left<'s, T> {
    pub(crate) task: u32,
    pub(crate) name: &'s Bytes,
    pub(crate) trees: &'s Trees<T>,
    pub(crate) written: &'s Written,
}

/// The package whose make this task is, if both of its tasks are built. It takes no memory.
pub(crate) fn left_by<'s, S: Shelves>(
    plan: &'s Plan,
    shelves: &'s S,
    task: u32,
) -> Option<Left<'s, S::Tree>>
    requires count { S.tasks shelves.now ≡ length plan.now.rows }
    requires task { task < length plan.now.rows }
    ensures left { option_map (left_data S.Tree.tree) result ≡ left_by plan.now (S.shelves shelves.now) task }
    ensures sealed { IfSome result (λ left. AreSealed S.Tree.tree S.Tree.sealed left.trees.now) }
{
    let row = plan.row(task);
    match row.own_prep {
        None => None,
        Some(prep) => left_on(task, &row.package, shelves.shelf(prep), shelves.shelf(task)),
    }
}

/// The package with these shelves of its prep and its make, if both are built.
fn left_on<'s, T: TreeOps>(
    task: u32,
    name: &'s Bytes,
    prep: &Shelf<T>,
    make: &'s Shelf<T>,
) -> Option<Left<'s, T>>
    requires sealed { IsSealedShelf T.tree T.sealed make.now }
    ensures left { option_map (left_data T.tree) result ≡ left_on task name.now (shelf_data T.tree prep.now) (shelf_data T.tree make.now) }
    ensures sealed { IfSome result (λ left. AreSealed T.tree T.sealed left.trees.now) }
{
    match (prep, make) {
        (Shelf::Built { .. }, Shelf::Built { trees, written, .. }) => Some(Left {
            task,
            name,
            trees,
            written,
        }),
        _ => None,
    }
}

/// The tree of an area.
pub(crate) fn tree_of<T: TreeOps>(trees: &Trees<T>, area: Area) -> &T
    ensures { T.tree result.now ≡ tree_in (trees_data T.tree trees.now) area }
{
    match area {
        Area::Build => &trees.build,
        Area::Host => &trees.host,
        Area::Staging => &trees.staging,
        Area::Target => &trees.target,
    }
}
