//! Going through the names of a tree.
ghost use Rattle.std.specs.Prelude.{◌≡◌, ◌&&◌, ◌||◌, is_some, IsSome, OnOk};
ghost use Rattle.std.specs.BTreeSet.{contains};
ghost use Rattle.br_path.specs.Path.{Names, path_cmp};
ghost use Rattle.tree_ops.specs.Tree.{IsTree, node_at};
ghost use Rattle.tree_ops.specs.Change.{is_at_or_below};

use br_path::{Memory, Path};
use std::alloc::Global;
use std::collections::BTreeSet;
use tree_ops::TreeOps;

/// Puts the names of a tree that stand at a path or below it among others.
pub(crate) fn put_names<T: TreeOps>(
    alloc: Global,
    tree: &T,
    at: Path,
    paths: &mut BTreeSet<Path>,
) -> Result<(), Memory>
    requires sound { IsTree (T.tree tree.now) }
    requires there { IsSome (node_at (T.tree tree.now) at) }
    ensures { OnOk result ((path : Names) → contains path_cmp paths.new path ≡ (is_at_or_below at path && is_some (node_at (T.tree tree.now) path) || contains path_cmp paths.old path)) }
{
    for name in tree.children(alloc, &at)?.items.iter() {
        match at.child(alloc, name.as_slice()) {
            Ok(below) => put_names(alloc, tree, below, paths)?,
            Err(_) => return Err(Memory),
        }
    }
    paths.insert(at)?;
    Ok(())
}
