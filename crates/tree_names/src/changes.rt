//! What was changed between two trees.
ghost use Rattle.std.specs.Prelude.{◌≡◌, IfOk};
ghost use Rattle.tree_ops.specs.Tree.{IsTree};
ghost use Rattle.tree_names.specs.Changes as changes;

use crate::nodes::is_same_node;
use crate::walk::put_names;
use br_path::{Memory, Path};
use std::alloc::Global;
use std::collections::BTreeSet;
use tree_ops::TreeOps;

/// The paths at which a tree has something else than an earlier one, in their order. That nothing stands there counts, as does
/// a folder's mode, a link's text and a file's label; a file's contents and mode don't.
///
/// The time is `n log n` in the names of both trees, and of their look-ups.
pub fn changed_names<T: TreeOps>(alloc: Global, before: &T, after: &T) -> Result<Vec<Path>, Memory>
    requires before { IsTree (T.tree before.now) }
    requires after { IsTree (T.tree after.now) }
    ensures { IfOk result (λ paths. paths.items ≡ changes.changed_names (T.tree before.now) (T.tree after.now)) }
{
    let mut paths = BTreeSet::new(alloc);
    put_names(alloc, before, Path::root(alloc), &mut paths)?;
    put_names(alloc, after, Path::root(alloc), &mut paths)?;
    let mut changed = Vec::new(alloc);
    for at in paths {
        if !is_same_node(before, after, &at) {
            changed.push(at)?;
        }
    }
    Ok(changed)
}
