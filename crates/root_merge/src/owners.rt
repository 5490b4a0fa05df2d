//! Whose entry stands at each path of a root.
ghost use Rattle.std.specs.Prelude.{◌≡◌, ◌<◌, Some, IfOk, OnOk, length};
ghost use Rattle.tree_ops.specs.Tree.{IsTree};
ghost use Rattle.task_shelves.specs.Packages.{Left, left_by};
ghost use Rattle.root_merge.specs.Owners.{owners_in, is_left, with_owner, with_written, with_left, all_owners, AreTrees};

use crate::packages::left_by;
use br_path::{Area, Memory, Path};
use plan_rows::Plan;
use std::alloc::Global;
use std::collections::BTreeMap;
use task_shelves::Shelves;
use tree_ops::TreeOps;

/// The paths that packages wrote and left in their target trees, each with the make of the first of them; and the root, with
/// no make where none of them wrote it.
pub(crate) fn owners<S: Shelves>(
    alloc: Global,
    plan: &Plan,
    shelves: &S,
) -> Result<BTreeMap<Path, Option<u32>>, Memory>
    requires { S.tasks shelves.now ≡ length plan.now.rows }
    ensures owners { IfOk result (λ owners. owners_in owners ≡ all_owners (left_by plan.now (S.shelves shelves.now)) (length plan.now.rows)) }
    ensures trees { OnOk result (AreTrees (left_by plan.now (S.shelves shelves.now)) (length plan.now.rows)) }
{
    let mut owners = BTreeMap::new(alloc);
    for task in 0..plan.count() {
        add_package(plan, shelves, task, &mut owners)?;
    }
    add(&mut owners, &Path::root(alloc), None)?;
    Ok(owners)
}

/// Adds the paths of the package whose make this task is, if there is one.
fn add_package<'s, S: Shelves>(
    plan: &'s Plan,
    shelves: &'s S,
    task: u32,
    owners: &mut BTreeMap<Path, Option<u32>>,
) -> Result<(), Memory>
    requires count { S.tasks shelves.now ≡ length plan.now.rows }
    requires task { task < length plan.now.rows }
    ensures owners { OnOk result (owners_in owners.new ≡ with_left task (left_by plan.now (S.shelves shelves.now) task) (owners_in owners.old)) }
    ensures tree { OnOk result ((left : Left) → left_by plan.now (S.shelves shelves.now) task ≡ Some left → IsTree left.trees.target) }
{
    match left_by(plan, shelves, task) {
        None => Ok(()),
        Some(left) => {
            let written = left.written;
            add_written(&left.trees.target, written.items.as_slice(), task, owners)
        }
    }
}

/// Adds the paths that a package wrote and left in its target tree.
fn add_written<T: TreeOps>(
    tree: &T,
    written: &[(Area, Path)],
    task: u32,
    owners: &mut BTreeMap<Path, Option<u32>>,
) -> Result<(), Memory>
    ensures { OnOk result (owners_in owners.new ≡ with_written (T.tree tree.now) task written.now (owners_in owners.old)) }
{
    for (area, path) in written {
        if is_left(tree, *area, path) {
            add(owners, path, Some(task))?;
        }
    }
    Ok(())
}

/// Whether a path is one of the target area, and something stands there.
fn is_left<T: TreeOps>(tree: &T, area: Area, path: &Path) -> bool
    ensures { result ≡ is_left (T.tree tree.now) area path.now }
{
    match area {
        Area::Target => tree.lookup(path).is_some(),
        _ => false,
    }
}

/// Gives a path to an owner, if it has none.
fn add(
    owners: &mut BTreeMap<Path, Option<u32>>,
    path: &Path,
    owner: Option<u32>,
) -> Result<(), Memory>
    ensures { OnOk result (owners_in owners.new ≡ with_owner path.now owner (owners_in owners.old)) }
{
    if owners.contains_key(path) {
        return Ok(());
    }
    owners.insert(path.copy()?, owner)?;
    Ok(())
}
