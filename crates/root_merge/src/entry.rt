//! The entries of a root, one after the other.
ghost use Rattle.std.specs.Prelude.{◌≡◌, ◌<◌, ◌^◌, ℕ, Option, Some, true, All, IfOk, OnOk, IsSome, is_some, length};
ghost use Rattle.std.specs.FinMap as fin;
ghost use Rattle.std.specs.Option.{option_map};
ghost use Rattle.br_path.specs.Path.{Names};
ghost use Rattle.tree_ops.specs.Tree.{node_at, entry_at, text_at, IsTree};
ghost use Rattle.root_image.specs.declared.root.RootEntry.TheVariants as said;
ghost use Rattle.task_shelves.specs.Packages.{left_by};
ghost use Rattle.root_merge.specs.Owners.{owners_in, IsOwned, standing_at, standing_by, standings};
ghost use Rattle.root_merge.specs.Firsts.{firsts_in, firsts_on, node_entry, named_file, with_first, contents_at, entries_on, IsSized};
ghost use Rattle.root_merge.specs.Roots.{whole_file};

use crate::packages::left_by;
use br_path::{Bytes, Memory, Path};
use plan_rows::Plan;
use root_image::RootEntry;
use std::alloc::Global;
use std::collections::BTreeMap;
use task_shelves::Shelves;
use tree_ops::{Entry, Label, TreeOps};

/// The entries of a root in the order of their paths: each as it stands in the target tree of its owner, a file whole at the
/// first of its paths, and by the name of that path at the others.
pub(crate) fn entries<S: Shelves>(
    alloc: Global,
    plan: &Plan,
    shelves: &S,
    owners: BTreeMap<Path, Option<u32>>,
) -> Result<Vec<(Path, RootEntry)>, Memory>
    requires count { S.tasks shelves.now ≡ length plan.now.rows }
    requires owned { (path : Names) (owner : Option ℕ) → fin.get (owners_in owners) path ≡ Some owner → IsOwned (left_by plan.now (S.shelves shelves.now)) (length plan.now.rows) path owner }
    ensures entries { IfOk result (λ entries. entries.items ≡ entries_on fin.empty (standings (left_by plan.now (S.shelves shelves.now)) (fin.entries (owners_in owners)))) }
    ensures sized { IfOk result (λ entries. All (λ entry. IsSized entry.1) entries.items) }
    ensures few { IfOk result (λ entries. length entries.items < 2 ^ 63) }
{
    let mut firsts = BTreeMap::new(alloc);
    let mut entries = Vec::new(alloc);
    for (path, owner) in owners {
        let entry = owned_entry(alloc, plan, shelves, &path, owner, &mut firsts)?;
        entries.push((path, entry))?;
    }
    Ok(entries)
}

/// The entry at a path, by its owner.
fn owned_entry<'s, S: Shelves>(
    alloc: Global,
    plan: &'s Plan,
    shelves: &'s S,
    path: &Path,
    owner: Option<u32>,
    firsts: &mut BTreeMap<Label, Path>,
) -> Result<RootEntry, Memory>
    requires count { S.tasks shelves.now ≡ length plan.now.rows }
    requires owned { IsOwned (left_by plan.now (S.shelves shelves.now)) (length plan.now.rows) path.now owner }
    ensures entry { IfOk result (λ entry. let standing = standing_by (left_by plan.now (S.shelves shelves.now)) path.now owner in entry ≡ node_entry (firsts_in firsts.old) standing.contents standing.node) }
    ensures firsts { OnOk result (firsts_in firsts.new ≡ firsts_on (firsts_in firsts.old) path.now (standing_by (left_by plan.now (S.shelves shelves.now)) path.now owner).node) }
    ensures sized { IfOk result IsSized }
{
    match owner {
        None => Ok(RootEntry::Dir(0o755)),
        Some(task) => {
            let left = left_by(plan, shelves, task).unwrap();
            entry(alloc, &left.trees.target, path, firsts)
        }
    }
}

/// The entry of a tree at a path where something stands.
fn entry<T: TreeOps>(
    alloc: Global,
    tree: &T,
    path: &Path,
    firsts: &mut BTreeMap<Label, Path>,
) -> Result<RootEntry, Memory>
    requires sound { IsTree (T.tree tree.now) }
    requires there { IsSome (node_at (T.tree tree.now) path.now) }
    ensures entry { IfOk result (λ entry. let standing = standing_at (T.tree tree.now) (node_at (T.tree tree.now) path.now) in entry ≡ node_entry (firsts_in firsts.old) standing.contents standing.node) }
    ensures firsts { OnOk result (firsts_in firsts.new ≡ firsts_on (firsts_in firsts.old) path.now (standing_at (T.tree tree.now) (node_at (T.tree tree.now) path.now)).node) }
    ensures sized { IfOk result IsSized }
{
    match tree.lookup(path).unwrap() {
        Entry::Dir(mode) => Ok(RootEntry::Dir(mode)),
        Entry::Link => link_entry(alloc, tree, path),
        Entry::File(label) => file_entry(alloc, tree, path, label, firsts),
    }
}

/// The entry of a link.
fn link_entry<T: TreeOps>(alloc: Global, tree: &T, path: &Path) -> Result<RootEntry, Memory>
    requires { entry_at (T.tree tree.now) path.now ≡ Some Entry.Link }
    ensures entry { IfOk result (λ entry. option_map said.Link (text_at (T.tree tree.now) path.now) ≡ Some entry) }
    ensures sized { IfOk result IsSized }
{
    let text = tree.text(path).unwrap();
    Ok(RootEntry::Link(Bytes::from_slice(alloc, text)?))
}

/// The entry of a file: whole, unless a path before this one has it.
fn file_entry<T: TreeOps>(
    alloc: Global,
    tree: &T,
    path: &Path,
    label: Label,
    firsts: &mut BTreeMap<Label, Path>,
) -> Result<RootEntry, Memory>
    requires sound { IsTree (T.tree tree.now) }
    requires file { entry_at (T.tree tree.now) path.now ≡ Some (Entry.File label) }
    ensures entry { IfOk result (λ entry. entry ≡ named_file (fin.get (firsts_in firsts.old) label) (fin.get (T.tree tree.now).labels label)) }
    ensures firsts { OnOk result (firsts_in firsts.new ≡ with_first (fin.get (firsts_in firsts.old) label) label path.now (firsts_in firsts.old)) }
    ensures sized { IfOk result IsSized }
{
    if let Some(first) = firsts.get(&label) {
        return Ok(RootEntry::Same(first.copy()?));
    }
    firsts.insert(label, path.copy()?)?;
    whole_file(alloc, tree, path)
}

/// The whole file at a path.
fn whole_file<T: TreeOps>(alloc: Global, tree: &T, path: &Path) -> Result<RootEntry, Memory>
    requires { is_some (contents_at (T.tree tree.now) path.now) ≡ true }
    ensures entry { IfOk result (λ entry. entry ≡ whole_file (contents_at (T.tree tree.now) path.now)) }
    ensures sized { IfOk result IsSized }
{
    let mode = tree.mode(path).unwrap();
    let bytes = tree.bytes(path).unwrap();
    first_entry(alloc, mode, bytes)
}

fn first_entry(alloc: Global, mode: u16, bytes: &[u8]) -> Result<RootEntry, Memory>
    ensures entry { IfOk result (λ entry. entry ≡ RootEntry.First mode bytes.now) }
    ensures sized { IfOk result IsSized }
{
    let bytes = Bytes::from_slice(alloc, bytes)?;
    Ok(RootEntry::First { mode, bytes })
}
