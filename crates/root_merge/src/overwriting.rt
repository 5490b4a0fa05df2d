//! The paths that several packages wrote.
ghost use Rattle.std.specs.Prelude.{◌≡◌, ◌<◌, ◌++◌, All, IfOk, OnOk, length, map};
ghost use Rattle.std.specs.List.{list_all};
ghost use Rattle.task_shelves.specs.Packages.{left_by, packages_left};
ghost use Rattle.root_merge.specs.Overwrites.{is_overwritten, overwrites_in, overwrites_of};
ghost use Rattle.root_merge.specs.Found as found;

use crate::packages::{left_by, tree_of};
use crate::writers::Writers;
use br_path::{Area, Memory, Names, Numbers, Path};
use plan_rows::Plan;
use std::alloc::Global;
use task_shelves::{Overwrite, Overwrites, Shelves};
use tree_ops::{Entry, TreeOps};

/// Finds the paths that several packages wrote, with all of them by name.
///
/// A package counts where both of its tasks are built, and wrote what the shelf of its make lists. A path of the host, staging
/// or target area is overwritten if two packages or more wrote it there, unless all of them left a folder of one mode. The paths
/// come by area, then in the order of paths.
///
/// The time is `n log n` in the number of paths that all packages wrote, with at most one look-up in a tree for each. The memory
/// is proportional to the paths of one area.
pub fn overwrites<S: Shelves>(alloc: Global, plan: &Plan, shelves: &S) -> Result<Overwrites, Memory>
    requires count { S.tasks shelves.now ≡ length plan.now.rows }
    ensures { IfOk result (λ o. o ≡ overwrites_of plan.now (S.shelves shelves.now)) }
{
    let mut items = Vec::new(alloc);
    put_overwrites(alloc, &mut items, plan, shelves, Area::Host)?;
    put_overwrites(alloc, &mut items, plan, shelves, Area::Staging)?;
    put_overwrites(alloc, &mut items, plan, shelves, Area::Target)?;
    Ok(Overwrites { items })
}

/// Puts the overwritten paths of an area after others.
fn put_overwrites<S: Shelves>(
    alloc: Global,
    items: &mut Vec<Overwrite>,
    plan: &Plan,
    shelves: &S,
    area: Area,
) -> Result<(), Memory>
    requires count { S.tasks shelves.now ≡ length plan.now.rows }
    ensures { OnOk result (items.new.items ≡ items.old.items ++ overwrites_in area (packages_left plan.now (S.shelves shelves.now))) }
{
    let writers = writers_in(alloc, plan, shelves, area)?;
    for (path, makes) in writers.makes {
        put_overwrite(alloc, items, plan, shelves, area, path, &makes)?;
    }
    Ok(())
}

/// The makes that wrote each path of an area.
fn writers_in<S: Shelves>(
    alloc: Global,
    plan: &Plan,
    shelves: &S,
    area: Area,
) -> Result<Writers, Memory>
    requires count { S.tasks shelves.now ≡ length plan.now.rows }
    ensures { IfOk result (λ w. found.AreWriters area (packages_left plan.now (S.shelves shelves.now)) w) }
{
    let mut writers = Writers::new(alloc);
    for make in 0..plan.count() {
        if let Some(left) = left_by(plan, shelves, make) {
            writers.add_all(alloc, area, left.written, left.task)?;
        }
    }
    Ok(writers)
}

/// Puts a path after others if it is overwritten.
fn put_overwrite<S: Shelves>(
    alloc: Global,
    items: &mut Vec<Overwrite>,
    plan: &Plan,
    shelves: &S,
    area: Area,
    path: Path,
    makes: &Numbers,
) -> Result<(), Memory>
    requires count { S.tasks shelves.now ≡ length plan.now.rows }
    requires makes { makes.now ≡ found.makes_at area (packages_left plan.now (S.shelves shelves.now)) path }
    ensures { OnOk result (items.new.items ≡ items.old.items ++ found.overwrite_if area (packages_left plan.now (S.shelves shelves.now)) path) }
{
    if is_overwritten(plan, shelves, area, &path, makes.items.as_slice()) {
        let packages = names_of(alloc, plan, makes.items.as_slice())?;
        items.push(Overwrite {
            area,
            path,
            packages,
        })?;
    }
    Ok(())
}

/// Whether a path that these makes wrote is overwritten.
fn is_overwritten<S: Shelves>(
    plan: &Plan,
    shelves: &S,
    area: Area,
    path: &Path,
    makes: &[u32],
) -> bool
    requires count { S.tasks shelves.now ≡ length plan.now.rows }
    requires makes { makes.now ≡ found.makes_at area (packages_left plan.now (S.shelves shelves.now)) path.now }
    ensures { result ≡ is_overwritten area (packages_left plan.now (S.shelves shelves.now)) path.now }
{
    makes.len() >= 2 && !are_one_folder(plan, shelves, area, path, makes)
}

/// Whether all of these makes left a folder of one mode at a path.
fn are_one_folder<S: Shelves>(
    plan: &Plan,
    shelves: &S,
    area: Area,
    path: &Path,
    makes: &[u32],
) -> bool
    requires count { S.tasks shelves.now ≡ length plan.now.rows }
    requires makes { All (λ make. make < length plan.now.rows) makes.now }
    ensures { result ≡ found.are_one_mode (map (found.folder_left area path.now (left_by plan.now (S.shelves shelves.now))) makes.now) }
{
    match makes.split_first() {
        None => true,
        Some((first, others)) => match folder_left(plan, shelves, area, path, *first) {
            None => false,
            Some(mode) => are_of_mode(plan, shelves, area, path, mode, others),
        },
    }
}

/// Whether all of these makes left a folder of this mode at a path.
fn are_of_mode<S: Shelves>(
    plan: &Plan,
    shelves: &S,
    area: Area,
    path: &Path,
    mode: u16,
    makes: &[u32],
) -> bool
    requires count { S.tasks shelves.now ≡ length plan.now.rows }
    requires makes { All (λ make. make < length plan.now.rows) makes.now }
    ensures { result ≡ list_all (found.is_mode mode) (map (found.folder_left area path.now (left_by plan.now (S.shelves shelves.now))) makes.now) }
{
    for make in makes {
        if folder_left(plan, shelves, area, path, *make) != Some(mode) {
            return false;
        }
    }
    true
}

/// The mode of the folder that the package of a make left at a path, if it left one there.
fn folder_left<S: Shelves>(
    plan: &Plan,
    shelves: &S,
    area: Area,
    path: &Path,
    make: u32,
) -> Option<u16>
    requires count { S.tasks shelves.now ≡ length plan.now.rows }
    requires make { make < length plan.now.rows }
    ensures { result ≡ found.folder_left area path.now (left_by plan.now (S.shelves shelves.now)) make }
{
    match left_by(plan, shelves, make) {
        None => None,
        Some(left) => folder_mode(tree_of(left.trees, area).lookup(path)),
    }
}

/// The mode of a folder.
fn folder_mode(entry: Option<Entry>) -> Option<u16>
    ensures { result ≡ found.folder_mode entry }
{
    match entry {
        Some(Entry::Dir(mode)) => Some(mode),
        _ => None,
    }
}

/// The names of the packages of these makes.
fn names_of(alloc: Global, plan: &Plan, makes: &[u32]) -> Result<Names, Memory>
    requires { All (λ make. make < length plan.now.rows) makes.now }
    ensures { IfOk result (λ names. names ≡ map (found.owner_of plan.now) makes.now) }
{
    let mut items = Vec::new(alloc);
    for make in makes {
        items.push(plan.row(*make).package.copy()?)?;
    }
    Ok(Names { items })
}
