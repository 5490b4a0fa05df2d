//! The shelf of a task that ran to its end.
ghost use Rattle.std.specs.Prelude.{◌≡◌, ◌++◌, ◌∷◌, [], IfOk, OnOk, map};
ghost use Rattle.tree_names.specs.Changes.{changed_names};
ghost use Rattle.tree_ops.specs.Held.{IsSealed};
ghost use Rattle.tree_ops.specs.Tree.{IsTree, empty_tree};
ghost use Rattle.tree_worlds.specs.World.{trees_data, empty_trees};
ghost use Rattle.task_shelves.specs.declared.shelf.Stamp.TheVariants.{Installed};
ghost use Rattle.task_shelves.specs.Shelf.{shelf_data, Built};
ghost use Rattle.task_shelves.specs.Sealed.{AreSealed, IsSealedTree, IsSealedShelf};
ghost use Rattle.pkg_steps.specs.Runs.{IsUntouched};
ghost use Rattle.pkg_steps.specs.Shelving.{AreTrees, IsBegan, written_since};

use br_path::{Area, Memory, Path};
use std::alloc::Global;
use task_shelves::{Shelf, Stamp, Stamps, Written};
use tree_names::changed_names;
use tree_ops::TreeOps;
use tree_worlds::{Trees, World};

/// The trees with which a make began, for what it wrote.
pub(crate) struct Began<T> {
    host: T,
    staging: T,
    target: T,
}

// A proof then has one call at each place that lets the trees go, and not one for each of them.
impl<T: Drop> Drop for Began<T> {
    fn drop(self) {
        let Began {
            host,
            staging,
            target,
        } = self;
        drop(host);
        drop(staging);
        drop(target);
    }
}

impl<T: TreeOps> Began<T> {
    /// Copies of the trees of a world in which no line has run.
    pub(crate) fn of(alloc: Global, world: &World<T>) -> Result<Began<T>, Memory>
        requires untouched { IsUntouched T.tree T.sealed world.now }
        ensures { IfOk result (IsBegan T.tree (trees_data T.tree world.now.trees)) }
    {
        Ok(Began {
            host: world.trees.host.copy(alloc)?,
            staging: world.trees.staging.copy(alloc)?,
            target: world.trees.target.copy(alloc)?,
        })
    }

    /// What was written since: the paths at which something else stands.
    fn written(&self, alloc: Global, trees: &Trees<T>) -> Result<Written, Memory>
        requires host { IsTree (T.tree self.now.host) }
        requires staging { IsTree (T.tree self.now.staging) }
        requires target { IsTree (T.tree self.now.target) }
        requires trees { AreTrees (trees_data T.tree trees.now) }
        ensures { IfOk result (λ w. w ≡ written_since T.tree self.now (trees_data T.tree trees.now)) }
    {
        let mut items = Vec::new(alloc);
        put_changed(alloc, &mut items, Area::Host, &self.host, &trees.host)?;
        put_changed(
            alloc,
            &mut items,
            Area::Staging,
            &self.staging,
            &trees.staging,
        )?;
        put_changed(alloc, &mut items, Area::Target, &self.target, &trees.target)?;
        Ok(Written { items })
    }
}

/// Puts the paths of an area at which two trees differ after others.
fn put_changed<T: TreeOps>(
    alloc: Global,
    items: &mut Vec<(Area, Path)>,
    area: Area,
    before: &T,
    after: &T,
) -> Result<(), Memory>
    requires before { IsTree (T.tree before.now) }
    requires after { IsTree (T.tree after.now) }
    ensures { OnOk result (items.new.items ≡ items.old.items ++ map (λ path. (area, path)) (changed_names (T.tree before.now) (T.tree after.now))) }
{
    for path in changed_names(alloc, before, after)? {
        items.push((area, path))?;
    }
    Ok(())
}

/// The shelf of a prep: its build tree, and nothing else.
pub(crate) fn prep_shelf<T: TreeOps>(
    alloc: Global,
    trees: Trees<T>,
    stamps: Stamps,
) -> Result<Shelf<T>, Memory>
    requires trees { AreTrees (trees_data T.tree trees) }
    ensures shelf { IfOk result (λ s. shelf_data T.tree s ≡ Built (record empty_trees { build = T.tree trees.build }) [] stamps) }
    ensures sealed { IfOk result (IsSealedShelf T.tree T.sealed) }
{
    let trees = sealed_build(alloc, trees)?;
    let written = Written {
        items: Vec::new(alloc),
    };
    Ok(Shelf::Built {
        trees,
        written,
        stamps,
    })
}

/// The shelf of a make: its host, staging and target trees, and what it wrote there.
pub(crate) fn make_shelf<T: TreeOps>(
    alloc: Global,
    began: Began<T>,
    trees: Trees<T>,
    stamps: Stamps,
) -> Result<Shelf<T>, Memory>
    requires host { IsTree (T.tree began.host) }
    requires staging { IsTree (T.tree began.staging) }
    requires target { IsTree (T.tree began.target) }
    requires trees { AreTrees (trees_data T.tree trees) }
    ensures shelf { IfOk result (λ s. shelf_data T.tree s
        ≡ Built (record (trees_data T.tree trees) { build = empty_tree }) (written_since T.tree began (trees_data T.tree trees)) (stamps ++ Installed ∷ [])) }
    ensures sealed { IfOk result (IsSealedShelf T.tree T.sealed) }
{
    let written = began.written(alloc, &trees)?;
    let mut stamps = stamps;
    stamps.items.push(Stamp::Installed)?;
    let trees = sealed_others(alloc, trees)?;
    Ok(Shelf::Built {
        trees,
        written,
        stamps,
    })
}

/// The build tree, sealed, beside empty trees.
fn sealed_build<T: TreeOps>(alloc: Global, trees: Trees<T>) -> Result<Trees<T>, Memory>
    requires trees { AreTrees (trees_data T.tree trees) }
    ensures trees { IfOk result (λ r. trees_data T.tree r ≡ record empty_trees { build = T.tree trees.build }) }
    ensures sealed { IfOk result (AreSealed T.tree T.sealed) }
{
    let Trees { build, .. } = trees;
    Ok(Trees {
        build: build.seal(alloc)?,
        host: empty_tree(alloc)?,
        staging: empty_tree(alloc)?,
        target: empty_tree(alloc)?,
    })
}

/// The host, staging and target trees, sealed, beside an empty build tree.
fn sealed_others<T: TreeOps>(alloc: Global, trees: Trees<T>) -> Result<Trees<T>, Memory>
    requires trees { AreTrees (trees_data T.tree trees) }
    ensures trees { IfOk result (λ r. trees_data T.tree r ≡ record (trees_data T.tree trees) { build = empty_tree }) }
    ensures sealed { IfOk result (AreSealed T.tree T.sealed) }
{
    let Trees {
        host,
        staging,
        target,
        ..
    } = trees;
    Ok(Trees {
        build: empty_tree(alloc)?,
        host: host.seal(alloc)?,
        staging: staging.seal(alloc)?,
        target: target.seal(alloc)?,
    })
}

/// A tree with its root alone, sealed.
fn empty_tree<T: TreeOps>(alloc: Global) -> Result<T, Memory>
    ensures tree { IfOk result (λ t. T.tree t ≡ empty_tree) }
    ensures sealed { IfOk result (IsSealedTree T.tree T.sealed) }
{
    T::empty(alloc)
}
