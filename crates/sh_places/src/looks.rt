//! What stands at a place.
ghost use Rattle.std.specs.Prelude.{◌≡◌, ◌≤◌, ◌++◌, ◌∷◌, [], All, IfOk, IfSome, Some};
ghost use Rattle.std.specs.Option.{option_copied, option_map};
ghost use Rattle.br_path.specs.Path.{IsPath};
ghost use Rattle.tree_worlds.specs.World.{world_data};
ghost use Rattle.tree_worlds.specs.HeldWorld.{IsHeldWorld};
ghost use Rattle.tree_ops.specs.Tree.{IsLinkText};
ghost use Rattle.br_path.specs.Files.{FileMap};
ghost use Rattle.sh_places.specs.declared.kind.Kind.TheVariants.{Link as link_kind};
ghost use Rattle.sh_places.specs.Looks as looks;

use crate::kind::Kind;
use crate::spot::{Site, Spot};
use br_path::{Files, Memory, Names, Path};
use std::alloc::Global;
use tree_ops::{Entry, TreeOps};
use tree_worlds::World;

/// The tree of a site; the input has none.
pub fn tree_of<T: TreeOps>(world: &World<T>, site: Site) -> Option<&T>
    ensures { option_map (λ tree. T.tree tree.now) result ≡ looks.tree_of (world_data T.tree world.now) site }
{
    match site {
        Site::Tree(area) => Some(world.tree(area)),
        Site::Readable(task) => world.shown_tree(task),
        Site::Input => None,
    }
}

/// What stands at a place, if something does. It takes no memory.
pub fn kind_at<T: TreeOps>(world: &World<T>, files: &Files, spot: &Spot) -> Option<Kind>
    requires held { IsHeldWorld T.tree T.sealed world.now }
    ensures kind { result ≡ looks.kind_at (world_data T.tree world.now) files.now spot.now }
    ensures modest { IfSome result looks.IsModest }
{
    match spot.site {
        Site::Input => input_kind(files, &spot.path),
        site => {
            let entry = tree_of(world, site)?.lookup(&spot.path)?;
            Some(kind_of(entry))
        }
    }
}

fn kind_of(entry: Entry) -> Kind
    ensures { result ≡ looks.kind_of entry }
{
    match entry {
        Entry::Dir(mode) => Kind::Dir(mode),
        Entry::Link => Kind::Link,
        Entry::File(label) => Kind::File(Some(label)),
    }
}

/// What of the input stands at a path. It takes no memory.
pub fn input_kind(files: &Files, path: &Path) -> Option<Kind>
    ensures { result ≡ looks.input_kind files.now path.now }
{
    if files.get(path).is_some() {
        Some(Kind::File(None))
    } else if files.is_dir(path) {
        Some(Kind::Dir(0o755))
    } else {
        None
    }
}

/// The mode of the file at a place; 0 if none is there. It takes no memory.
pub fn mode_at<T: TreeOps>(world: &World<T>, spot: &Spot) -> u16
    requires held { IsHeldWorld T.tree T.sealed world.now }
    ensures mode { result ≡ looks.mode_at (world_data T.tree world.now) spot.now }
    ensures modest { result ≤ 4095 }
{
    match spot.site {
        Site::Input => 0o644,
        site => mode_in(tree_of(world, site), &spot.path),
    }
}

fn mode_in<T: TreeOps>(tree: Option<&T>, path: &Path) -> u16
    ensures { result ≡ looks.mode_in path.now (option_map (λ tree. T.tree tree.now) tree.entry) }
{
    match tree {
        None => 0,
        Some(tree) => tree.mode(path).unwrap_or(0),
    }
}

/// The bytes of the file at a place; none if no file is there. It takes no memory.
pub fn bytes_at<'a, T: TreeOps>(world: &'a World<T>, files: &'a Files, spot: &Spot) -> &'a [u8]
    ensures { result.now ≡ looks.bytes_at (world_data T.tree world.now) files.now spot.now }
{
    match spot.site {
        Site::Input => files.get(&spot.path).unwrap_or(&[]),
        site => bytes_in(tree_of(world, site), &spot.path),
    }
}

fn bytes_in<'a, T: TreeOps>(tree: Option<&'a T>, path: &Path) -> &'a [u8]
    ensures { result.now ≡ looks.bytes_in path.now (option_map (λ tree. T.tree tree.now) tree.entry) }
{
    match tree {
        None => &[],
        Some(tree) => tree.bytes(path).unwrap_or(&[]),
    }
}

/// The text of the link at a place; none if no link is there. It takes no memory.
pub fn text_at<'a, T: TreeOps>(world: &'a World<T>, spot: &Spot) -> &'a [u8]
    requires held { IsHeldWorld T.tree T.sealed world.now }
    ensures text { result.now ≡ looks.text_at (world_data T.tree world.now) spot.now }
    ensures link { (files : FileMap) → looks.kind_at (world_data T.tree world.now) files spot.now ≡ Some link_kind → IsLinkText result.now }
{
    match tree_of(world, spot.site) {
        None => &[],
        Some(tree) => tree.text(&spot.path).unwrap_or(&[]),
    }
}

/// The names directly below a folder, in the order of their bytes.
pub fn names_at<T: TreeOps>(
    alloc: Global,
    world: &World<T>,
    files: &Files,
    spot: &Spot,
) -> Result<Names, Memory>
    ensures names { IfOk result (λ names. names ≡ looks.names_at (world_data T.tree world.now) files.now spot.now) }
    ensures paths { IfOk result (λ names. All (λ name. IsPath (spot.now.path ++ name ∷ [])) names) }
{
    match spot.site {
        Site::Input => input_names(alloc, files, &spot.path),
        site => names_in(alloc, tree_of(world, site), &spot.path),
    }
}

fn names_in<T: TreeOps>(alloc: Global, tree: Option<&T>, path: &Path) -> Result<Names, Memory>
    ensures names { IfOk result (λ names. names ≡ looks.names_in path.now (option_map (λ tree. T.tree tree.now) tree.entry)) }
    ensures paths { IfOk result (λ names. All (λ name. IsPath (path.now ++ name ∷ [])) names) }
{
    match tree {
        None => Ok(Names {
            items: Vec::new(alloc),
        }),
        Some(tree) => tree.children(alloc, path),
    }
}

fn input_names(alloc: Global, files: &Files, path: &Path) -> Result<Names, Memory>
    ensures names { IfOk result (λ names. names ≡ looks.input_names files.now path.now) }
    ensures paths { IfOk result (λ names. All (λ name. IsPath (path.now ++ name ∷ [])) names) }
{
    // `len` says of the files that each has a path.
    let _count = files.len();
    files.children(alloc, path)
}
