//! The folders of recipes, and the files in them.
ghost use Rattle.std.specs.Prelude.{◌≡◌, ◌++◌, ◌∷◌, [], List, ℕ, All, map, IfOk, OnOk, IfSome, codes, nat_eq};
ghost use Rattle.std.specs.List.{ends_with};
ghost use Rattle.std.specs.FinMap as fin;
ghost use Rattle.br_path.specs.Path.{Names, IsPath};
ghost use Rattle.br_path.specs.Files.{IsInput};
ghost use Rattle.recipe_set.specs.Reading.{AreRecipes, IsPatch, IsFirstPatch, recipe_path};
ghost use Rattle.recipe_set.specs.Found.{told, IsFound, IsPatchOf, IsFirstPatchOf};

use crate::texts::joined;
use br_path::{Bytes, Files, Memory, Path, PathFault};
use std::alloc::Global;

/// The folder of a recipe, by the name of its package and by its path.
#[derive(Drop)]
pub(crate) struct Folder {
    pub(crate) name: Bytes,
    pub(crate) path: Path,
}

/// A recipe of the files: its folder, its path and its bytes.
#[derive(Drop)]
pub(crate) struct RecipeFile<'a> {
    pub(crate) folder: Folder,
    pub(crate) path: Path,
    pub(crate) text: &'a [u8],
}

/// The recipes of the files, in the order of their paths.
pub(crate) fn recipe_files(alloc: Global, files: &Files) -> Result<Vec<RecipeFile<'_>>, Memory>
    ensures input { OnOk result (IsInput files.now) }
    ensures recipes { IfOk result (λ recipes. AreRecipes files.now (map told recipes.items)) }
    ensures found { IfOk result (λ recipes. All IsFound recipes.items) }
{
    if files.len() == 0 {
        return Ok(Vec::new(alloc));
    }
    match path_below(alloc, &Path::root(alloc), b"package")? {
        None => Ok(Vec::new(alloc)),
        Some(all) => recipes_in(alloc, files, &all),
    }
}

/// The recipes of the folders in a folder.
fn recipes_in<'a>(
    alloc: Global,
    files: &'a Files,
    all: &Path,
) -> Result<Vec<RecipeFile<'a>>, Memory>
    requires input { IsInput files.now }
    requires all { all.now ≡ codes "package" ∷ [] }
    ensures recipes { IfOk result (λ recipes. AreRecipes files.now (map told recipes.items)) }
    ensures found { IfOk result (λ recipes. All IsFound recipes.items) }
{
    let names = files.children(alloc, all)?;
    let mut recipes = Vec::new(alloc);
    for name in &names.items {
        if let Some(recipe) = recipe_in(alloc, files, all, name)? {
            recipes.push(recipe)?;
        }
    }
    Ok(recipes)
}

/// The recipe of a folder in a folder, if it has one.
fn recipe_in<'a>(
    alloc: Global,
    files: &'a Files,
    all: &Path,
    name: &Bytes,
) -> Result<Option<RecipeFile<'a>>, Memory>
    requires input { IsInput files.now }
    requires all { all.now ≡ codes "package" ∷ [] }
    ensures none { IfOk result (λ found. found ≡ None → fin.get files.now (recipe_path name.now) ≡ None) }
    ensures some { IfOk result (λ found. IfSome found (λ recipe. IsFound recipe × (recipe.folder.name ≡ name.now) × (fin.get files.now (recipe_path name.now) ≡ Some recipe.text.now))) }
{
    let Some(path) = path_below(alloc, all, name.as_slice())? else {
        return Ok(None);
    };
    let file = joined(alloc, b"", name, b".mk")?;
    match file_below(alloc, files, &path, file.as_slice())? {
        None => Ok(None),
        Some((at, text)) => Ok(Some(RecipeFile {
            folder: Folder {
                name: name.copy()?,
                path,
            },
            path: at,
            text,
        })),
    }
}

/// The least patch directly in the folder of a recipe.
pub(crate) fn first_patch(
    alloc: Global,
    files: &Files,
    recipes: &[RecipeFile<'_>],
) -> Result<Option<Path>, Memory>
    requires input { IsInput files.now }
    requires recipes { AreRecipes files.now (map told recipes.now) }
    requires found { All IsFound recipes.now }
    ensures none { IfOk result (λ found. found ≡ None → (at : Names) → IsPatch files.now at → ⊥) }
    ensures some { IfOk result (λ found. IfSome found (IsFirstPatch files.now)) }
{
    for recipe in recipes {
        if let Some(patch) = patch_in(alloc, files, &recipe.folder.path)? {
            return Ok(Some(patch));
        }
    }
    Ok(None)
}

/// The least patch directly in a folder.
fn patch_in(alloc: Global, files: &Files, folder: &Path) -> Result<Option<Path>, Memory>
    requires input { IsInput files.now }
    ensures none { IfOk result (λ found. found ≡ None → (name : List ℕ) → IsPatchOf files.now folder.now name → ⊥) }
    ensures some { IfOk result (λ found. IfSome found (IsFirstPatchOf files.now folder.now)) }
{
    let names = files.children(alloc, folder)?;
    for name in &names.items {
        if let Some(patch) = patch_at(alloc, files, folder, name.as_slice())? {
            return Ok(Some(patch));
        }
    }
    Ok(None)
}

/// The patch of a name directly in a folder, if it is one.
fn patch_at(
    alloc: Global,
    files: &Files,
    folder: &Path,
    name: &[u8],
) -> Result<Option<Path>, Memory>
    requires { IsInput files.now }
    ensures none { IfOk result (λ found. found ≡ None → IsPatchOf files.now folder.now name.now → ⊥) }
    ensures some { IfOk result (λ found. IfSome found (λ at. (at ≡ folder.now ++ name.now ∷ []) × IsPatchOf files.now folder.now name.now)) }
{
    if !is_patch_name(name) {
        return Ok(None);
    }
    match file_below(alloc, files, folder, name)? {
        None => Ok(None),
        Some((path, _)) => Ok(Some(path)),
    }
}

fn is_patch_name(name: &[u8]) -> bool
    ensures { result ≡ ends_with nat_eq name.now (codes ".patch") }
{
    name.ends_with(b".patch")
}

/// The file of a name directly in a folder, if there is one, with its path.
fn file_below<'a>(
    alloc: Global,
    files: &'a Files,
    folder: &Path,
    name: &[u8],
) -> Result<Option<(Path, &'a [u8])>, Memory>
    requires { IsInput files.now }
    ensures none { IfOk result (λ found. found ≡ None → fin.get files.now (folder.now ++ name.now ∷ []) ≡ None) }
    ensures some { IfOk result (λ found. IfSome found (λ file. (file.0 ≡ folder.now ++ name.now ∷ []) × (fin.get files.now (folder.now ++ name.now ∷ []) ≡ Some file.1.now))) }
{
    let Some(path) = path_below(alloc, folder, name)? else {
        return Ok(None);
    };
    match files.get(&path) {
        None => Ok(None),
        Some(bytes) => Ok(Some((path, bytes))),
    }
}

/// The path of a name directly below another, if that is a path.
fn path_below(alloc: Global, path: &Path, name: &[u8]) -> Result<Option<Path>, Memory>
    ensures none { IfOk result (λ below. below ≡ None → IsPath (path.now ++ name.now ∷ []) → ⊥) }
    ensures some { IfOk result (λ below. IfSome below (λ p. p ≡ path.now ++ name.now ∷ [])) }
{
    match path.child(alloc, name) {
        Ok(below) => Ok(Some(below)),
        Err(fault) => match fault {
            PathFault::Memory => Err(Memory),
            _ => Ok(None),
        },
    }
}
