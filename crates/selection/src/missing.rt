//! Folders whose packages are asked for while no recipe makes them.
ghost use Rattle.std.specs.Prelude.{List, ℕ, ◌≡◌, ◌++◌, ◌∷◌, [], ◌↔◌, IsTrue, IfOk, MatchOption, map, codes};
ghost use Rattle.std.specs.List.{Contains};
ghost use Rattle.br_path.specs.Files.{IsChild, IsFile};
ghost use Rattle.selection.specs.Names.{AreRising};
ghost use Rattle.selection.specs.Selecting.{LacksRecipe, IsLeast};

use crate::names::is_asked;
use crate::places::is_target;
use br_path::{Bytes, Files, Memory, Path};
use kc_values::Values;
use recipe_set::Made;
use std::alloc::Global;

/// The least folder of `package` with a Config.in, whose symbol is y while no recipe makes its target package.
pub(crate) fn least_without_recipe(
    alloc: Global,
    files: &Files,
    values: &Values,
    packages: &[Made],
) -> Result<Option<Bytes>, Memory>
    requires { AreRising (map (λ made. made.name) packages.now) }
    ensures { IfOk result (λ found. MatchOption found ((name : List ℕ) → LacksRecipe files.now values.now packages.now name → ⊥) (IsLeast (LacksRecipe files.now values.now packages.now))) }
{
    let folder = path_below(alloc, &Path::root(alloc), b"package")?;
    let names = files.children(alloc, &folder)?;
    first_without_recipe(
        alloc,
        files,
        values,
        packages,
        &folder,
        names.items.as_slice(),
    )
}

/// The first of names that rise which is such a folder of `package`.
fn first_without_recipe(
    alloc: Global,
    files: &Files,
    values: &Values,
    packages: &[Made],
    folder: &Path,
    names: &[Bytes],
) -> Result<Option<Bytes>, Memory>
    requires folder { folder.now ≡ codes "package" ∷ [] }
    requires rising { AreRising (map (λ made. made.name) packages.now) }
    requires order { AreRising names.now }
    requires all { (name : List ℕ) → IsChild files.now folder.now name → Contains names.now name }
    ensures { IfOk result (λ found. MatchOption found ((name : List ℕ) → LacksRecipe files.now values.now packages.now name → ⊥) (IsLeast (LacksRecipe files.now values.now packages.now))) }
{
    for name in names {
        if lacks_recipe(alloc, files, values, packages, folder, name.as_slice())? {
            return Ok(Some(name.copy()?));
        }
    }
    Ok(None)
}

/// Whether a folder of `package` is such a one.
fn lacks_recipe(
    alloc: Global,
    files: &Files,
    values: &Values,
    packages: &[Made],
    folder: &Path,
    name: &[u8],
) -> Result<bool, Memory>
    requires folder { folder.now ≡ codes "package" ∷ [] }
    requires rising { AreRising (map (λ made. made.name) packages.now) }
    ensures { IfOk result (λ lacks. IsTrue lacks ↔ LacksRecipe files.now values.now packages.now name.now) }
{
    if !has_config(alloc, files, folder, name)? {
        return Ok(false);
    }
    let asked = is_asked(alloc, values, name)?;
    Ok(asked && !is_target(packages, name))
}

/// Whether a folder of `package` has a Config.in.
fn has_config(alloc: Global, files: &Files, folder: &Path, name: &[u8]) -> Result<bool, Memory>
    requires { folder.now ≡ codes "package" ∷ [] }
    ensures { IfOk result (λ config. IsTrue config ↔ IsFile files.now (codes "package" ∷ name.now ∷ codes "Config.in" ∷ [])) }
{
    let below = path_below(alloc, folder, name)?;
    let config = path_below(alloc, &below, b"Config.in")?;
    Ok(is_file(files, &config))
}

fn is_file(files: &Files, at: &Path) -> bool
    ensures { IsTrue result ↔ IsFile files.now at.now }
{
    files.get(at).is_some()
}

/// The path of a name directly below another. The names of folders are short enough for one, so only memory can be wanting.
fn path_below(alloc: Global, folder: &Path, name: &[u8]) -> Result<Path, Memory>
    ensures { IfOk result (λ path. path ≡ folder.now ++ name.now ∷ []) }
{
    match folder.child(alloc, name) {
        Ok(path) => Ok(path),
        Err(_) => Err(Memory),
    }
}
