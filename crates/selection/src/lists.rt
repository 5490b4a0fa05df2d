//! The lists of the packages that recipes make.
ghost use Rattle.std.specs.Prelude.{List, ℕ, ◌≡◌, ◌≢◌, ◌++◌, Ok, Err, IfOk, IfErr, codes, map};
ghost use Rattle.mk_expand.specs.declared.fault.ExpandFault.TheVariants.{Memory as no_room};
ghost use Rattle.recipe_set.specs.declared.fault.PlanFault.TheVariants.{Memory as no_memory, Expand as expand_fault};
ghost use Rattle.selection.specs.Each.{Each};
ghost use Rattle.selection.specs.Lists.{HasList, HasDepends, HasLists, distinct, folder_name, is_derived, reference, taken_over, variable_of};

use crate::listed::{Listed, copy_of};
use crate::names::variable;
use crate::words::{distinct, taken_over, words};
use br_path::{Bytes, Memory, Names};
use mk_expand::{ExpandFault, Locals, Vars, expand};
use recipe_set::{Made, PlanFault};
use std::alloc::Global;

/// Each package with its lists, or the first fault of one.
pub(crate) fn all_lists(
    alloc: Global,
    vars: &Vars,
    packages: &[Made],
) -> Result<Vec<Listed>, PlanFault>
    ensures ok { IfOk result (λ all. Each (HasLists vars.now) packages.now (Ok all.items)) }
    ensures made { IfOk result (λ all. map (λ listed. listed.made) all.items ≡ packages.now) }
    ensures err { IfErr result (λ fault. fault ≢ no_memory → Each (HasLists vars.now) packages.now (Err fault)) }
{
    let mut all = Vec::new(alloc);
    for made in packages {
        let listed = lists_of(alloc, vars, made)?;
        all.push(listed)?;
    }
    Ok(all)
}

/// A package with its lists, or the fault of the first that has one.
fn lists_of(alloc: Global, vars: &Vars, made: &Made) -> Result<Listed, PlanFault>
    ensures ok { IfOk result (λ listed. HasLists vars.now made.now (Ok listed)) }
    ensures err { IfErr result (λ fault. fault ≢ no_memory → HasLists vars.now made.now (Err fault)) }
{
    let depends = depends_of(alloc, vars, made)?;
    let extract = list_of(alloc, vars, made, b"_EXTRACT_DEPENDENCIES")?;
    let patch = list_of(alloc, vars, made, b"_PATCH_DEPENDENCIES")?;
    Ok(Listed {
        made: copy_of(made)?,
        depends,
        extract,
        patch,
    })
}

/// The dependencies of a package. A host package that doesn't set them takes over those of the target package.
fn depends_of(alloc: Global, vars: &Vars, made: &Made) -> Result<Names, PlanFault>
    ensures ok { IfOk result (λ names. HasDepends vars.now made.now (Ok names)) }
    ensures err { IfErr result (λ fault. fault ≢ no_memory → HasDepends vars.now made.now (Err fault)) }
{
    if is_derived(alloc, vars, made)? {
        return derived_list(alloc, vars, made);
    }
    list_of(alloc, vars, made, b"_DEPENDENCIES")
}

/// Whether it is a host package that doesn't set its dependencies.
fn is_derived(alloc: Global, vars: &Vars, made: &Made) -> Result<bool, Memory>
    ensures { IfOk result (λ derived. derived ≡ is_derived vars.now made.now) }
{
    let variable = variable(alloc, made.name.as_slice(), b"_DEPENDENCIES")?;
    Ok(made.host && vars.is_simple(variable.as_slice()).is_none())
}

/// What a host package takes over of the dependencies of the target package.
fn derived_list(alloc: Global, vars: &Vars, made: &Made) -> Result<Names, PlanFault>
    ensures ok { IfOk result (λ names. HasList vars.now made.now.name (variable_of (folder_name made.now) (codes "_DEPENDENCIES")) (λ words. distinct (taken_over made.now.name words)) (Ok names)) }
    ensures err { IfErr result (λ fault. fault ≢ no_memory → HasList vars.now made.now.name (variable_of (folder_name made.now) (codes "_DEPENDENCIES")) (λ words. distinct (taken_over made.now.name words)) (Err fault)) }
{
    let variable = variable(alloc, folder_name(made), b"_DEPENDENCIES")?;
    let words = words_of(alloc, vars, &made.name, variable)?;
    let names = taken_over(alloc, made.name.as_slice(), &words)?;
    Ok(distinct(alloc, names)?)
}

/// The name of the folder that a recipe stands in.
fn folder_name(made: &Made) -> &[u8]
    ensures { result.now ≡ folder_name made.now }
{
    match made.folder.names().last() {
        Some(name) => name.as_slice(),
        None => b"",
    }
}

/// The list of a package that its variable with an ending gives.
fn list_of(alloc: Global, vars: &Vars, made: &Made, ending: &[u8]) -> Result<Names, PlanFault>
    ensures ok { IfOk result (λ names. HasList vars.now made.now.name (variable_of made.now.name ending.now) distinct (Ok names)) }
    ensures err { IfErr result (λ fault. fault ≢ no_memory → HasList vars.now made.now.name (variable_of made.now.name ending.now) distinct (Err fault)) }
{
    let variable = variable(alloc, made.name.as_slice(), ending)?;
    let words = words_of(alloc, vars, &made.name, variable)?;
    Ok(distinct(alloc, words)?)
}

/// The words of the value of a reference to a variable of a package.
fn words_of(alloc: Global, vars: &Vars, owner: &Bytes, variable: Bytes) -> Result<Names, PlanFault>
    ensures ok { IfOk result (λ names. HasList vars.now owner.now variable (λ words. words) (Ok names)) }
    ensures err { IfErr result (λ fault. fault ≢ no_memory → HasList vars.now owner.now variable (λ words. words) (Err fault)) }
{
    let text = reference(alloc, variable.as_slice())?;
    match expand(alloc, vars, text.as_slice(), &Locals::new(alloc)) {
        Ok(bytes) => Ok(words(alloc, bytes.as_slice())?),
        Err(fault) => Err(list_fault(owner, variable, fault)),
    }
}

/// A reference to a variable.
fn reference(alloc: Global, variable: &[u8]) -> Result<Bytes, Memory>
    ensures { IfOk result (λ text. text ≡ reference variable.now) }
{
    let mut items = Vec::from_slice(alloc, b"$(")?;
    items.extend_from_slice(variable)?;
    items.push(b')')?;
    Ok(Bytes { items })
}

/// The fault of a list of a package.
fn list_fault(owner: &Bytes, variable: Bytes, fault: ExpandFault) -> PlanFault
    ensures fault { result ≢ no_memory → result ≡ expand_fault owner.now variable fault }
    ensures memory { fault ≡ no_room → result ≡ no_memory }
{
    if let ExpandFault::Memory = fault {
        return PlanFault::Memory;
    }
    match owner.copy() {
        Ok(package) => PlanFault::Expand {
            package,
            variable,
            fault,
        },
        Err(_) => PlanFault::Memory,
    }
}
