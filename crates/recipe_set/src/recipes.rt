//! All recipes of the input, read into one set of variables.
ghost use Rattle.std.specs.Prelude.{◌≡◌, ◌≢◌, ◌<◌, ◌^◌, ◌++◌, ◌∷◌, [], List, ℕ, All, map, length, Result, Ok, Err, IfOk, IfErr, OnOk, true};
ghost use Rattle.std.specs.Ordering.{nat_cmp};
ghost use Rattle.std.specs.Cmp.Lexicographic.{slice_cmp};
ghost use Rattle.std.specs.List.Sorted.{IsStrictlySortedBy};
ghost use Rattle.br_path.specs.Path.{Names};
ghost use Rattle.br_path.specs.Files.{FileMap, AreSmall, IsInput};
ghost use Rattle.kc_values.specs.Values.{Table};
ghost use Rattle.recipe_set.specs.declared.recipes.Recipes.{Recipes as RecipesValue};
ghost use Rattle.recipe_set.specs.declared.fault.PlanFault.{PlanFault as PlanFaultValue};
ghost use Rattle.mk_syntax.specs.Lines.{joined_lines};
ghost use Rattle.mk_syntax.specs.Grammar.{IsRecipeOf};
ghost use Rattle.recipe_set.specs.declared.draft.Draft.{Draft as DraftValue};
ghost use Rattle.recipe_set.specs.declared.fault.PlanFault.TheVariants.{Memory as no_memory, PatchFile as patch_file, Recipe as recipe_fault};
ghost use Rattle.recipe_set.specs.Fault.{HoldsNoMemory};
ghost use Rattle.recipe_set.specs.Names.{is_allowed};
ghost use Rattle.recipe_set.specs.Reading.{AreRecipes, IsFirstPatch, IsPatch, IsReading, ReadsRecipe, ReadsAll, start};
ghost use Rattle.recipe_set.specs.Steps.{IsAnswer};
ghost use Rattle.recipe_set.specs.Found.{told, IsFound};
ghost use Rattle.recipe_set.specs.Forms.{AreFormsOf};

use crate::draft::Draft;
use crate::fault::PlanFault;
use crate::first::first_vars;
use crate::folder::{RecipeFile, first_patch, recipe_files};
use crate::names::{is_package_name, upper_form};
use crate::packages::{PackageSet, Packages};
use crate::reader::read_statements;
use br_path::{Bytes, Files, Memory, Path};
use kc_values::Values;
use mk_expand::Vars;
use mk_syntax::{MkError, MkFault, Recipe, read};
use std::alloc::Global;
use std::collections::BTreeSet;

/// What recipes say: the variables that they set, and the packages that they make.
#[derive(Debug, Drop)]
pub struct Recipes {
    pub vars: Vars,
    pub packages: Packages,
}

/// Reads all recipes, in the order of their paths.
pub fn read_recipes(alloc: Global, files: &Files, values: &Values) -> Result<Recipes, PlanFault>
    requires { AreSmall files.now }
    ensures recipes { IfOk result (λ recipes. IsReading files.now values.now (Ok recipes)) }
    ensures fault { IfErr result (λ fault. fault ≢ no_memory → IsReading files.now values.now (Err fault)) }
    ensures held { IfErr result HoldsNoMemory }
    ensures rising { IfOk result (λ recipes. IsStrictlySortedBy (slice_cmp nat_cmp) (map (λ made. made.name) recipes.packages)) }
{
    let recipes = recipe_files(alloc, files)?;
    let draft = read_all(alloc, recipes.as_slice(), first_draft(alloc, values)?)?;
    match check_patches(alloc, files, recipes.as_slice()) {
        Ok(()) => Ok(into_recipes(alloc, draft)?),
        Err(fault) => {
            drop(draft);
            Err(fault)
        }
    }
}

/// A law with nothing to run: files and values have one reading. So `read_recipes` gives the recipes where there are some,
/// and else their first fault, unless memory is wanting.
pub fn one_reading()
    ensures { (files : FileMap) (values : Table) (one other : Result RecipesValue PlanFaultValue) → IsReading files values one → IsReading files values other → one ≡ other }
{}

/// What is read before the first recipe.
fn first_draft(alloc: Global, values: &Values) -> Result<Draft, Memory>
    ensures { IfOk result (λ draft. draft ≡ start values.now) }
{
    Ok(Draft {
        vars: first_vars(alloc, values)?,
        packages: PackageSet::new(alloc),
    })
}

/// Refuses a patch in the folder of a recipe.
fn check_patches(alloc: Global, files: &Files, recipes: &[RecipeFile<'_>]) -> Result<(), PlanFault>
    requires input { IsInput files.now }
    requires recipes { AreRecipes files.now (map told recipes.now) }
    requires found { All IsFound recipes.now }
    ensures none { OnOk result ((at : Names) → IsPatch files.now at → ⊥) }
    ensures fault { IfErr result (λ fault. fault ≢ no_memory → (at : Names) × (fault ≡ patch_file at) × IsFirstPatch files.now at) }
    ensures held { IfErr result HoldsNoMemory }
{
    match first_patch(alloc, files, recipes)? {
        None => Ok(()),
        Some(patch) => Err(PlanFault::PatchFile(patch)),
    }
}

/// What all recipes say.
fn into_recipes(alloc: Global, draft: Draft) -> Result<Recipes, Memory>
    ensures recipes { IfOk result (λ recipes. recipes ≡ record { vars = draft.vars; packages = draft.packages }) }
    ensures rising { IfOk result (λ recipes. IsStrictlySortedBy (slice_cmp nat_cmp) (map (λ made. made.name) recipes.packages)) }
{
    let Draft { vars, packages } = draft;
    match packages.into_packages(alloc) {
        Ok(packages) => Ok(Recipes { vars, packages }),
        Err(memory) => {
            drop(vars);
            Err(memory)
        }
    }
}

/// Reads recipes one after another.
fn read_all(alloc: Global, recipes: &[RecipeFile<'_>], mut draft: Draft) -> Result<Draft, PlanFault>
    requires found { All IsFound recipes.now }
    requires small { All (λ recipe. length recipe.text.now < 2 ^ 31) recipes.now }
    ensures { IsAnswer (ReadsAll [] (Ok draft) (map told recipes.now)) result }
{
    let mut forms = BTreeSet::new(alloc);
    for recipe in recipes {
        draft = read_recipe(alloc, &mut forms, recipe, draft)?;
    }
    Ok(draft)
}

/// Reads a recipe, after those whose upper-case forms these are.
fn read_recipe(
    alloc: Global,
    forms: &mut BTreeSet<Bytes>,
    recipe: &RecipeFile<'_>,
    draft: Draft,
) -> Result<Draft, PlanFault>
    requires found { IsFound recipe.now }
    requires small { length recipe.now.text.now < 2 ^ 31 }
    ensures answer { (earlier : List (List ℕ)) → AreFormsOf earlier forms.old → IsAnswer (ReadsRecipe earlier draft recipe.now.folder.name recipe.now.text.now) result }
    ensures forms { (earlier : List (List ℕ)) → AreFormsOf earlier forms.old → OnOk result (AreFormsOf (earlier ++ recipe.now.folder.name ∷ []) forms.new) }
{
    match statements_of(alloc, forms, recipe) {
        Ok(statements) => read_statements(alloc, &recipe.folder, draft, statements),
        Err(fault) => {
            drop(draft);
            Err(fault)
        }
    }
}

/// The statements of a recipe, after those whose upper-case forms these are.
fn statements_of(
    alloc: Global,
    forms: &mut BTreeSet<Bytes>,
    recipe: &RecipeFile<'_>,
) -> Result<Recipe, PlanFault>
    requires found { IsFound recipe.now }
    requires small { length recipe.now.text.now < 2 ^ 31 }
    ensures allowed { (earlier : List (List ℕ)) → AreFormsOf earlier forms.old → OnOk result (is_allowed earlier recipe.now.folder.name ≡ true) }
    ensures forms { (earlier : List (List ℕ)) → AreFormsOf earlier forms.old → OnOk result (AreFormsOf (earlier ++ recipe.now.folder.name ∷ []) forms.new) }
    ensures statements { IfOk result (IsRecipeOf (joined_lines recipe.now.text.now)) }
    ensures fault { (earlier : List (List ℕ)) → AreFormsOf earlier forms.old → IfErr result (λ fault. fault ≢ no_memory → (draft : DraftValue) → ReadsRecipe earlier draft recipe.now.folder.name recipe.now.text.now (Err fault)) }
    ensures held { IfErr result HoldsNoMemory }
{
    if !is_allowed(alloc, forms, &recipe.folder.name)? {
        return Err(PlanFault::WrongName(recipe.path.copy()?));
    }
    match read(alloc, recipe.text) {
        Ok(statements) => Ok(statements),
        Err(MkError::Fault(fault)) => Err(not_read(&recipe.path, fault)),
        Err(MkError::Memory) => Err(PlanFault::Memory),
    }
}

/// The fault of a recipe that isn't read.
fn not_read(path: &Path, fault: MkFault) -> PlanFault
    ensures fault { result ≢ no_memory → result ≡ recipe_fault path.now fault }
    ensures held { HoldsNoMemory result }
{
    match path.copy() {
        Ok(path) => PlanFault::Recipe(path, fault),
        Err(_) => {
            drop(fault);
            PlanFault::Memory
        }
    }
}

/// Whether a recipe's folder may have this name after those whose upper-case forms these are; its own is put to them.
fn is_allowed(alloc: Global, forms: &mut BTreeSet<Bytes>, name: &Bytes) -> Result<bool, Memory>
    ensures allowed { (earlier : List (List ℕ)) → AreFormsOf earlier forms.old → IfOk result (λ allowed. allowed ≡ is_allowed earlier name.now) }
    ensures forms { (earlier : List (List ℕ)) → AreFormsOf earlier forms.old → IfOk result (λ allowed. allowed ≡ true → AreFormsOf (earlier ++ name.now ∷ []) forms.new) }
{
    if !is_package_name(name.as_slice()) {
        return Ok(false);
    }
    let form = upper_form(alloc, name.as_slice())?;
    Ok(forms.insert(form)?)
}
