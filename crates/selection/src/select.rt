//! The selected packages, or the first fault.
ghost use Rattle.std.specs.Prelude.{List, ℕ, ◌≡◌, ◌≢◌, None, Result, Ok, Err, IfOk, IfErr, OnOk, length, map, nat_le, position, if◌then◌else◌};
ghost use Rattle.std.specs.List.{find};
ghost use Rattle.br_path.specs.Files.{FileMap};
ghost use Rattle.kc_values.specs.Values.{Table};
ghost use Rattle.br_path.specs.Text.{is_text};
ghost use Rattle.recipe_set.specs.declared.fault.PlanFault.{PlanFault as FaultValue};
ghost use Rattle.recipe_set.specs.declared.fault.PlanFault.TheVariants.{Memory as no_memory, NoRecipe as no_recipe, TooManyPackages as too_many};
ghost use Rattle.recipe_set.specs.declared.recipes.Recipes.{Recipes as RecipesValue};
ghost use Rattle.selection.specs.declared.listed.Listed.{Listed as ListedValue};
ghost use Rattle.selection.specs.Names.{AreRising};
ghost use Rattle.selection.specs.Selected.{AreClosed, HaveHosts, is_unknown, is_unselected, listings, names_of};
ghost use Rattle.selection.specs.Selecting.{IsChecked, IsLeast, IsSelecting, LacksRecipe};

use crate::chains::selected;
use crate::listed::Listed;
use crate::listings::{Listings, first_unknown, first_unselected};
use crate::lists::all_lists;
use crate::missing::least_without_recipe;
use crate::places::listed_place;
use br_path::{Bytes, Files, Memory};
use kc_values::Values;
use recipe_set::{Made, PlanFault, Recipes};
use std::alloc::Global;
use std::marker::Model;

/// The most packages that are selected.
const MOST_SELECTED: usize = 256;

/// The selected packages. They rise by name, there are at most 256, and each that one of them lists is one of them.
#[derive(Debug, Drop)]
pub struct Selection {
    items: Vec<Listed>,
}

impl Model for Selection {
    ghost use Rattle.std.specs.Prelude.{List};
    ghost use Rattle.selection.specs.declared.listed.Listed.{Listed};
    ghost use Rattle.selection.specs.Selected.{IsSelection};

    ghost Value = { List Listed };

    ghost view = { λ s. s.items.items };

    ghost invariant = { λ s. IsSelection s.items.items };
}

impl Selection {
    ghost use Rattle.selection.specs.Selected.{IsSelection};

    /// The packages, by name.
    pub fn packages(&self) -> &[Listed]
        ensures packages { result.now ≡ self.now }
        ensures selection { IsSelection self.now }
    {
        self.items.as_slice()
    }

    /// The place of the package of a name, from 0; none exactly where it isn't selected. The time is logarithmic in their number.
    pub fn place(&self, name: &[u8]) -> Option<u32>
        ensures { result ≡ position (λ listed. is_text name.now listed.made.name) self.now }
    {
        match listed_place(self.items.as_slice(), name) {
            Some(place) => Some(place as u32),
            None => None,
        }
    }
}

/// The packages that are selected, with their lists, or the first fault.
pub fn select_packages(
    alloc: Global,
    files: &Files,
    values: &Values,
    recipes: &Recipes,
) -> Result<Selection, PlanFault>
    requires { AreRising (map (λ made. made.name) recipes.now.packages) }
    ensures ok { IfOk result (λ selection. IsSelecting files.now values.now recipes.now (Ok selection)) }
    ensures err { IfErr result (λ fault. fault ≢ no_memory → IsSelecting files.now values.now recipes.now (Err fault)) }
{
    let made = recipes.packages.items.as_slice();
    check_recipes(alloc, files, values, made)?;
    let all = all_lists(alloc, &recipes.vars, made)?;
    let chosen = selected(alloc, values, made, all.as_slice())?;
    check_lists(alloc, made, chosen.as_slice())?;
    few(chosen)
}

/// There is one answer: files, values and recipes have one selection or one first fault.
pub fn one_answer()
    ensures { (files : FileMap) (values : Table) (recipes : RecipesValue) (one other : Result (List ListedValue) FaultValue) → IsSelecting files values recipes one → IsSelecting files values recipes other → one ≡ other }
{}

/// Refuses a folder whose package is asked for while no recipe makes it.
fn check_recipes(
    alloc: Global,
    files: &Files,
    values: &Values,
    made: &[Made],
) -> Result<(), PlanFault>
    requires { AreRising (map (λ one. one.name) made.now) }
    ensures ok { OnOk result ((name : List ℕ) → LacksRecipe files.now values.now made.now name → ⊥) }
    ensures err { IfErr result (λ fault. fault ≢ no_memory → (name : List ℕ) × (fault ≡ no_recipe name) × IsLeast (LacksRecipe files.now values.now made.now) name) }
{
    match least_without_recipe(alloc, files, values, made)? {
        Some(name) => Err(PlanFault::NoRecipe(name)),
        None => Ok(()),
    }
}

/// Refuses what selected packages list and isn't made, and then target packages that they list and that aren't selected.
fn check_lists(alloc: Global, made: &[Made], chosen: &[Listed]) -> Result<(), PlanFault>
    requires made { AreRising (map (λ one. one.name) made.now) }
    requires chosen { AreRising (names_of chosen.now) }
    requires hosts { HaveHosts made.now chosen.now }
    ensures closed { OnOk result (AreClosed chosen.now) }
    ensures known { OnOk result (find (is_unknown made.now) (listings chosen.now) ≡ None) }
    ensures selected { OnOk result (find (is_unselected made.now chosen.now) (listings chosen.now) ≡ None) }
    ensures err { IfErr result (λ fault. fault ≢ no_memory → IsChecked made.now chosen.now (Err fault)) }
{
    let listings = Listings::of(alloc, chosen)?;
    if let Some((owner, name)) = first_unknown(made, listings.as_slice()) {
        let listing = copies(owner, name)?;
        return Err(PlanFault::UnknownDependency(listing.0, listing.1));
    }
    if let Some((owner, name)) = first_unselected(made, chosen, listings.as_slice()) {
        let listing = copies(owner, name)?;
        return Err(PlanFault::NotSelected(listing.0, listing.1));
    }
    Ok(())
}

/// The name of a package and a name that it lists, once more.
fn copies(owner: &Bytes, name: &Bytes) -> Result<(Bytes, Bytes), Memory>
    ensures { IfOk result (λ listing. (listing.0 ≡ owner.now) × (listing.1 ≡ name.now)) }
{
    Ok((owner.copy()?, name.copy()?))
}

/// Refuses more than 256 packages.
fn few(chosen: Vec<Listed>) -> Result<Selection, PlanFault>
    requires rising { AreRising (names_of chosen.items) }
    requires closed { AreClosed chosen.items }
    ensures { result ≡ (if nat_le (length chosen.items) 256 then Ok chosen.items else Err too_many) }
{
    if chosen.len() > MOST_SELECTED {
        return Err(PlanFault::TooManyPackages);
    }
    Ok(Selection { items: chosen })
}
