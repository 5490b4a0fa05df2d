//! What packages list, and the first that is at fault.
ghost use Rattle.std.specs.Prelude.{◌≡◌, ◌++◌, ◌∷◌, [], IfOk, OnOk, map};
ghost use Rattle.std.specs.List.{find};
ghost use Rattle.std.specs.Option.{option_map};
ghost use Rattle.selection.specs.Names.{AreRising};
ghost use Rattle.selection.specs.Selected.{is_unknown, is_unselected, listed_by, listings, names_of};
ghost use Rattle.selection.specs.Shown.{shown, shown_listing};

use crate::listed::Listed;
use crate::places::{has_name, is_made, is_target};
use br_path::{Bytes, Memory, Names};
use recipe_set::Made;
use std::alloc::Global;
use std::marker::Model;

/// The names that packages list, one after another, each after the name of its package.
#[derive(Drop)]
pub(crate) struct Listings<'a> {
    items: Vec<(&'a Bytes, &'a Bytes)>,
}

impl<'a> Model for Listings<'a> {
    ghost use Rattle.std.specs.Prelude.{ℕ, List};
    ghost use Rattle.selection.specs.Shown.{shown};

    ghost Value = { List (List ℕ × List ℕ) };

    ghost view = { λ l. shown l.items.items };
}

impl<'a> Listings<'a> {
    /// What these packages list.
    pub(crate) fn of(alloc: Global, packages: &'a [Listed]) -> Result<Listings<'a>, Memory>
        ensures { IfOk result (λ found. found ≡ listings packages.now) }
    {
        let mut found = Listings::new(alloc);
        for listed in packages {
            found.add_lists(listed)?;
        }
        Ok(found)
    }

    fn new(alloc: Global) -> Listings<'a>
        ensures { result ≡ [] }
    {
        Listings {
            items: Vec::new(alloc),
        }
    }

    /// The names with their packages, in order.
    pub(crate) fn as_slice(&self) -> &[(&'a Bytes, &'a Bytes)]
        ensures { shown result.now ≡ self.now }
    {
        self.items.as_slice()
    }

    /// Adds what a package lists.
    fn add_lists(&mut self, listed: &'a Listed) -> Result<(), Memory>
        ensures { OnOk result (self.new ≡ self.old ++ map (λ name. (listed.now.made.name, name)) (listed_by listed.now)) }
    {
        self.add_names(&listed.made.name, &listed.depends)?;
        self.add_names(&listed.made.name, &listed.extract)?;
        self.add_names(&listed.made.name, &listed.patch)
    }

    /// Adds names that a package lists.
    fn add_names(&mut self, owner: &'a Bytes, names: &'a Names) -> Result<(), Memory>
        ensures { OnOk result (self.new ≡ self.old ++ map (λ name. (owner.now, name)) names.now) }
    {
        for name in &names.items {
            self.add(owner, name)?;
        }
        Ok(())
    }

    fn add(&mut self, owner: &'a Bytes, name: &'a Bytes) -> Result<(), Memory>
        ensures { OnOk result (self.new ≡ self.old ++ (owner.now, name.now) ∷ []) }
    {
        self.items.push((owner, name))?;
        Ok(())
    }
}

/// The first name that is listed while no recipe makes such a package, after the name of the package that lists it.
pub(crate) fn first_unknown<'a>(
    made: &[Made],
    listings: &[(&'a Bytes, &'a Bytes)],
) -> Option<(&'a Bytes, &'a Bytes)>
    requires { AreRising (map (λ one. one.name) made.now) }
    ensures { option_map shown_listing result ≡ find (is_unknown made.now) (shown listings.now) }
{
    for (owner, name) in listings {
        if !is_made(made, name.as_slice()) {
            return Some((*owner, *name));
        }
    }
    None
}

/// The first target package that is listed and isn't among the chosen, likewise.
pub(crate) fn first_unselected<'a>(
    made: &[Made],
    chosen: &[Listed],
    listings: &[(&'a Bytes, &'a Bytes)],
) -> Option<(&'a Bytes, &'a Bytes)>
    requires made { AreRising (map (λ one. one.name) made.now) }
    requires chosen { AreRising (names_of chosen.now) }
    ensures { option_map shown_listing result ≡ find (is_unselected made.now chosen.now) (shown listings.now) }
{
    for (owner, name) in listings {
        if is_target(made, name.as_slice()) && !has_name(chosen, name.as_slice()) {
            return Some((*owner, *name));
        }
    }
    None
}
