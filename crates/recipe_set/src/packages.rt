//! The packages that recipes make.
ghost use Rattle.std.specs.Prelude.{◌≡◌, [], map, OnOk, IfOk};
ghost use Rattle.std.specs.Ordering.{nat_cmp};
ghost use Rattle.std.specs.Cmp.Lexicographic.{slice_cmp};
ghost use Rattle.std.specs.List.Sorted.{IsStrictlySortedBy};
ghost use Rattle.recipe_set.specs.Effect.{with_package};

use br_path::{Bytes, Memory, Path};
use std::alloc::Global;
use std::collections::BTreeMap;
use std::marker::Model;

/// A package that a recipe makes: its name, the folder of the recipe, and whether it is a host package. The recipe of
/// `package/foo` makes `foo`, and the host package `host-foo`.
#[derive(Debug, Drop)]
pub struct Made {
    pub name: Bytes,
    pub folder: Path,
    pub host: bool,
}

/// Packages that recipes make. Those of a set of recipes rise by name, each once.
#[derive(Debug, Drop)]
pub struct Packages {
    pub items: Vec<Made>,
}

impl Model for Packages {
    ghost use Rattle.std.specs.Prelude.{List};
    ghost use Rattle.recipe_set.specs.declared.packages.Made.{Made};

    ghost Value = { List Made };

    ghost view = { λ p. p.items.items };
}

/// Where the recipe of a package stands, and whether it is a host package.
#[derive(Drop)]
struct Place {
    folder: Path,
    host: bool,
}

/// Packages by name, while recipes are read.
#[derive(Drop)]
pub(crate) struct PackageSet {
    places: BTreeMap<Bytes, Place>,
}

impl Model for PackageSet {
    ghost use Rattle.std.specs.Prelude.{List, map};
    ghost use Rattle.std.specs.BTreeMap.{IsOrdered};
    ghost use Rattle.std.specs.Ordering.{nat_cmp};
    ghost use Rattle.std.specs.Cmp.Lexicographic.{slice_cmp};
    ghost use Rattle.recipe_set.specs.declared.packages.Made.{Made};

    ghost Value = { List Made };

    ghost view = { λ s. map (λ e. record { name = e.0; folder = e.1.folder; host = e.1.host }) s.places.entries };

    ghost invariant = { λ s. IsOrdered (slice_cmp nat_cmp) s.places };
}

impl PackageSet {
    /// No packages.
    pub(crate) fn new(alloc: Global) -> PackageSet
        ensures { result ≡ [] }
    {
        PackageSet {
            places: BTreeMap::new(alloc),
        }
    }

    /// Puts a package in its place among the others, unless it is there already.
    pub(crate) fn put(&mut self, name: Bytes, folder: Path, host: bool) -> Result<(), Memory>
        ensures { OnOk result (self.new ≡ with_package (record { name = name; folder = folder; host = host }) self.old) }
    {
        self.places.insert(name, Place { folder, host })?;
        Ok(())
    }

    /// The packages, rising by name.
    pub(crate) fn into_packages(self, alloc: Global) -> Result<Packages, Memory>
        ensures same { IfOk result (λ packages. packages ≡ self) }
        ensures rising { IfOk result (λ packages. IsStrictlySortedBy (slice_cmp nat_cmp) (map (λ made. made.name) packages)) }
    {
        let mut items = Vec::new(alloc);
        for (name, place) in self.places {
            items.push(Made {
                name,
                folder: place.folder,
                host: place.host,
            })?;
        }
        Ok(Packages { items })
    }
}
