//! Packages by their names.
ghost use Rattle.std.specs.Prelude.{◌≡◌, ◌<◌, IfSome, length, map, position};
ghost use Rattle.br_path.specs.Text.{is_text};
ghost use Rattle.selection.specs.Chains.{place_of, host_place};
ghost use Rattle.selection.specs.Names.{AreRising, is_made, is_target};
ghost use Rattle.selection.specs.Selected.{has_name, names_of};

use crate::listed::Listed;
use recipe_set::Made;

/// The place of the package of a name. The time is logarithmic in the number of packages.
pub(crate) fn place_of(packages: &[Made], name: &[u8]) -> Option<usize>
    requires { AreRising (map (λ made. made.name) packages.now) }
    ensures place { result ≡ place_of packages.now name.now }
    ensures within { IfSome result (λ place. place < length packages.now) }
{
    match packages.binary_search_by(|made| made.name.as_slice().cmp(name)) {
        Ok(place) => Some(place),
        Err(_) => None,
    }
}

/// The place of the host package of a name.
pub(crate) fn host_place(packages: &[Made], name: &[u8]) -> Option<usize>
    requires { AreRising (map (λ made. made.name) packages.now) }
    ensures place { result ≡ host_place packages.now name.now }
    ensures within { IfSome result (λ place. place < length packages.now) }
{
    let place = place_of(packages, name)?;
    if packages[place].host {
        Some(place)
    } else {
        None
    }
}

/// Whether a recipe makes a package of this name.
pub(crate) fn is_made(packages: &[Made], name: &[u8]) -> bool
    requires { AreRising (map (λ made. made.name) packages.now) }
    ensures { result ≡ is_made packages.now name.now }
{
    place_of(packages, name).is_some()
}

/// Whether a recipe makes a package of this name that is no host package.
pub(crate) fn is_target(packages: &[Made], name: &[u8]) -> bool
    requires { AreRising (map (λ made. made.name) packages.now) }
    ensures { result ≡ is_target packages.now name.now }
{
    match place_of(packages, name) {
        Some(place) => !packages[place].host,
        None => false,
    }
}

/// The place of the package of a name among packages with their lists, in the same time.
pub(crate) fn listed_place(packages: &[Listed], name: &[u8]) -> Option<usize>
    requires { AreRising (names_of packages.now) }
    ensures place { result ≡ position (λ listed. is_text name.now listed.made.name) packages.now }
    ensures within { IfSome result (λ place. place < length packages.now) }
{
    match packages.binary_search_by(|listed| listed.made.name.as_slice().cmp(name)) {
        Ok(place) => Some(place),
        Err(_) => None,
    }
}

/// Whether a package of this name is among packages with their lists.
pub(crate) fn has_name(packages: &[Listed], name: &[u8]) -> bool
    requires { AreRising (names_of packages.now) }
    ensures { result ≡ has_name packages.now name.now }
{
    listed_place(packages, name).is_some()
}
