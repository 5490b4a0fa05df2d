//! Places that a command may name.
ghost use Rattle.std.specs.Prelude.{◌≡◌, IfOk};
ghost use Rattle.sh_places.specs.Spot.{is_area, is_site, is_spot, is_label, is_same_file};

use br_path::{Area, Memory, Path};
use tree_ops::Label;

/// One of the trees that a command may name, or the input.
#[derive(Clone, Copy, PartialEq, Eq)]
pub enum Site {
    /// The task's own tree of an area.
    Tree(Area),
    /// The readable build tree of another task.
    Readable(u32),
    /// The input: the package's folder and `board`.
    Input,
}

/// A path in one of them, whether something stands there or not.
pub struct Spot {
    pub site: Site,
    pub path: Path,
}

// A proof then has one call at each place that lets a spot go, and not one for each of its parts.
impl Drop for Spot {
    fn drop(self) {
        let Spot { site: _, path } = self;
        drop(path);
    }
}

impl Spot {
    /// The same place once more.
    pub fn copy(&self) -> Result<Spot, Memory>
        ensures { IfOk result (λ spot. spot ≡ self.now) }
    {
        Ok(Spot {
            site: self.site,
            path: self.path.copy()?,
        })
    }

    /// Whether it is this place.
    pub fn is(&self, other: &Spot) -> bool
        ensures { result ≡ is_spot self.now other.now }
    {
        self.site.is(other.site) && self.path.names() == other.path.names()
    }
}

impl Site {
    /// Whether it is this site.
    pub fn is(self, other: Site) -> bool
        ensures { result ≡ is_site self other }
    {
        match (self, other) {
            (Site::Tree(area), Site::Tree(other)) => is_area(area, other),
            (Site::Readable(task), Site::Readable(other)) => task == other,
            (Site::Input, Site::Input) => true,
            _ => false,
        }
    }
}

/// Whether both are one area.
pub fn is_area(area: Area, other: Area) -> bool
    ensures { result ≡ is_area area other }
{
    match (area, other) {
        (Area::Build, Area::Build) => true,
        (Area::Host, Area::Host) => true,
        (Area::Staging, Area::Staging) => true,
        (Area::Target, Area::Target) => true,
        _ => false,
    }
}

/// Whether both places hold one file: the same label in the same tree.
pub fn is_same_file(
    site: Site,
    label: Option<Label>,
    other_site: Site,
    other: Option<Label>,
) -> bool
    ensures { result ≡ is_same_file site label other_site other }
{
    site.is(other_site) && is_label(label, other)
}

/// Whether both are files with one label.
pub fn is_label(label: Option<Label>, other: Option<Label>) -> bool
    ensures { result ≡ is_label label other }
{
    match (label, other) {
        (Some(label), Some(other)) => label.task == other.task && label.number == other.number,
        _ => false,
    }
}
