//! Packages with the dependencies that they list.
ghost use Rattle.std.specs.Prelude.{◌≡◌, IfOk};

use br_path::{Memory, Names};
use recipe_set::Made;

/// A package that a recipe makes, with the names that it lists, each once in a list: its dependencies, those that must be
/// made before it is extracted, and those that must be extracted before it is patched.
#[derive(Debug, Drop)]
pub struct Listed {
    pub made: Made,
    pub depends: Names,
    pub extract: Names,
    pub patch: Names,
}

impl Listed {
    /// The same package with its lists once more.
    pub(crate) fn copy(&self) -> Result<Listed, Memory>
        ensures { IfOk result (λ copy. copy ≡ self.now) }
    {
        Ok(Listed {
            made: copy_of(&self.made)?,
            depends: self.depends.clone()?,
            extract: self.extract.clone()?,
            patch: self.patch.clone()?,
        })
    }
}

/// The same package once more.
pub(crate) fn copy_of(made: &Made) -> Result<Made, Memory>
    ensures { IfOk result (λ copy. copy ≡ made.now) }
{
    Ok(Made {
        name: made.name.copy()?,
        folder: made.folder.copy()?,
        host: made.host,
    })
}
