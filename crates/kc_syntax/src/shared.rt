//! Paths that several own.
ghost use Rattle.std.specs.Prelude.{◌≡◌, IfOk};

use br_path::{Memory, Path};
use std::alloc::Global;
use std::marker::Model;
use std::rc::Rc;

/// The path of a file, which all that is read in it owns together.
#[derive(Drop)]
pub(crate) struct SharedPath {
    path: Rc<Path>,
}

impl Model for SharedPath {
    ghost use Rattle.br_path.specs.Path.{Names};

    ghost Value = { Names };

    ghost view = { λ s. s.path.value };
}

impl SharedPath {
    /// A path with one owner.
    pub(crate) fn new(alloc: Global, path: Path) -> Result<SharedPath, Memory>
        ensures { IfOk result (λ shared. shared ≡ path) }
    {
        Ok(SharedPath {
            path: Rc::new(alloc, path)?,
        })
    }

    /// The same path, with one owner more.
    pub(crate) fn share(&self) -> Result<SharedPath, Memory>
        ensures { IfOk result (λ shared. shared ≡ self.now) }
    {
        Ok(SharedPath {
            path: self.path.clone()?,
        })
    }

    /// The path.
    pub(crate) fn path(&self) -> &Path
        ensures { result.now ≡ self.now }
    {
        self.path.as_ref()
    }
}
