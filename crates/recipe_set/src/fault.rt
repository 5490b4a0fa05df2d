//! Why files and values have no plan.
ghost use Rattle.std.specs.Prelude.{◌≡◌};

use br_path::{Bytes, Memory, Path};
use mk_expand::ExpandFault;
use mk_syntax::MkFault;
use std::alloc::{AllocError, AllocFailed};
use thiserror::Error;

/// Why files and values have no plan. Of several faults the one counts that comes first in this order, and out of memory
/// may take any place:
///
/// 1. recipe by recipe, in the order of their paths, `WrongName`, `Recipe`, and `Expand` while the recipe is read;
/// 2. `PatchFile`;
/// 3. `NoRecipe`;
/// 4. `Expand` of a list;
/// 5. `UnknownDependency`;
/// 6. `NotSelected`;
/// 7. `TooManyPackages`;
/// 8. `Expand` of an install setting, a hook list, a hook or a command variable;
/// 9. `Cycle`.
#[derive(Debug, Error)]
pub enum PlanFault {
    /// A recipe, by its path, whose folder has no name of a package, or one whose variables are those of an earlier recipe.
    #[error("the folder's name is no name of a package, or stands for the same variables as an earlier one")]
    WrongName(Path),
    /// A recipe, by its path, that isn't read.
    #[error("the recipe isn't read")]
    Recipe(Path, MkFault),
    /// A text that has no value, with the package and the variable that it is expanded for. While a recipe is read these are
    /// the name of its folder and the variable that is set, or `ifeq` for a condition; of lists, the made package and the
    /// variable of the list; of steps, the selected package and the hook or variable. The fault is never out of memory.
    #[error("a text has no value: {fault}")]
    Expand {
        package: Bytes,
        variable: Bytes,
        fault: ExpandFault,
    },
    /// The least file directly in the folder of a recipe whose name ends in `.patch`.
    #[error("a patch")]
    PatchFile(Path),
    /// The least folder in `package` with a `Config.in` whose symbol is set, while no recipe makes its target package.
    #[error("no recipe makes a package that is set")]
    NoRecipe(Bytes),
    /// A selected package, and the first that it lists and no recipe makes.
    #[error("a package that no recipe makes is needed")]
    UnknownDependency(Bytes, Bytes),
    /// A selected package, and the first target package that it lists and that isn't selected.
    #[error("a package that isn't selected is needed")]
    NotSelected(Bytes, Bytes),
    /// More than 256 packages are selected.
    #[error("too many packages are selected")]
    TooManyPackages,
    /// The least task on a cycle of needs.
    #[error("task {0} needs itself")]
    Cycle(u32),
    /// Out of memory.
    #[error("no memory")]
    Memory,
}

// A proof then has one call at each place that lets a fault go, and not a walk of its forms.
impl Drop for PlanFault {
    fn drop(self) {
        match self {
            PlanFault::WrongName(_)
            | PlanFault::Recipe(_, _)
            | PlanFault::Expand {
                package: _,
                variable: _,
                fault: _,
            }
            | PlanFault::PatchFile(_)
            | PlanFault::NoRecipe(_)
            | PlanFault::UnknownDependency(_, _)
            | PlanFault::NotSelected(_, _)
            | PlanFault::TooManyPackages
            | PlanFault::Cycle(_)
            | PlanFault::Memory => {}
        }
    }
}

impl From<Memory> for PlanFault {
    ghost use Rattle.recipe_set.specs.declared.fault.PlanFault.TheVariants.{Memory as no_memory};

    ghost from_gives = { λ _ fault. fault ≡ no_memory };

    fn from(_memory: Memory) -> PlanFault {
        PlanFault::Memory
    }
}

impl From<AllocError> for PlanFault {
    ghost use Rattle.recipe_set.specs.declared.fault.PlanFault.TheVariants.{Memory as no_memory};

    ghost from_gives = { λ _ fault. fault ≡ no_memory };

    fn from(_error: AllocError) -> PlanFault {
        PlanFault::Memory
    }
}

impl<T: Drop> From<AllocFailed<T>> for PlanFault {
    ghost use Rattle.recipe_set.specs.declared.fault.PlanFault.TheVariants.{Memory as no_memory};

    ghost from_gives = { λ _ fault. fault ≡ no_memory };

    fn from(_error: AllocFailed<T>) -> PlanFault {
        PlanFault::Memory
    }
}
