//! The serial build.
ghost use Rattle.std.specs.Prelude.{◌≡◌, ℕ, IfOk, length};
ghost use Rattle.serial_build.specs.Serial.{shelves_data, serial_build};
ghost use Rattle.build_workers.specs.Recipes.{recipe_shell};

use crate::commands::RecipeLines;
use br_path::{Files, Memory};
use plan_rows::Plan;
use serial_build::{Outcomes, run_serially};
use std::alloc::Global;
use tree_ops::TreeOps;

/// Runs the tasks of a plan one after another, in the plan's order, and gives their shelves.
///
/// Each task is run from the shelves of its needs. A task with a need that isn't built is skipped. The time is that of the
/// tasks; all shelves are kept.
#[tactic(auto, using(crate::proofs::Recipes::recipes_keep))]
pub fn serial<T: TreeOps>(alloc: Global, plan: &Plan, files: &Files) -> Result<Outcomes<T>, Memory>
    ensures count { IfOk result (λ o. length o ≡ length plan.now.rows) }
    ensures shelves { IfOk result (λ o. (task : ℕ) → shelves_data T.tree o task ≡ serial_build plan.now (recipe_shell files.now) task) }
{
    run_serially(alloc, plan, &RecipeLines { files })
}
