//! Laws of the serial build. Each is a function that does nothing, and ensures the law.
ghost use Rattle.std.specs.Prelude.{◌≡◌, ◌<◌, ℕ, false, length};
ghost use Rattle.dep_graph.specs.Needs.{IsNeeds, needs_of};
ghost use Rattle.plan_rows.specs.Plan.{Planned, IsPlan};
ghost use Rattle.tree_worlds.specs.Kept.{Keeps};
ghost use Rattle.task_shelves.specs.Grounded.{IsBuilt, AreGrounded};
ghost use Rattle.task_shelves.specs.Labels.{is_among, drawers_on};
ghost use Rattle.task_shelves.specs.Shelf.{Skipped};
ghost use Rattle.pkg_steps.specs.Lines.{Shell};
ghost use Rattle.pkg_steps.specs.Origins.{KeepsEach};
ghost use Rattle.pkg_steps.specs.Outcome.{outcome_of};
ghost use Rattle.serial_build.specs.Limits.{KeepsCounts, IsWithinLimits};
ghost use Rattle.serial_build.specs.Roots.{KeepsRoot};
ghost use Rattle.serial_build.specs.Serial.{handed_to, serial_build, HasNotFailed};
ghost use Rattle.serial_build.specs.Skips.{IsLeastUnbuilt};

/// Each file on a shelf of the serial build was made by a task of the plan's order.
#[tactic(auto, using(crate::proofs::InTurn::serial_drawn))]
pub fn labels_are_drawn()
    ensures { (plan : Planned) (shell : Shell) → KeepsEach Keeps shell → (task other : ℕ) → is_among plan.order other ≡ false → is_among (drawers_on (serial_build plan shell task)) other ≡ false }
{}

/// If all tasks of the serial build are built, what stands in a target tree was written by some package.
///
/// Each entry but the root was left there by a package that wrote its path; a path that a package wrote and that stands no more in
/// its tree was written by another too; a file has the same mode and bytes in all target trees; and a root that its package didn't
/// write has mode 0755, or one that some package gave it. Of the lines it asks that they keep other tasks' files, and the root.
#[tactic(auto, using(crate::proofs::Grounds::serial_grounded))]
pub fn shelves_are_grounded()
    ensures { (plan : Planned) (shell : Shell) → IsPlan plan → KeepsEach Keeps shell → KeepsEach KeepsRoot shell → ((task : ℕ) → task < length plan.rows → IsBuilt (serial_build plan shell task)) → AreGrounded plan (serial_build plan shell) }
{}

/// If no task of the serial build failed, all are built.
#[tactic(auto, using(crate::proofs::Skips::built_unless_failed))]
pub fn skips_come_of_failures()
    ensures { (plan : Planned) (shell : Shell) → IsPlan plan → ((task : ℕ) → task < length plan.rows → HasNotFailed (serial_build plan shell task)) → (task : ℕ) → task < length plan.rows → IsBuilt (serial_build plan shell task) }
{}

/// The shelf of each task is its outcome from the shelves of its needs: no other shelf makes a difference to it.
#[tactic(auto, using(crate::proofs::Fixed::serial_fixed))]
pub fn outcomes_are_of_needs()
    ensures { (plan : Planned) (shell : Shell) → IsPlan plan → (task : ℕ) → task < length plan.rows → serial_build plan shell task ≡ outcome_of plan shell task (handed_to plan (serial_build plan shell) task) }
{}

/// A task that was skipped names the least of its needs that isn't built. That needs rise is so of every graph of needs.
pub fn skips_name_the_least_need()
    ensures { (plan : Planned) (shell : Shell) → IsPlan plan → IsNeeds plan.graph → (task by : ℕ) → task < length plan.rows → serial_build plan shell task ≡ Skipped by → IsLeastUnbuilt (needs_of plan.graph task) (serial_build plan shell) by }
{}

/// The trees of a built task are within the limits: in all four together at most 16,384 names beside the roots, whose paths' texts
/// have at most 1,048,576 bytes. Of the lines it asks that they count what they change.
#[tactic(auto, using(crate::proofs::Counted::serial_within))]
pub fn built_trees_are_within_limits()
    ensures { (plan : Planned) (shell : Shell) → KeepsEach KeepsCounts shell → (task : ℕ) → IsWithinLimits (serial_build plan shell task) }
{}
