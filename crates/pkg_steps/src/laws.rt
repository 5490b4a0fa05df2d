//! What is known of tasks, whatever their lines do.
ghost use Rattle.std.specs.Prelude.{◌≡◌, ◌++◌, ◌∷◌, [], ℕ, List, true, flat_map};
ghost use Rattle.plan_rows.specs.Plan.{Planned};
ghost use Rattle.tree_worlds.specs.Kept.{Keeps};
ghost use Rattle.task_shelves.specs.Shelf.{ShelfData};
ghost use Rattle.task_shelves.specs.Labels.{are_among, drawers_on};
ghost use Rattle.pkg_steps.specs.Lines.{Shell};
ghost use Rattle.pkg_steps.specs.Origins.{KeepsEach};
ghost use Rattle.pkg_steps.specs.Outcome.{outcome_of};

/// A law with nothing to run: each file on a task's shelf is the task's own, or was on the shelf of a need, if no
/// line changes other tasks' files.
pub fn labels_are_handed_in()
    ensures { (plan : Planned) (shell : Shell) (task : ℕ) (shelves : List ShelfData) → KeepsEach Keeps shell
        → are_among (flat_map drawers_on shelves ++ task ∷ []) (drawers_on (outcome_of plan shell task shelves)) ≡ true }
{}
