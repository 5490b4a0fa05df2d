//! What holds of plans whatever the code does.
ghost use Rattle.std.specs.Prelude.{◌≡◌, ℕ, ◌<◌, List, Result, Ok, Err, length};
ghost use Rattle.br_path.specs.Files.{FileMap};
ghost use Rattle.kc_values.specs.Values.{Table};
ghost use Rattle.plan_rows.specs.Plan.{Planned};
ghost use Rattle.recipe_plan.specs.Planning.{IsNaming, IsPlanning};
ghost use Rattle.recipe_set.specs.declared.fault.PlanFault.{PlanFault};
ghost use Rattle.recipe_set.specs.declared.fault.PlanFault.TheVariants.{Cycle as cycle_fault};

/// A law with nothing to run: files and values have one plan, or one first fault. So `plan` gives the plan where there is one,
/// and else the first fault, unless memory is wanting; and so it is of `task_names`.
pub fn one_plan()
    ensures plan { (files : FileMap) (values : Table) (one other : Result Planned PlanFault) → IsPlanning files values one → IsPlanning files values other → one ≡ other }
    ensures names { (files : FileMap) (values : Table) (one other : Result (List (List ℕ)) PlanFault) → IsNaming files values one → IsNaming files values other → one ≡ other }
{}

/// A law with nothing to run: the task that a fault names as one on a cycle has a name among those that `task_names` gives.
pub fn cycles_have_names()
    ensures { (files : FileMap) (values : Table) (task : ℕ) (names : List (List ℕ)) → IsPlanning files values (Err (cycle_fault task)) → IsNaming files values (Ok names) → task < length names }
{}
