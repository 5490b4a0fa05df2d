//! Laws of recipe lines. Each is a function that does nothing, and ensures the law.
ghost use Rattle.br_path.specs.Files.{FileMap};
ghost use Rattle.tree_worlds.specs.Kept.{Keeps};
ghost use Rattle.pkg_steps.specs.Origins.{KeepsEach};
ghost use Rattle.serial_build.specs.Limits.{KeepsCounts};
ghost use Rattle.serial_build.specs.Roots.{KeepsRoot};
ghost use Rattle.build_workers.specs.Recipes.{recipe_shell};

/// The lines of recipes keep what each command keeps: other tasks' files, the areas that the task may not change, the limits.
#[tactic(auto, using(crate::proofs::Recipes::recipes_keep))]
pub fn lines_keep()
    ensures { (files : FileMap) → KeepsEach Keeps (recipe_shell files) }
{}

/// And they take no root away.
#[tactic(auto, using(crate::proofs::Recipes::recipes_keep_root))]
pub fn lines_keep_the_root()
    ensures { (files : FileMap) → KeepsEach KeepsRoot (recipe_shell files) }
{}

/// And they count what they change, so that each built task is within its limits.
#[tactic(auto, using(crate::proofs::Recipes::recipes_keep_counts))]
pub fn lines_keep_the_counts()
    ensures { (files : FileMap) → KeepsEach KeepsCounts (recipe_shell files) }
{}
