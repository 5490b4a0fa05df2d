//! The show commands: the packages that a package of the plan depends on, or those that depend on it.
ghost use Rattle.std.specs.Prelude.{All, IfOk};
ghost use Rattle.std.specs.List.Sorted.{IsStrictlyIncreasing};
ghost use Rattle.br_path.specs.Files.{AreSmall};
ghost use Rattle.plan_rows.specs.declared.rows.Part.TheVariants.{Prep};
ghost use Rattle.plan_rows.specs.Plan.{IsTask};
ghost use Rattle.recipe_plan.specs.Packages.{ArePackages};
ghost use Rattle.br_run.specs.Answer.{IsShowAnswer};
ghost use Rattle.br_run.specs.Shown.{relation_of};

use crate::answer::{Answer, answer_fault, answer_text};
use crate::asked::asked_of;
use br_path::{Files, Memory, Numbers};
use build_report::names_text;
use plan_rows::Plan;
use recipe_plan::{depends, rdepends, recursive_depends};
use std::alloc::Global;

/// Which packages are shown for one.
#[derive(Clone, Copy)]
pub(crate) enum Show {
    /// Those that it depends on.
    Depends,
    /// Those that it depends on by one step or more.
    Recursive,
    /// Those that depend on it.
    Rdepends,
}

/// Finds the answer to files of which packages are to be shown: a line for each of them, or why there are none.
pub(crate) fn answer_show(
    alloc: Global,
    files: &Files,
    name: &[u8],
    show: Show,
) -> Result<Answer, Memory>
    requires { AreSmall files.now }
    ensures { IfOk result (IsShowAnswer (relation_of show) name.now files.now) }
{
    let asked = match asked_of(alloc, files, name) {
        Ok(asked) => asked,
        Err(fault) => return answer_fault(alloc, &fault),
    };
    let tasks = shown(alloc, &asked.plan, asked.prep, show)?;
    Ok(answer_text(names_text(alloc, &asked.plan, &tasks)?))
}

/// The packages that are shown for one, all by their prep tasks.
fn shown(alloc: Global, plan: &Plan, prep: u32, show: Show) -> Result<Numbers, Memory>
    requires { IsTask plan.now Prep prep }
    ensures rising { IfOk result IsStrictlyIncreasing }
    ensures packages { IfOk result (λ tasks. ArePackages prep tasks (relation_of show plan.now.graph)) }
    ensures preps { IfOk result (All (IsTask plan.now Prep)) }
{
    match show {
        Show::Depends => depends(alloc, plan, prep),
        Show::Recursive => recursive_depends(alloc, plan, prep),
        Show::Rdepends => rdepends(alloc, plan, prep),
    }
}
