//! The command `plan`: the tasks in the order in which they are taken, each with what it needs, or the first fault.
ghost use Rattle.std.specs.Prelude.{IfOk};
ghost use Rattle.br_path.specs.Files.{AreSmall};
ghost use Rattle.br_run.specs.Answer.{IsPlanAnswer};

use crate::answer::{Answer, answer_fault, answer_text};
use crate::planning::plan_of;
use br_path::{Files, Memory};
use build_report::plan_text;
use std::alloc::Global;

/// Finds the answer to files whose plan is asked for.
pub fn answer_plan(alloc: Global, files: &Files) -> Result<Answer, Memory>
    requires { AreSmall files.now }
    ensures { IfOk result (IsPlanAnswer files.now) }
{
    let plan = match plan_of(alloc, files) {
        Ok(plan) => plan,
        Err(fault) => return answer_fault(alloc, &fault),
    };
    Ok(answer_text(plan_text(alloc, &plan)?))
}
