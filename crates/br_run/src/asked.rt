//! A package that is asked for, in the plan of files.
ghost use Rattle.std.specs.Prelude.{IfOk, IfErr};
ghost use Rattle.br_path.specs.Files.{AreSmall};
ghost use Rattle.plan_rows.specs.Plan.{IsPrepOf};
ghost use Rattle.br_run.specs.Fault.{HasLine, Tells};
ghost use Rattle.br_run.specs.Planned.{IsPlanOf};
ghost use Rattle.br_run.specs.Shown.{IsShowFault};

use crate::fault::NoAnswer;
use crate::planning::plan_of;
use br_path::{Bytes, Files};
use build_report::InputFault;
use plan_rows::Plan;
use std::alloc::Global;

/// A plan, and a package of it by its prep task.
#[derive(Drop)]
pub(crate) struct Asked {
    pub(crate) plan: Plan,
    pub(crate) prep: u32,
}

/// The plan of files, and the package of a name in it.
pub(crate) fn asked_of(alloc: Global, files: &Files, name: &[u8]) -> Result<Asked, NoAnswer>
    requires { AreSmall files.now }
    ensures plan { IfOk result (λ asked. IsPlanOf files.now asked.plan) }
    ensures prep { IfOk result (λ asked. IsPrepOf asked.plan name.now asked.prep) }
    ensures fault { IfErr result (Tells (IsShowFault files.now name.now)) }
    ensures line { IfErr result HasLine }
{
    let plan = match plan_of(alloc, files) {
        Ok(plan) => plan,
        Err(fault) => return Err(fault),
    };
    match plan.find(name) {
        Some(prep) => Ok(Asked { plan, prep }),
        None => {
            let name = Bytes::from_slice(alloc, name)?;
            Err(NoAnswer::of(alloc, InputFault::NoPackage(name)))
        }
    }
}
