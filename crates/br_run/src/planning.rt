//! The plan of files, or the first fault of the input.
ghost use Rattle.std.specs.Prelude.{◌≡◌, ◌≢◌, Ok, Err, IfOk, IfErr, OnOk};
ghost use Rattle.br_path.specs.Files.{AreSmall};
ghost use Rattle.br_run.specs.Fault.{HasLine, Tells};
ghost use Rattle.br_run.specs.Planned.{AreNamesFor, IsInputFault, IsPlanFault, IsPlanOf, IsPlanWith};
ghost use Rattle.recipe_plan.specs.Planning.{IsPlanning};
ghost use Rattle.recipe_set.specs.declared.fault.PlanFault.TheVariants.{Memory as no_memory};
ghost use Rattle.recipe_set.specs.Fault.{HoldsNoMemory};

use crate::configuration::configuration_of;
use crate::fault::{NoAnswer, no_names};
use br_path::{Files, Memory, Names};
use build_report::InputFault;
use kc_values::Values;
use plan_rows::Plan;
use recipe_plan::{plan, task_names};
use recipe_set::PlanFault;
use std::alloc::Global;

/// A plan, and the symbols that the configuration forces.
#[derive(Drop)]
pub(crate) struct Planning {
    pub(crate) plan: Plan,
    pub(crate) forced: Names,
}

/// The plan of files at the values of their configuration.
pub(crate) fn plan_of(alloc: Global, files: &Files) -> Result<Plan, NoAnswer>
    requires { AreSmall files.now }
    ensures plan { IfOk result (IsPlanOf files.now) }
    ensures fault { IfErr result (Tells (IsInputFault files.now)) }
    ensures line { IfErr result HasLine }
{
    match planning_of(alloc, files) {
        Ok(planning) => Ok(planning.plan),
        Err(fault) => Err(fault),
    }
}

/// The same plan, and the symbols that are forced.
pub(crate) fn planning_of(alloc: Global, files: &Files) -> Result<Planning, NoAnswer>
    requires { AreSmall files.now }
    ensures plan { IfOk result (λ planning. IsPlanWith files.now planning.plan planning.forced) }
    ensures fault { IfErr result (Tells (IsInputFault files.now)) }
    ensures line { IfErr result HasLine }
{
    let configuration = match configuration_of(alloc, files) {
        Ok(configuration) => configuration,
        Err(fault) => return Err(fault),
    };
    match plan_at(alloc, files, &configuration.values) {
        Ok(plan) => Ok(Planning {
            plan,
            forced: configuration.forced,
        }),
        Err(fault) => Err(fault),
    }
}

/// The plan of files at values.
fn plan_at(alloc: Global, files: &Files, values: &Values) -> Result<Plan, NoAnswer>
    requires { AreSmall files.now }
    ensures plan { IfOk result (λ plan. IsPlanning files.now values.now (Ok plan)) }
    ensures fault { IfErr result (Tells (IsPlanFault files.now values.now)) }
    ensures line { IfErr result HasLine }
{
    match plan(alloc, files, values) {
        Ok(plan) => Ok(plan),
        Err(fault) => Err(no_plan(alloc, files, values, fault)),
    }
}

/// The first fault of the plan of files and values, with the names that its line takes.
fn no_plan(alloc: Global, files: &Files, values: &Values, fault: PlanFault) -> NoAnswer
    requires small { AreSmall files.now }
    requires first { fault ≢ no_memory → IsPlanning files.now values.now (Err fault) }
    requires held { HoldsNoMemory fault }
    ensures fault { Tells (IsPlanFault files.now values.now) result }
    ensures line { HasLine result }
{
    match names_for(alloc, files, values, &fault) {
        Ok(names) => NoAnswer::Fault(InputFault::Plan(fault), names),
        Err(_) => NoAnswer::Memory,
    }
}

/// The names that the line of a fault takes: those of the tasks for a cycle, and none for other faults.
fn names_for(
    alloc: Global,
    files: &Files,
    values: &Values,
    fault: &PlanFault,
) -> Result<Names, Memory>
    requires { AreSmall files.now }
    ensures names { IfOk result (AreNamesFor files.now values.now fault.now) }
    ensures memory { OnOk result (fault.now ≢ no_memory) }
{
    match fault {
        // Tasks whose needs have a cycle have names, so that memory alone can run out.
        PlanFault::Cycle(_) => match task_names(alloc, files, values) {
            Ok(names) => Ok(names),
            Err(_) => Err(Memory),
        },
        PlanFault::Memory => Err(Memory),
        _ => Ok(no_names(alloc)),
    }
}
