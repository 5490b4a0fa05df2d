//! Answers of the plan of a case's input.
ghost use Rattle.std.specs.Prelude.{◌≡◌, true, All};
ghost use Rattle.build_report.specs.Faults.{HasPlanLine};
ghost use Rattle.plan_rows.specs.declared.rows.Part.TheVariants.{Prep};
ghost use Rattle.plan_rows.specs.Plan.{IsTask};

use crate::input::Input;
use crate::rows::print_row;
use br_path::{Names, Numbers};
use build_report::{InputFault, fault_text, names_text, plan_text};
use case_text::{Page, SmallFiles, Stopped, found, word};
use kc_values::Values;
use mk_expand::ExpandFault;
use plan_rows::Plan;
use recipe_plan::{depends, plan, rdepends, recursive_depends, task_names};
use recipe_set::PlanFault;
use std::alloc::Global;

/// What a line asks of a plan.
#[derive(Clone, Copy)]
enum Question {
    Names,
    Order,
    Rows,
    Count,
    Find,
    Depends,
    Recursive,
    Users,
}

const QUESTIONS: [(&[u8], Question); 8] = [
    (b"names", Question::Names),
    (b"order", Question::Order),
    (b"rows", Question::Rows),
    (b"count", Question::Count),
    (b"find", Question::Find),
    (b"depends", Question::Depends),
    (b"recursive", Question::Recursive),
    (b"users", Question::Users),
];

/// Answers a question about the plan, or prints its first fault.
pub(crate) fn answer_plan(
    alloc: Global,
    page: &mut Page,
    input: &Input,
    line: &[u8],
) -> Result<(), Stopped> {
    let (word, name) = word(line);
    let question = found(&QUESTIONS, word)?;
    let files = input.files()?;
    match question {
        Question::Names => answer_names(alloc, page, &files, input.values()),
        _ => answer_planned(alloc, page, &files, input.values(), question, name),
    }
}

fn answer_planned(
    alloc: Global,
    page: &mut Page,
    files: &SmallFiles,
    values: &Values,
    question: Question,
    name: &[u8],
) -> Result<(), Stopped> {
    match plan(alloc, files.get(), values) {
        Ok(plan) => answer(alloc, page, &plan, question, name),
        Err(fault) => print_named(alloc, page, files, values, fault),
    }
}

/// The names of the tasks, or their first fault.
fn answer_names(
    alloc: Global,
    page: &mut Page,
    files: &SmallFiles,
    values: &Values,
) -> Result<(), Stopped> {
    match task_names(alloc, files.get(), values) {
        Ok(names) => print_names(page, &names),
        Err(fault) => print_unnamed(alloc, page, fault),
    }
}

/// Prints a fault with the names of the tasks.
fn print_named(
    alloc: Global,
    page: &mut Page,
    files: &SmallFiles,
    values: &Values,
    fault: PlanFault,
) -> Result<(), Stopped> {
    let names = names_for(alloc, files, values, &fault)?;
    print_fault(alloc, page, &names, fault)
}

/// The names that the line of a fault takes: those of the tasks for a cycle, and none for other faults.
fn names_for(
    alloc: Global,
    files: &SmallFiles,
    values: &Values,
    fault: &PlanFault,
) -> Result<Names, Stopped> {
    match fault {
        PlanFault::Cycle(_) => match task_names(alloc, files.get(), values) {
            Ok(names) => Ok(names),
            Err(_) => Err(Stopped),
        },
        _ => Ok(no_names(alloc)),
    }
}

fn no_names(alloc: Global) -> Names {
    Names {
        items: Vec::new(alloc),
    }
}

/// Prints a fault that has no task in it.
pub(crate) fn print_unnamed(
    alloc: Global,
    page: &mut Page,
    fault: PlanFault,
) -> Result<(), Stopped> {
    print_fault(alloc, page, &no_names(alloc), fault)
}

/// Prints the line of a fault. Out of memory has none, and stops the program.
fn print_fault(
    alloc: Global,
    page: &mut Page,
    names: &Names,
    fault: PlanFault,
) -> Result<(), Stopped> {
    if !has_line(&fault, names) {
        return Err(Stopped);
    }
    let line = fault_text(alloc, &InputFault::Plan(fault), names)?;
    page.lines(b"    ", line.as_slice())
}

/// Whether a fault has a line: it isn't out of memory, and a task on a cycle has a name.
fn has_line(fault: &PlanFault, names: &Names) -> bool
    ensures { result ≡ true → HasPlanLine names.now fault.now }
{
    match fault {
        PlanFault::Expand { fault, .. } => !matches!(fault, ExpandFault::Memory),
        PlanFault::Cycle(task) => (*task as usize) < names.items.len(),
        PlanFault::Memory => false,
        _ => true,
    }
}

fn print_names(page: &mut Page, names: &Names) -> Result<(), Stopped> {
    if names.items.is_empty() {
        return page.line(b"    nothing", b"");
    }
    for name in &names.items {
        page.line(b"    ", name.as_slice())?;
    }
    Ok(())
}

/// Answers a question about a plan.
fn answer(
    alloc: Global,
    page: &mut Page,
    plan: &Plan,
    question: Question,
    name: &[u8],
) -> Result<(), Stopped> {
    match question {
        Question::Order => print_lines(page, plan_text(alloc, plan)?.as_slice()),
        Question::Rows => print_rows(page, plan, name),
        Question::Count => page.numbers(b"    tasks", &[plan.count()]),
        _ => answer_named(alloc, page, plan, question, name),
    }
}

/// Answers a question about the package of a name.
fn answer_named(
    alloc: Global,
    page: &mut Page,
    plan: &Plan,
    question: Question,
    name: &[u8],
) -> Result<(), Stopped> {
    match plan.find(name) {
        None => page.line(b"    no package", b""),
        Some(prep) => answer_package(alloc, page, plan, question, prep),
    }
}

/// The rows of the tasks: all, or those of one package.
fn print_rows(page: &mut Page, plan: &Plan, name: &[u8]) -> Result<(), Stopped> {
    for (task, row) in plan.rows().iter().enumerate() {
        if name.is_empty() || row.package.as_slice() == name {
            print_row(page, task, row)?;
        }
    }
    Ok(())
}

/// Answers a question about a package, by its prep task.
fn answer_package(
    alloc: Global,
    page: &mut Page,
    plan: &Plan,
    question: Question,
    prep: u32,
) -> Result<(), Stopped>
    requires { IsTask plan.now Prep prep }
{
    match question {
        Question::Find => page.numbers(b"    prep", &[prep]),
        Question::Depends => print_packages(alloc, page, plan, &depends(alloc, plan, prep)?),
        Question::Recursive => {
            print_packages(alloc, page, plan, &recursive_depends(alloc, plan, prep)?)
        }
        Question::Users => print_packages(alloc, page, plan, &rdepends(alloc, plan, prep)?),
        _ => Err(Stopped),
    }
}

/// The packages of prep tasks, by their names.
#[tactic(auto, using(crate::proofs::Within::tasks_within))]
fn print_packages(
    alloc: Global,
    page: &mut Page,
    plan: &Plan,
    tasks: &Numbers,
) -> Result<(), Stopped>
    requires { All (IsTask plan.now Prep) tasks.now }
{
    print_lines(page, names_text(alloc, plan, tasks)?.as_slice())
}

/// The lines of a text, or that there are none.
fn print_lines(page: &mut Page, text: &[u8]) -> Result<(), Stopped> {
    if text.is_empty() {
        return page.line(b"    nothing", b"");
    }
    page.lines(b"    ", text)
}
