//! The steps of a task, and what is run in them.
ghost use Rattle.std.specs.Prelude.{◌≡◌, ◌≤◌, ◌++◌, [], IfOk, codes};
ghost use Rattle.recipe_set.specs.Names.{upper_form};
ghost use Rattle.recipe_plan.specs.Answers.{Gives, Leaves};
ghost use Rattle.recipe_plan.specs.Steps.{commands, commands_of, copies, default_of, has_commands, has_step, is_extract, is_set, put_row, put_step, setting, step_name, step_row, steps_of, task_steps, variable_of};
ghost use Rattle.recipe_plan.specs.Owned.{IsOwner};
ghost use Rattle.recipe_plan.specs.Texts.{hooks, put_variable};
ghost use Rattle.plan_rows.specs.declared.rows.Part.TheVariants.{Make};

use crate::texts::{Owner, Texts};
use br_path::{Bytes, Memory};
use plan_rows::{Part, Step, StepRow, StepRows};
use recipe_set::{PlanFault, upper_form};
use std::alloc::Global;
use std::marker::Model;

/// The steps of a task of a package.
pub(crate) fn task_steps(
    alloc: Global,
    owner: &Owner<'_>,
    part: Part,
) -> Result<StepRows, PlanFault>
    requires { IsOwner owner.now }
    ensures { Gives (task_steps owner.now.vars.now owner.now.made.now part) result }
{
    let mut steps = Steps::new(alloc);
    for step in steps_of(part, owner.made.host) {
        steps.put_step(alloc, owner, *step)?;
    }
    Ok(steps.into_rows())
}

/// The steps that a task may have, in their order.
fn steps_of(part: Part, host: bool) -> &'static [Step]
    ensures { result.now ≡ steps_of part host }
{
    match part {
        Part::Prep => &[Step::Extract, Step::Patch],
        Part::Make => install_steps(host),
    }
}

/// The steps of a make.
fn install_steps(host: bool) -> &'static [Step]
    ensures { result.now ≡ steps_of Make host }
{
    if host {
        return &[Step::Configure, Step::Build, Step::Host];
    }
    &[Step::Configure, Step::Build, Step::Staging, Step::Target]
}

/// Steps, and how many bytes their texts have.
#[derive(Drop)]
struct Steps {
    rows: Vec<StepRow>,
    bytes: usize,
}

impl Model for Steps {
    ghost use Rattle.std.specs.Prelude.{ℕ, List, ◌≤◌};
    ghost use Rattle.plan_rows.specs.declared.rows.StepRow.{StepRow};

    ghost Value = { List StepRow × ℕ };

    ghost view = { λ s. (s.rows.items, s.bytes) };

    ghost invariant = { λ s. s.bytes ≤ 262144 };
}

impl Steps {
    fn new(alloc: Global) -> Steps
        ensures { result ≡ ([], 0) }
    {
        Steps {
            rows: Vec::new(alloc),
            bytes: 0,
        }
    }

    /// Puts a step after the others, if the package has it.
    fn put_step(&mut self, alloc: Global, owner: &Owner<'_>, step: Step) -> Result<(), PlanFault>
        requires { IsOwner owner.now }
        ensures { Leaves (put_step owner.now.vars.now owner.now.made.now self.old step) result self.new }
    {
        let has = has_step(alloc, owner, step)?;
        if has {
            return self.put_row(alloc, owner, step);
        }
        Ok(())
    }

    /// Puts a step that the package has after the others.
    fn put_row(&mut self, alloc: Global, owner: &Owner<'_>, step: Step) -> Result<(), PlanFault>
        requires { IsOwner owner.now }
        ensures { Leaves (put_row owner.now.vars.now owner.now.made.now self.old step) result self.new }
    {
        let (row, bytes) = step_row(alloc, owner, self.bytes, step)?;
        self.rows.push(row)?;
        self.bytes = bytes;
        Ok(())
    }

    fn into_rows(self) -> StepRows
        ensures { result ≡ self.0 }
    {
        StepRows { items: self.rows }
    }
}

/// What is run in a step that the package has, and how many bytes the texts have after it.
fn step_row(
    alloc: Global,
    owner: &Owner<'_>,
    bytes: usize,
    step: Step,
) -> Result<(StepRow, usize), PlanFault>
    requires owner { IsOwner owner.now }
    requires bytes { bytes ≤ 262144 }
    ensures row { Gives (step_row owner.now.vars.now owner.now.made.now bytes step) result }
    ensures bytes { IfOk result (λ row. row.1 ≤ 262144) }
{
    let copy_source = copies(alloc, owner, step)?;
    let before = step_hooks(alloc, owner, bytes, b"_PRE_", step)?;
    let lines = commands(alloc, owner, before.bytes(), step)?;
    let after = step_hooks(alloc, owner, lines.bytes(), b"_POST_", step)?;
    let bytes = after.bytes();
    let row = StepRow {
        step,
        before: before.into_lines(),
        copy_source,
        lines: lines.into_lines(),
        after: after.into_lines(),
    };
    Ok((row, bytes))
}

/// The lines of the hooks before a step, or of those after it, by what stands before the step's name.
fn step_hooks(
    alloc: Global,
    owner: &Owner<'_>,
    bytes: usize,
    front: &[u8],
    step: Step,
) -> Result<Texts, PlanFault>
    requires owner { IsOwner owner.now }
    requires bytes { bytes ≤ 262144 }
    ensures { Gives (hooks owner.now.vars.now owner.now.made.now bytes (variable_of owner.now.made.now front.now step (codes "_HOOKS"))) result }
{
    let variable = variable(alloc, owner, front, step, b"_HOOKS")?;
    Texts::hooks(alloc, owner, bytes, variable.as_slice())
}

/// The lines of a step's commands.
fn commands(alloc: Global, owner: &Owner<'_>, bytes: usize, step: Step) -> Result<Texts, PlanFault>
    requires owner { IsOwner owner.now }
    requires bytes { bytes ≤ 262144 }
    ensures { Gives (commands owner.now.vars.now owner.now.made.now bytes step) result }
{
    if !has_commands(step) || copies(alloc, owner, step)? {
        return Ok(Texts::behind(alloc, bytes));
    }
    set_commands(alloc, owner, bytes, step)
}

/// The lines of the variable that sets a step's commands.
fn set_commands(
    alloc: Global,
    owner: &Owner<'_>,
    bytes: usize,
    step: Step,
) -> Result<Texts, PlanFault>
    requires owner { IsOwner owner.now }
    requires bytes { bytes ≤ 262144 }
    ensures { Gives (put_variable owner.now.vars.now owner.now.made.now ([], bytes) (commands_of owner.now.made.now step)) result }
{
    let variable = variable(alloc, owner, b"_", step, b"_CMDS")?;
    Texts::of_variable(alloc, owner, bytes, variable.as_slice())
}

/// Whether the source is copied in place of commands: to extract, where those aren't set.
fn copies(alloc: Global, owner: &Owner<'_>, step: Step) -> Result<bool, Memory>
    ensures { IfOk result (λ copied. copied ≡ copies owner.now.vars.now owner.now.made.now step) }
{
    let variable = variable(alloc, owner, b"_", step, b"_CMDS")?;
    Ok(is_extract(step) && !is_set(owner, &variable))
}

/// Whether a package has a step.
fn has_step(alloc: Global, owner: &Owner<'_>, step: Step) -> Result<bool, PlanFault>
    requires { IsOwner owner.now }
    ensures { Gives (has_step owner.now.vars.now owner.now.made.now step) result }
{
    match default_of(step) {
        None => Ok(true),
        Some(default) => setting(alloc, owner, step, default),
    }
}

/// What a setting says: `YES`, and nothing else, is yes.
fn setting(alloc: Global, owner: &Owner<'_>, step: Step, default: bool) -> Result<bool, PlanFault>
    requires { IsOwner owner.now }
    ensures { Gives (setting owner.now.vars.now owner.now.made.now step default) result }
{
    let variable = variable(alloc, owner, b"_", step, b"")?;
    if !is_set(owner, &variable) {
        return Ok(default);
    }
    let text = owner.value(alloc, variable.as_slice())?;
    Ok(text.as_slice() == b"YES".as_slice())
}

/// Whether a variable is set.
fn is_set(owner: &Owner<'_>, variable: &Bytes) -> bool
    ensures { result ≡ is_set owner.now.vars.now variable.now }
{
    owner.vars.is_simple(variable.as_slice()).is_some()
}

/// A variable of a package's step, by what stands before and after the step's name.
fn variable(
    alloc: Global,
    owner: &Owner<'_>,
    front: &[u8],
    step: Step,
    back: &[u8],
) -> Result<Bytes, Memory>
    ensures { IfOk result (λ variable. variable ≡ variable_of owner.now.made.now front.now step back.now) }
{
    let mut name = upper_form(alloc, owner.made.name.as_slice())?;
    name.items.extend_from_slice(front)?;
    name.items.extend_from_slice(step_name(step))?;
    name.items.extend_from_slice(back)?;
    Ok(name)
}

/// What the variables of a step are named by.
fn step_name(step: Step) -> &'static [u8]
    ensures { result.now ≡ step_name step }
{
    match step {
        Step::Populate => b"POPULATE",
        Step::Extract => b"EXTRACT",
        Step::Patch => b"PATCH",
        Step::Configure => b"CONFIGURE",
        Step::Build => b"BUILD",
        Step::Host => b"INSTALL",
        Step::Staging => b"INSTALL_STAGING",
        Step::Target => b"INSTALL_TARGET",
    }
}

/// Where a step has a setting, whether the step is there while the setting is unset.
fn default_of(step: Step) -> Option<bool>
    ensures { result ≡ default_of step }
{
    match step {
        Step::Staging => Some(false),
        Step::Target => Some(true),
        _ => None,
    }
}

/// Whether a step has commands of its own; a patch has hooks alone.
fn has_commands(step: Step) -> bool
    ensures { result ≡ has_commands step }
{
    !matches!(step, Step::Patch | Step::Populate)
}

fn is_extract(step: Step) -> bool
    ensures { result ≡ is_extract step }
{
    matches!(step, Step::Extract)
}
