//! The rows of tasks.
use br_path::{Bytes, Numbers, Path};
use std::marker::Model;

/// What a task does for its package.
#[derive(Clone, Copy, Debug, PartialEq, Eq)]
pub enum Part {
    /// It extracts and patches the source.
    Prep,
    /// It configures, builds and installs.
    Make,
}

/// A step of a task.
#[derive(Clone, Copy, Debug, PartialEq, Eq)]
pub enum Step {
    /// The trees are filled from those of needed tasks. A task can fail here, but no row has this step.
    Populate,
    /// The source is taken.
    Extract,
    /// The source is patched.
    Patch,
    /// The build is configured.
    Configure,
    /// The package is built.
    Build,
    /// A host package is installed.
    Host,
    /// A target package is installed for those that are built with it.
    Staging,
    /// A target package is installed into the root file system.
    Target,
}

/// A line that is run.
#[derive(Debug, Drop)]
pub struct CommandLine {
    /// Whether its failure is ignored, as the mark `-` says.
    pub ignore: bool,
    /// The line without its leading blanks and marks.
    pub text: Bytes,
}

/// Lines in the order in which they are run.
#[derive(Debug, Drop)]
pub struct Lines {
    pub items: Vec<CommandLine>,
}

impl Model for Lines {
    ghost use Rattle.std.specs.Prelude.{List};
    ghost use Rattle.plan_rows.specs.declared.rows.CommandLine.{CommandLine};

    ghost Value = { List CommandLine };

    ghost view = { λ l. l.items.items };
}

/// What is run in a step.
#[derive(Debug, Drop)]
pub struct StepRow {
    pub step: Step,
    /// The hooks before the step.
    pub before: Lines,
    /// Whether the source of the package is copied in place of commands.
    pub copy_source: bool,
    /// The commands of the step.
    pub lines: Lines,
    /// The hooks after the step.
    pub after: Lines,
}

/// Steps in the order in which they are run.
#[derive(Debug, Drop)]
pub struct StepRows {
    pub items: Vec<StepRow>,
}

impl Model for StepRows {
    ghost use Rattle.std.specs.Prelude.{List};
    ghost use Rattle.plan_rows.specs.declared.rows.StepRow.{StepRow};

    ghost Value = { List StepRow };

    ghost view = { λ s. s.items.items };
}

/// What a task does, and what it needs.
#[derive(Debug, Drop)]
pub struct TaskRow {
    /// The name of its package.
    pub package: Bytes,
    /// The folder of the package's recipe.
    pub folder: Path,
    /// Whether it is a host package.
    pub host: bool,
    pub part: Part,
    pub steps: StepRows,
    /// The make tasks whose trees fill those of this task.
    pub fills: Numbers,
    /// The prep task of the same package, where this is its make.
    pub own_prep: Option<u32>,
    /// The prep tasks whose build trees may be read.
    pub readable: Numbers,
}

/// Rows in the order of the tasks' numbers.
#[derive(Debug, Drop)]
pub struct TaskRows {
    pub items: Vec<TaskRow>,
}

impl Model for TaskRows {
    ghost use Rattle.std.specs.Prelude.{List};
    ghost use Rattle.plan_rows.specs.declared.rows.TaskRow.{TaskRow};

    ghost Value = { List TaskRow };

    ghost view = { λ r. r.items.items };
}
