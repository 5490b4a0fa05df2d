//! What a task's row says of a needed task.
ghost use Rattle.std.specs.Prelude.{◌≡◌};
ghost use Rattle.task_shelves.specs.Labels.{is_among};
ghost use Rattle.pkg_steps.specs.Filling.{is_own_prep, is_prep};

use plan_rows::{Part, TaskRow};

/// Whether a task is the prep task of the row's own package.
pub(crate) fn is_own_prep(row: &TaskRow, task: u32) -> bool
    ensures { result ≡ is_own_prep row.now.own_prep task }
{
    match row.own_prep {
        None => false,
        Some(own) => own == task,
    }
}

/// Whether the trees of a task fill those of the row's.
pub(crate) fn fills(row: &TaskRow, task: u32) -> bool
    ensures { result ≡ is_among row.now.fills task }
{
    row.fills.items.contains(&task)
}

/// Whether the build tree of a task may be read.
pub(crate) fn may_read(row: &TaskRow, task: u32) -> bool
    ensures { result ≡ is_among row.now.readable task }
{
    row.readable.items.contains(&task)
}

pub(crate) fn is_prep(row: &TaskRow) -> bool
    ensures { result ≡ is_prep row.now.part }
{
    match row.part {
        Part::Prep => true,
        Part::Make => false,
    }
}
