//! The changes that a script asks for, and what they answer.
ghost use Rattle.tree_worlds.specs.Steps.{IsModest};

use crate::act::Change;
use crate::faults::print_change;
use crate::tasks::Tasks;
use crate::text::{is_link_text, mode, path};
use br_path::Area;
use case_text::{Page, Stopped, number, word};
use tree_ops::TreeOps;
use tree_worlds::{CommandError, Reason, Step};

/// Makes a change of the tree of an area.
pub(crate) fn change<T: TreeOps>(
    page: &mut Page,
    tasks: &mut Tasks<T>,
    area: Area,
    change: Change,
    text: &[u8],
) -> Result<(), Stopped> {
    match change {
        Change::MakeFile | Change::SetMode | Change::Mkdir => {
            with_mode(page, tasks, area, change, text)
        }
        Change::Link | Change::Rename => with_two_paths(page, tasks, area, change, text),
        _ => with_path(page, tasks, area, change, text),
    }
}

/// A change whose text is a mode, a path and, if it makes a file, its bytes.
fn with_mode<T: TreeOps>(
    page: &mut Page,
    tasks: &mut Tasks<T>,
    area: Area,
    change: Change,
    text: &[u8],
) -> Result<(), Stopped> {
    let (bits, text) = word(text);
    let (at, bytes) = word(text);
    let mode = mode(bits)?;
    let at = path(page.alloc(), at)?;
    match change {
        Change::MakeFile => act(page, tasks, area, Step::MakeFile(&at, mode, bytes)),
        Change::SetMode => act(page, tasks, area, Step::SetMode(&at, mode)),
        _ => act(page, tasks, area, Step::MakeDir(&at, mode)),
    }
}

/// A change whose text is a path and what the change puts there.
fn with_path<T: TreeOps>(
    page: &mut Page,
    tasks: &mut Tasks<T>,
    area: Area,
    change: Change,
    text: &[u8],
) -> Result<(), Stopped> {
    let (at, bytes) = word(text);
    let at = path(page.alloc(), at)?;
    match change {
        Change::Write => act(page, tasks, area, Step::Write(&at, bytes)),
        Change::Append => act(page, tasks, area, Step::Append(&at, bytes)),
        Change::Symlink if is_link_text(bytes) => {
            act(page, tasks, area, Step::MakeLink(&at, bytes))
        }
        Change::Remove => act(page, tasks, area, Step::Remove(&at)),
        _ => Err(Stopped),
    }
}

/// A change whose text is two paths.
fn with_two_paths<T: TreeOps>(
    page: &mut Page,
    tasks: &mut Tasks<T>,
    area: Area,
    change: Change,
    text: &[u8],
) -> Result<(), Stopped> {
    let (old, at) = word(text);
    let old = path(page.alloc(), old)?;
    let at = path(page.alloc(), at)?;
    match change {
        Change::Link => act(page, tasks, area, Step::AddName(&old, &at)),
        _ => act(page, tasks, area, Step::Rename(&old, &at)),
    }
}

/// Makes folders whose paths end in the numbers of a range, up to the first that is refused.
pub(crate) fn mkdirs<T: TreeOps>(
    page: &mut Page,
    tasks: &mut Tasks<T>,
    area: Area,
    text: &[u8],
) -> Result<(), Stopped> {
    let (first, text) = word(text);
    let (end, head) = word(text);
    for place in number(first)?..number(end)? {
        let digits = place.to_string(page.alloc())?;
        let mut text = Vec::from_slice(page.alloc(), head)?;
        text.extend_from_slice(digits.as_bytes())?;
        let at = path(page.alloc(), text.as_slice())?;
        if let Err(error) = tasks.act(area, Step::MakeDir(&at, 0o755)) {
            page.number(b"= before ", u64::from(place))?;
            return print_outcome(page, Err(error));
        }
    }
    page.line(b"= done", b"")
}

fn act<T: TreeOps>(
    page: &mut Page,
    tasks: &mut Tasks<T>,
    area: Area,
    step: Step<'_>,
) -> Result<(), Stopped>
    requires modest { IsModest step }
{
    print_outcome(page, tasks.act(area, step))
}

fn print_outcome(page: &mut Page, outcome: Result<(), CommandError>) -> Result<(), Stopped> {
    match outcome {
        Ok(()) => print_change(page, Ok(())),
        Err(CommandError::Failed(Reason::Change(fault))) => print_change(page, Err(fault)),
        Err(_) => Err(Stopped),
    }
}
