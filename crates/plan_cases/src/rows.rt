//! The rows of tasks.
use case_text::{Page, Stopped};
use plan_rows::{CommandLine, Lines, Part, Step, StepRow, TaskRow};

/// Prints the row of a task: the task and what it needs, and a line for each step and for each line of a step.
pub(crate) fn print_row(page: &mut Page, task: usize, row: &TaskRow) -> Result<(), Stopped> {
    page.put(b"    ")?;
    page.put_number(task as u64)?;
    page.put(b" ")?;
    page.put(row.package.as_slice())?;
    page.put(part_word(row.part))?;
    print_folder(page, row)?;
    print_needs(page, row)?;
    page.end()?;
    for step in &row.steps.items {
        print_step(page, step)?;
    }
    Ok(())
}

fn part_word(part: Part) -> &'static [u8] {
    match part {
        Part::Prep => b":prep",
        Part::Make => b":make",
    }
}

/// The folder, and whether it is a host package.
fn print_folder(page: &mut Page, row: &TaskRow) -> Result<(), Stopped> {
    page.put(b" of ")?;
    page.put_path(&row.folder)?;
    if row.host {
        return page.put(b" host");
    }
    Ok(())
}

/// What the task needs, by what it needs it for.
fn print_needs(page: &mut Page, row: &TaskRow) -> Result<(), Stopped> {
    print_own(page, row.own_prep)?;
    print_some(page, b" fills", row.fills.items.as_slice())?;
    print_some(page, b" reads", row.readable.items.as_slice())
}

fn print_own(page: &mut Page, own_prep: Option<u32>) -> Result<(), Stopped> {
    match own_prep {
        Some(prep) => print_some(page, b" own", &[prep]),
        None => Ok(()),
    }
}

/// A word and numbers, if there are numbers.
fn print_some(page: &mut Page, word: &[u8], numbers: &[u32]) -> Result<(), Stopped> {
    if numbers.is_empty() {
        return Ok(());
    }
    page.put(word)?;
    page.put_numbers(numbers)
}

fn print_step(page: &mut Page, row: &StepRow) -> Result<(), Stopped> {
    page.put(b"        ")?;
    page.put(step_word(row.step))?;
    if row.copy_source {
        page.put(b" copies")?;
    }
    page.end()?;
    print_lines(page, b"before", &row.before)?;
    print_lines(page, b"line", &row.lines)?;
    print_lines(page, b"after", &row.after)
}

fn step_word(step: Step) -> &'static [u8] {
    match step {
        Step::Populate => b"populate",
        Step::Extract => b"extract",
        Step::Patch => b"patch",
        Step::Configure => b"configure",
        Step::Build => b"build",
        Step::Host => b"host",
        Step::Staging => b"staging",
        Step::Target => b"target",
    }
}

fn print_lines(page: &mut Page, word: &[u8], lines: &Lines) -> Result<(), Stopped> {
    for line in &lines.items {
        print_line(page, word, line)?;
    }
    Ok(())
}

/// A line of a step between brackets, with the mark `-` before them if its failure is ignored.
fn print_line(page: &mut Page, word: &[u8], line: &CommandLine) -> Result<(), Stopped> {
    page.put(b"            ")?;
    page.put(word)?;
    page.put(if line.ignore { b" -[" } else { b" [" })?;
    page.put(line.text.as_slice())?;
    page.line(b"]", b"")
}
