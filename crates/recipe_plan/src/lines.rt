//! The lines that a text has for a shell.
ghost use Rattle.std.specs.Prelude.{◌≡◌, ◌≤◌, ◌++◌, IfOk, OnOk, length, not, position};
ghost use Rattle.recipe_plan.specs.Lines.{command_line, command_lines, front_length, is_filled_line, is_mark};

use br_path::{Bytes, Memory};
use mk_expand::is_blank;
use plan_rows::CommandLine;
use std::alloc::Global;

/// Puts the lines of a text after others: what stands between its newlines, except for lines of blanks alone.
pub(crate) fn put_lines(
    alloc: Global,
    lines: &mut Vec<CommandLine>,
    text: &[u8],
) -> Result<(), Memory>
    ensures { OnOk result (lines.new.items ≡ lines.old.items ++ command_lines text.now) }
{
    for line in text.split(|byte| *byte == b'\n') {
        if is_filled_line(line) {
            lines.push(command_line(alloc, line)?)?;
        }
    }
    Ok(())
}

/// Whether a line has another byte than blanks.
fn is_filled_line(line: &[u8]) -> bool
    ensures { result ≡ is_filled_line line.now }
{
    !line.iter().all(|byte| is_blank(*byte))
}

/// A line without the blanks and marks at its front, a `-` among which says that its failure is ignored.
fn command_line(alloc: Global, line: &[u8]) -> Result<CommandLine, Memory>
    ensures { IfOk result (λ made. made ≡ command_line line.now) }
{
    let (front, text) = line.split_at(front_length(line));
    Ok(CommandLine {
        ignore: front.iter().any(|byte| *byte == b'-'),
        text: Bytes::from_slice(alloc, text)?,
    })
}

/// How many bytes the blanks and marks at the front of a line are.
fn front_length(line: &[u8]) -> usize
    ensures length { result ≡ front_length line.now }
    ensures within { result ≤ length line.now }
{
    first_other(line).unwrap_or(line.len())
}

/// The place of the first byte that is neither a blank nor a mark.
fn first_other(line: &[u8]) -> Option<usize>
    ensures { result ≡ position (λ byte. not (is_mark byte)) line.now }
{
    line.iter().position(|byte| !is_mark(*byte))
}

fn is_mark(byte: u8) -> bool
    ensures { result ≡ is_mark byte }
{
    is_blank(byte) || byte == b'@' || byte == b'-'
}
