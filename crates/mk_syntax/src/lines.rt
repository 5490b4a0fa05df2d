//! The lines of a text, joined where a backslash ends one.
ghost use Rattle.std.specs.Prelude.{List, ℕ, ◌≡◌, ◌+◌, ◌-◌, ◌^◌, ◌<◌, ◌∷◌, IfOk, OnOk, IfSome, length, ◌==◌, position, option_copied};
ghost use Rattle.mk_syntax.specs.Blanks.{trim_end};
ghost use Rattle.mk_syntax.specs.Joins.{StayApart, BecomesOneSpace, CountOn};
ghost use Rattle.mk_syntax.specs.Lines.{line_count, raw_lines, raw_behind, is_joined, joined, joined_lines};

use crate::blanks::{skip_blanks, trim_end};
use br_path::{Bytes, Memory};
use memchr::memchr;
use std::alloc::{AllocError, Global};

/// A line with the number of its first part, which is its own where it isn't joined.
#[derive(Drop)]
pub(crate) struct Line {
    pub(crate) number: u32,
    pub(crate) bytes: Bytes,
}

/// The lines of a text.
#[tactic(auto, using(crate::proofs::RawLines::length_raw_lines))]
pub(crate) fn joined_lines(alloc: Global, text: &[u8]) -> Result<Vec<Line>, Memory>
    requires { line_count text.now < 2 ^ 32 - 1 }
    ensures { IfOk result (λ lines. lines.items ≡ joined_lines text.now) }
{
    let mut lines = Vec::new(alloc);
    let (first, mut rest) = split_line(text);
    let mut line = Vec::from_slice(alloc, first)?;
    let mut start = 1;
    let mut number = 1;
    while let Some(behind) = rest {
        let (further, behind) = split_line(behind);
        number += 1;
        if is_joined(&line) {
            join(&mut line, further)?;
        } else {
            lines.push(finished(start, line))?;
            line = Vec::from_slice(alloc, further)?;
            start = number;
        }
        rest = behind;
    }
    lines.push(finished(start, line))?;
    Ok(lines)
}

/// A law with nothing to run: what the lines of a text are, by its parts between newlines.
///
/// Parts of which none ends in a backslash are the lines. A backslash at the end of a part, with the blanks before it
/// and those that begin the next part, is as good as one space. After a part without a backslash the lines are those
/// of what follows, counted on; so a line has the number of its first part.
pub fn parts_join()
    ensures apart { (parts : List (List ℕ)) → StayApart parts }
    ensures joined { (front back : List (List ℕ)) (line before after next : List ℕ) → BecomesOneSpace front line before after next back }
    ensures counted { (front back : List (List ℕ)) (part : List ℕ) → CountOn front part back }
{}

fn finished(number: u32, line: Vec<u8>) -> Line
    ensures { result ≡ record { number = number; bytes = line.items } }
{
    Line {
        number,
        bytes: Bytes { items: line },
    }
}

/// A text up to its first newline, and what follows that.
#[tactic(auto, using(crate::proofs::Places::split_here, crate::proofs::Places::split_nowhere))]
fn split_line(text: &[u8]) -> (&[u8], Option<&[u8]>)
    ensures { raw_lines text.now ≡ result.0.now ∷ raw_behind (option_copied result.1) }
{
    match first_newline(text) {
        None => (text, None),
        Some(place) => {
            let behind = text.split_at(place + 1).1;
            (text.split_at(place).0, Some(behind))
        }
    }
}

#[tactic(auto, using(crate::proofs::Places::found_place))]
fn first_newline(text: &[u8]) -> Option<usize>
    ensures { result ≡ position (λ byte. byte == 10) text.now }
{
    memchr(b'\n', text)
}

fn is_joined(line: &[u8]) -> bool
    ensures { result ≡ is_joined line.now }
{
    match line.split_last() {
        None => false,
        Some((byte, _)) => *byte == b'\\',
    }
}

/// Puts a space and the next line in place of the backslash at the end, and of the blanks round it.
fn join(line: &mut Vec<u8>, further: &[u8]) -> Result<(), AllocError>
    ensures { OnOk result (line.new.items ≡ joined line.old.items further.now) }
{
    line.pop();
    drop_end_blanks(line);
    line.push(b' ')?;
    line.extend_from_slice(skip_blanks(further))
}

#[tactic(auto, using(crate::proofs::Trims::trim_end_front))]
fn drop_end_blanks(line: &mut Vec<u8>)
    ensures { line.new.items ≡ trim_end line.old.items }
{
    let length = trim_end(line).len();
    line.truncate(length);
}
