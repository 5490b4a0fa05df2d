//! From a text to its lines.
ghost use Rattle.std.specs.Prelude.{◌≡◌, ◌↔◌, ℕ, List, ◌<◌, ◌^◌, ◌≤◌, map, length, IfOk, OnOk};
ghost use Rattle.kc_text.specs.Lines.{raw_lines, lines, is_blank_line, indent, joins, first_of, join, put_parts, put_line, plain, take_line, finish, help_first, help_inside, help_after, help_behind, help_behind_parts, help_behind_word, is_empty, is_help};
ghost use Rattle.br_path.specs.Text.{is_text};
ghost use Rattle.kc_text.specs.ShownLines.{shown};
ghost use Rattle.kc_text.specs.TextLines.{IsLines};
ghost use Rattle.kc_text.specs.declared.part.Line.{Line};

use crate::bytes::is_blank;
use crate::lexer::parts_of;
use crate::part::{Line, Part, Parts};
use br_path::{Memory, is_text};
use std::alloc::{AllocError, Global};

/// Where a raw line stands to a block of help.
#[derive(Clone, Copy)]
pub enum Help {
    /// Outside.
    Out,
    /// After its first line, or after that and blank lines.
    First,
    /// Inside, where the block has this indent.
    Indent(usize),
}

/// The lines so far, the raw lines that are to be joined with the next, the number of the first of these, and the
/// block of help.
#[derive(Drop)]
pub struct Gathered {
    lines: Vec<Line>,
    carry: Vec<u8>,
    first: u32,
    help: Help,
}

/// The lines of a text that aren't empty.
#[tactic(auto, unfolding(crate::specs::Lines::lines))]
pub fn lines_of(alloc: Global, text: &[u8]) -> Result<Vec<Line>, Memory>
    requires { length text.now < 2 ^ 31 }
    ensures { IfOk result (λ v. v.items ≡ lines text.now) }
{
    let raws = raw_lines_of(alloc, text)?;
    let mut gathered = Gathered {
        lines: Vec::new(alloc),
        carry: Vec::new(alloc),
        first: 0,
        help: Help::Out,
    };
    let mut number: u32 = 0;
    for raw in &raws {
        number += 1;
        gathered.take_line(alloc, number, raw)?;
    }
    gathered.finish(alloc)
}

/// A text has the lines that it is written by, and no others.
pub fn texts_have_lines()
    ensures { (text : List ℕ) (found : List Line) → IsLines 1 (raw_lines text) found ↔ (lines text ≡ found) }
{}

#[tactic(auto, unfolding(crate::specs::Lines::raw_lines))]
fn raw_lines_of(alloc: Global, text: &[u8]) -> Result<Vec<&[u8]>, AllocError>
    ensures { IfOk result (λ v. map (λ raw. raw.now) v.items ≡ raw_lines text.now) }
{
    text.split(|byte| *byte == b'\n').collect(alloc)
}

impl Gathered {
    #[tactic(auto, unfolding(crate::specs::Lines::take_line))]
    fn take_line(&mut self, alloc: Global, number: u32, raw: &[u8]) -> Result<(), Memory>
        requires { length raw.now < 2 ^ 31 }
        ensures { OnOk result (shown self.new ≡ take_line (shown self.old) number raw.now) }
    {
        self.help = help_after(self.help, raw);
        match self.help {
            Help::Out => self.plain(alloc, number, raw),
            Help::First | Help::Indent(_) => Ok(()),
        }
    }

    #[tactic(auto, unfolding(crate::specs::Lines::plain))]
    fn plain(&mut self, alloc: Global, number: u32, raw: &[u8]) -> Result<(), Memory>
        ensures { OnOk result (shown self.new ≡ plain (shown self.old) number raw.now) }
    {
        self.first = first_of(self.carry.as_slice(), self.first, number);
        self.join(raw)?;
        if joins(raw) {
            return Ok(());
        }
        self.put_line(alloc)
    }

    // The space that a backslash and its newline become, and the next raw line.
    fn join(&mut self, raw: &[u8]) -> Result<(), Memory>
        ensures { OnOk result (shown self.new ≡ join (shown self.old) raw.now) }
    {
        if self.carry.pop().is_some() {
            self.carry.push(b' ')?;
        }
        self.carry.extend_from_slice(raw)?;
        Ok(())
    }

    #[tactic(auto, unfolding(crate::specs::Lines::put_line))]
    fn put_line(&mut self, alloc: Global) -> Result<(), Memory>
        ensures { OnOk result (shown self.new ≡ put_line (shown self.old)) }
    {
        let parts = parts_of(alloc, self.carry.as_slice())?;
        self.carry.clear();
        self.put_parts(parts)
    }

    #[tactic(auto, unfolding(crate::specs::Lines::put_parts))]
    fn put_parts(&mut self, parts: Option<Parts>) -> Result<(), Memory>
        ensures { OnOk result (shown self.new ≡ put_parts (shown self.old) parts) }
    {
        if is_empty(&parts) {
            return Ok(());
        }
        self.help = help_behind(&parts);
        self.lines.push(Line {
            number: self.first,
            parts,
        })?;
        Ok(())
    }

    // A backslash at the end of the last raw line joins nothing.
    #[tactic(auto, unfolding(crate::specs::Lines::finish))]
    fn finish(mut self, alloc: Global) -> Result<Vec<Line>, Memory>
        ensures { IfOk result (λ v. v.items ≡ finish (shown self)) }
    {
        if !self.carry.is_empty() {
            self.put_line(alloc)?;
        }
        Ok(self.lines)
    }
}

// Where the raw line stands, which comes after one that stands at `help`.
fn help_after(help: Help, raw: &[u8]) -> Help
    requires { length raw.now < 2 ^ 31 }
    ensures { result ≡ help_after help raw.now }
{
    match help {
        Help::Out => Help::Out,
        Help::First => help_first(raw),
        Help::Indent(least) => help_inside(least, raw),
    }
}

#[tactic(auto, unfolding(crate::specs::Lines::help_first))]
fn help_first(raw: &[u8]) -> Help
    requires { length raw.now < 2 ^ 31 }
    ensures { result ≡ help_first raw.now }
{
    if is_blank_line(raw) {
        return Help::First;
    }
    let found = indent(raw);
    if found == 0 {
        Help::Out
    } else {
        Help::Indent(found)
    }
}

#[tactic(auto, unfolding(crate::specs::Lines::help_inside))]
fn help_inside(least: usize, raw: &[u8]) -> Help
    requires { length raw.now < 2 ^ 31 }
    ensures { result ≡ help_inside least raw.now }
{
    if is_blank_line(raw) || least <= indent(raw) {
        Help::Indent(least)
    } else {
        Help::Out
    }
}

#[tactic(auto, unfolding(crate::specs::Lines::is_blank_line))]
fn is_blank_line(raw: &[u8]) -> bool
    ensures { result ≡ is_blank_line raw.now }
{
    for byte in raw {
        if !is_blank(*byte) {
            return false;
        }
    }
    true
}

// The column of the first byte that is no blank. A tab goes to the next multiple of 8.
#[tactic(auto, unfolding(crate::specs::Lines::indent))]
fn indent(raw: &[u8]) -> usize
    requires { length raw.now < 2 ^ 31 }
    ensures { result ≡ indent raw.now }
{
    let mut column = 0;
    for byte in raw {
        match *byte {
            b' ' => column += 1,
            b'\t' => column = (column / 8 + 1) * 8,
            _ => return column,
        }
    }
    column
}

fn joins(raw: &[u8]) -> bool
    ensures { result ≡ joins raw.now }
{
    match raw.last() {
        Some(byte) => *byte == b'\\',
        None => false,
    }
}

fn first_of(carry: &[u8], first: u32, number: u32) -> u32
    ensures { result ≡ first_of carry.now first number }
{
    if carry.is_empty() { number } else { first }
}

fn is_empty(parts: &Option<Parts>) -> bool
    ensures { result ≡ is_empty parts.now }
{
    match parts {
        Some(parts) => parts.items.is_empty(),
        None => false,
    }
}

fn help_behind(parts: &Option<Parts>) -> Help
    ensures { result ≡ help_behind parts.now }
{
    match parts {
        Some(parts) => help_behind_parts(parts.items.as_slice()),
        None => Help::Out,
    }
}

fn help_behind_parts(parts: &[Part]) -> Help
    ensures { result ≡ help_behind_parts parts.now }
{
    match parts.split_first() {
        Some((Part::Word(word), rest)) => help_behind_word(word.as_slice(), rest),
        _ => Help::Out,
    }
}

fn help_behind_word(word: &[u8], rest: &[Part]) -> Help
    ensures { result ≡ help_behind_word word.now rest.now }
{
    if rest.is_empty() && is_help(word) {
        Help::First
    } else {
        Help::Out
    }
}

#[tactic(auto, unfolding(crate::specs::Lines::is_help))]
fn is_help(word: &[u8]) -> bool
    ensures { result ≡ is_help word.now }
{
    is_text(word, b"help") || is_text(word, b"---help---")
}
