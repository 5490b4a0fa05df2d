//! From a line to its parts.
ghost use Rattle.std.specs.Prelude.{◌≡◌, ◌↔◌, ℕ, List, Some, None, IfOk, OnOk};
ghost use Rattle.kc_text.specs.Grammar.{IsLine, HasOpenQuote};
ghost use Rattle.kc_text.specs.declared.part.Part.{Part};
ghost use Rattle.kc_text.specs.Lexer.{put_part, put_word, put_quoted, keep, enter, begin, step, in_word, in_quote, behind_sign, finish, parts, single, pair, double, is_sign, is_quote};
ghost use Rattle.kc_text.specs.Shown.{shown};

use crate::bytes::{is_blank, is_word_byte};
use crate::part::{Part, Parts};
use br_path::{Bytes, Memory};
use std::alloc::Global;
use std::mem;

/// How many parts of a line have room at first. Most lines have no more.
const PARTS_ROOM: usize = 3;

/// How many bytes of a text have room at first. Few texts have more.
const TEXT_ROOM: usize = 40;

/// What the bytes before a place have begun.
#[derive(Clone, Copy)]
pub enum Mode {
    /// Nothing.
    Between,
    Word,
    /// A text in this quote.
    Quote(u8),
    /// A text in this quote, with a backslash right before.
    Escape(u8),
    /// The byte right before, which may begin an operator of two bytes.
    Sign(u8),
    Comment,
}

/// The parts so far, the text of the one that has begun, and what that is.
#[derive(Drop)]
pub struct Lexer {
    parts: Vec<Part>,
    text: Vec<u8>,
    mode: Mode,
}

/// The parts of a line; none where a quote doesn't close.
#[tactic(auto, unfolding(crate::specs::Lexer::parts))]
pub fn parts_of(alloc: Global, line: &[u8]) -> Result<Option<Parts>, Memory>
    ensures { IfOk result (λ p. p ≡ parts line.now) }
{
    let mut lexer = Lexer {
        parts: Vec::new(alloc),
        text: Vec::new(alloc),
        mode: Mode::Between,
    };
    for byte in line {
        lexer.step(alloc, *byte)?;
    }
    lexer.finish(alloc)
}

/// A line has the parts that it is written by, and none exactly where a quote of it doesn't close.
pub fn lines_have_parts()
    ensures parts { (line : List ℕ) (found : List Part) → IsLine line found ↔ (parts line ≡ Some found) }
    ensures open { (line : List ℕ) → HasOpenQuote line ↔ (parts line ≡ None) }
{}

impl Lexer {
    fn put(&mut self, part: Part) -> Result<(), Memory>
        ensures { OnOk result (shown self.new ≡ put_part (shown self.old) part) }
    {
        if self.parts.is_empty() {
            self.parts.reserve(PARTS_ROOM)?;
        }
        self.parts.push(part)?;
        self.mode = Mode::Between;
        Ok(())
    }

    fn put_word(&mut self, alloc: Global) -> Result<(), Memory>
        ensures { OnOk result (shown self.new ≡ put_word (shown self.old)) }
    {
        let items = mem::replace(&mut self.text, Vec::new(alloc));
        self.put(Part::Word(Bytes { items }))
    }

    fn put_quoted(&mut self, alloc: Global) -> Result<(), Memory>
        ensures { OnOk result (shown self.new ≡ put_quoted (shown self.old)) }
    {
        let items = mem::replace(&mut self.text, Vec::new(alloc));
        self.put(Part::Quoted(Bytes { items }))
    }

    fn keep(&mut self, byte: u8, mode: Mode) -> Result<(), Memory>
        ensures { OnOk result (shown self.new ≡ keep (shown self.old) byte mode) }
    {
        if self.text.is_empty() {
            self.text.reserve(TEXT_ROOM)?;
        }
        self.text.push(byte)?;
        self.mode = mode;
        Ok(())
    }

    fn enter(&mut self, mode: Mode)
        ensures { shown self.new ≡ enter (shown self.old) mode }
    {
        self.mode = mode;
    }

    // A byte after what is read whole.
    #[tactic(auto, unfolding(crate::specs::Lexer::begin))]
    fn begin(&mut self, byte: u8) -> Result<(), Memory>
        ensures { OnOk result (shown self.new ≡ begin (shown self.old) byte) }
    {
        if is_blank(byte) {
            self.enter(Mode::Between);
            return Ok(());
        }
        if byte == b'#' {
            self.enter(Mode::Comment);
            return Ok(());
        }
        if is_quote(byte) {
            self.enter(Mode::Quote(byte));
            return Ok(());
        }
        if is_sign(byte) {
            self.enter(Mode::Sign(byte));
            return Ok(());
        }
        if is_word_byte(byte) {
            return self.keep(byte, Mode::Word);
        }
        self.put(single(byte))
    }

    #[tactic(auto, unfolding(crate::specs::Lexer::step))]
    fn step(&mut self, alloc: Global, byte: u8) -> Result<(), Memory>
        ensures { OnOk result (shown self.new ≡ step (shown self.old) byte) }
    {
        match self.mode {
            Mode::Between => self.begin(byte),
            Mode::Word => self.in_word(alloc, byte),
            Mode::Quote(quote) => self.in_quote(alloc, quote, byte),
            Mode::Escape(quote) => self.keep(byte, Mode::Quote(quote)),
            Mode::Sign(sign) => self.behind_sign(sign, byte),
            Mode::Comment => Ok(()),
        }
    }

    #[tactic(auto, unfolding(crate::specs::Lexer::in_word))]
    fn in_word(&mut self, alloc: Global, byte: u8) -> Result<(), Memory>
        ensures { OnOk result (shown self.new ≡ in_word (shown self.old) byte) }
    {
        if is_word_byte(byte) {
            return self.keep(byte, Mode::Word);
        }
        self.put_word(alloc)?;
        self.begin(byte)
    }

    #[tactic(auto, unfolding(crate::specs::Lexer::in_quote))]
    fn in_quote(&mut self, alloc: Global, quote: u8, byte: u8) -> Result<(), Memory>
        ensures { OnOk result (shown self.new ≡ in_quote (shown self.old) quote byte) }
    {
        if byte == quote {
            return self.put_quoted(alloc);
        }
        if byte == b'\\' {
            self.enter(Mode::Escape(quote));
            return Ok(());
        }
        self.keep(byte, Mode::Quote(quote))
    }

    #[tactic(auto, unfolding(crate::specs::Lexer::behind_sign))]
    fn behind_sign(&mut self, sign: u8, byte: u8) -> Result<(), Memory>
        ensures { OnOk result (shown self.new ≡ behind_sign (shown self.old) sign byte) }
    {
        if let Some(part) = pair(sign, byte) {
            return self.put(part);
        }
        self.put(single(sign))?;
        self.begin(byte)
    }

    #[tactic(auto, unfolding(crate::specs::Lexer::finish))]
    fn finish(mut self, alloc: Global) -> Result<Option<Parts>, Memory>
        ensures { IfOk result (λ p. p ≡ finish (shown self)) }
    {
        match self.mode {
            Mode::Between | Mode::Comment => {}
            Mode::Word => self.put_word(alloc)?,
            Mode::Sign(sign) => self.put(single(sign))?,
            Mode::Quote(_) | Mode::Escape(_) => return Ok(None),
        }
        Ok(Some(Parts { items: self.parts }))
    }
}

fn is_quote(byte: u8) -> bool
    ensures { result ≡ is_quote byte }
{
    byte == b'"' || byte == b'\''
}

// Whether an operator of two bytes may begin with it.
fn is_sign(byte: u8) -> bool
    ensures { result ≡ is_sign byte }
{
    byte == b'|' || byte == b'&' || byte == b'!'
}

#[tactic(auto, unfolding(crate::specs::Lexer::single))]
fn single(byte: u8) -> Part
    ensures { result ≡ single byte }
{
    match byte {
        b'!' => Part::Not,
        b'=' => Part::Same,
        b'(' => Part::Open,
        b')' => Part::Close,
        _ => Part::Other,
    }
}

#[tactic(auto, unfolding(crate::specs::Lexer::pair))]
fn pair(first: u8, second: u8) -> Option<Part>
    ensures { result ≡ pair first second }
{
    if first == second {
        return double(first);
    }
    if first == b'!' && second == b'=' {
        return Some(Part::Differ);
    }
    None
}

#[tactic(auto, unfolding(crate::specs::Lexer::double))]
fn double(byte: u8) -> Option<Part>
    ensures { result ≡ double byte }
{
    match byte {
        b'|' => Some(Part::Or),
        b'&' => Some(Part::And),
        _ => None,
    }
}
