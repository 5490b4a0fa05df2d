//! The format of printf.
//!
//! Of the text `%s=\101\n` the parts are the next word, `=`, `A` and a newline.
ghost use Rattle.std.specs.Prelude.{◌≡◌, ◌+◌, ◌*◌, ◌-◌, ◌≤◌, ◌++◌, option_map, OnOk, IfOk};
ghost use Rattle.sh_text.specs.Formats as formats;
ghost use Rattle.sh_text.specs.Formats.{format_of, shown_cut};

use br_path::{Bytes, Memory};
use std::alloc::{AllocError, Global};
use std::marker::Model;

/// A part of a format: a byte, or the next word.
#[derive(Clone, Copy)]
pub enum Part {
    Byte(u8),
    Word,
}

/// A format, by its parts.
#[derive(Drop)]
pub struct Format {
    parts: Vec<Part>,
}

impl Model for Format {
    ghost use Rattle.std.specs.Prelude.{List};
    ghost use Rattle.sh_text.specs.declared.format.Part.{Part as format_part};

    ghost Value = { List format_part };

    ghost view = { λ f. f.parts.items };
}

impl Format {
    /// The format that a text is, or none.
    pub fn read(alloc: Global, text: &[u8]) -> Result<Option<Format>, Memory>
        ensures { IfOk result (λ format. format ≡ format_of text.now) }
    {
        let mut parts = Vec::new(alloc);
        let mut rest = text;
        while let Some((byte, behind)) = rest.split_first() {
            let Some((part, behind)) = first_part(*byte, behind) else {
                return Ok(None);
            };
            parts.push(part)?;
            rest = behind;
        }
        Ok(Some(Format { parts }))
    }

    /// Puts out what the format stands for with words: once, and again while words are left and it has a place for one.
    pub fn put(&self, words: &[Bytes], out: &mut Vec<u8>) -> Result<(), AllocError>
        ensures { OnOk result (out.new.items ≡ out.old.items ++ formats.put_out self.now words.now) }
    {
        let mut left = self.put_once(words, out)?;
        while !self.is_over(left) {
            left = self.put_once(left, out)?;
        }
        Ok(())
    }

    /// Puts out what the format stands for once. The words that are left are answered.
    fn put_once<'a>(&self, words: &'a [Bytes], out: &mut Vec<u8>) -> Result<&'a [Bytes], AllocError>
        ensures text { OnOk result (out.new.items ≡ out.old.items ++ (formats.used self.now words.now).0) }
        ensures left { IfOk result (λ left. left.now ≡ (formats.used self.now words.now).1) }
    {
        let mut left = words;
        for part in &self.parts {
            match part {
                Part::Byte(byte) => out.push(*byte)?,
                Part::Word => left = put_word(left, out)?,
            }
        }
        Ok(left)
    }

    /// Whether it isn't used again.
    fn is_over(&self, words: &[Bytes]) -> bool
        ensures { result ≡ formats.is_over self.now words.now }
    {
        words.is_empty() || !self.has_word()
    }

    fn has_word(&self) -> bool
        ensures { result ≡ formats.has_word self.now }
    {
        self.parts.iter().any(|part| matches!(part, Part::Word))
    }
}

/// Puts out the first word, if there is one. The words after it are answered.
fn put_word<'a>(words: &'a [Bytes], out: &mut Vec<u8>) -> Result<&'a [Bytes], AllocError>
    ensures text { OnOk result (out.new.items ≡ out.old.items ++ formats.next_word words.now) }
    ensures left { IfOk result (λ left. left.now ≡ formats.behind_word words.now) }
{
    let Some((word, left)) = words.split_first() else {
        return Ok(words);
    };
    out.extend_from_slice(word.as_slice())?;
    Ok(left)
}

/// The part that a text of a byte and a rest begins with, and what stands after it.
fn first_part(byte: u8, rest: &[u8]) -> Option<(Part, &[u8])>
    ensures { shown_cut result ≡ formats.first_part byte rest.now }
{
    match byte {
        b'\\' => behind_backslash(rest),
        b'%' => behind_percent(rest),
        _ => Some((Part::Byte(byte), rest)),
    }
}

fn behind_percent(text: &[u8]) -> Option<(Part, &[u8])>
    ensures { shown_cut result ≡ formats.behind_percent text.now }
{
    match text.split_first()? {
        (b'%', rest) => Some((Part::Byte(b'%'), rest)),
        (b's', rest) => Some((Part::Word, rest)),
        _ => None,
    }
}

fn behind_backslash(text: &[u8]) -> Option<(Part, &[u8])>
    ensures { shown_cut result ≡ formats.behind_backslash text.now }
{
    let (letter, rest) = text.split_first()?;
    if is_octal(*letter) {
        let (value, rest) = with_digit(u16::from(*letter - b'0'), rest);
        let (value, rest) = with_digit(value, rest);
        return octal_part(value, rest);
    }
    let byte = escape_of(*letter)?;
    Some((Part::Byte(byte), rest))
}

/// A value with one more octal digit, if the text begins with one.
fn with_digit(value: u16, text: &[u8]) -> (u16, &[u8])
    requires { value ≤ 63 }
    ensures digit { (result.0, result.1.now) ≡ formats.with_digit (value, text.now) }
    ensures limit { result.0 ≤ 8 * value + 7 }
{
    match text.split_first() {
        Some((digit, rest)) if is_octal(*digit) => (value * 8 + u16::from(*digit - b'0'), rest),
        _ => (value, text),
    }
}

fn octal_part(value: u16, rest: &[u8]) -> Option<(Part, &[u8])>
    ensures { shown_cut result ≡ formats.octal_part (value, rest.now) }
{
    let byte = u8::try_from(value).ok()?;
    Some((Part::Byte(byte), rest))
}

fn is_octal(byte: u8) -> bool
    ensures { result ≡ formats.is_octal byte }
{
    b'0' <= byte && byte <= b'7'
}

/// The byte that a letter stands for after a backslash.
fn escape_of(letter: u8) -> Option<u8>
    ensures { result ≡ formats.escape_of letter }
{
    match letter {
        b'n' => Some(b'\n'),
        b't' => Some(b'\t'),
        b'\\' => Some(b'\\'),
        b'"' => Some(b'"'),
        b'a' => Some(0x07),
        b'b' => Some(0x08),
        b'f' => Some(0x0c),
        b'r' => Some(b'\r'),
        b'v' => Some(0x0b),
        _ => None,
    }
}
