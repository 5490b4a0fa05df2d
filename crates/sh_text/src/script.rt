//! The script of sed.
//!
//! `s`, a delimiter, a pattern, the delimiter, a replacement, the delimiter, and perhaps `g`: `s/^a\.b/c/` and `s,/usr,/opt,g`.
//! The pattern is a text, with `^` and `$` at its ends as anchors.
ghost use Rattle.std.specs.Prelude.{◌≡◌, Some, IfOk};
ghost use Rattle.sh_text.specs.Scripts as scripts;

use crate::spelled::{Side, Spelled, bytes_of, cut, spelling_of};
use br_path::{Bytes, Memory, is_digit, is_letter};
use std::alloc::Global;

/// What is looked for in a line.
#[derive(Drop)]
pub struct Pattern {
    /// The line must begin with it.
    pub(crate) begins: bool,
    pub(crate) bytes: Bytes,
    /// The line must end with it.
    pub(crate) ends: bool,
}

/// What takes the place of what in each line.
#[derive(Drop)]
pub struct Script {
    pub(crate) pattern: Pattern,
    pub(crate) replacement: Bytes,
    /// Wherever the pattern stands, and not at the first place alone.
    pub(crate) each: bool,
}

impl Script {
    /// The script that a text is, or none.
    pub(crate) fn read(alloc: Global, text: &[u8]) -> Result<Option<Script>, Memory>
        ensures { IfOk result (λ script. script ≡ scripts.script_of text.now) }
    {
        let Some((first, behind)) = text.split_first() else {
            return Ok(None);
        };
        let Some((delimiter, behind)) = behind.split_first() else {
            return Ok(None);
        };
        if *first == b's' && is_delimiter(*delimiter) {
            Script::between(alloc, *delimiter, behind)
        } else {
            Ok(None)
        }
    }

    /// The script that a text after the first delimiter is.
    fn between(alloc: Global, delimiter: u8, text: &[u8]) -> Result<Option<Script>, Memory>
        ensures { IfOk result (λ script. script ≡ scripts.script_in delimiter (scripts.spelling_of text.now)) }
    {
        let Some(bytes) = spelling_of(alloc, text)? else {
            return Ok(None);
        };
        let Some((pattern, rest)) = cut(delimiter, &bytes) else {
            return Ok(None);
        };
        let Some((replacement, flags)) = cut(delimiter, rest) else {
            return Ok(None);
        };
        Script::of_fields(alloc, delimiter, pattern, replacement, flags)
    }

    fn of_fields(
        alloc: Global,
        delimiter: u8,
        pattern: &[Spelled],
        replacement: &[Spelled],
        flags: &[Spelled],
    ) -> Result<Option<Script>, Memory>
        ensures { IfOk result (λ script. script ≡ scripts.script_behind delimiter pattern.now (Some (replacement.now, flags.now))) }
    {
        let Some(pattern) = Pattern::read(alloc, delimiter, pattern)? else {
            return Ok(None);
        };
        let Some(replacement) = bytes_of(alloc, Side::Right, delimiter, replacement)? else {
            return Ok(None);
        };
        let Some(each) = each_of(flags) else {
            return Ok(None);
        };
        Ok(Some(Script {
            pattern,
            replacement,
            each,
        }))
    }
}

impl Pattern {
    /// The pattern that a field is, or none.
    fn read(alloc: Global, delimiter: u8, field: &[Spelled]) -> Result<Option<Pattern>, Memory>
        ensures { IfOk result (λ pattern. pattern ≡ scripts.pattern_of delimiter field.now) }
    {
        let (begins, field) = behind_caret(field);
        let (ends, field) = before_dollar(field);
        let Some(bytes) = bytes_of(alloc, Side::Left, delimiter, field)? else {
            return Ok(None);
        };
        if bytes.items.is_empty() && !begins && !ends {
            return Ok(None);
        }
        Ok(Some(Pattern {
            begins,
            bytes,
            ends,
        }))
    }
}

/// Whether a field begins with `^`, and what stands after it.
fn behind_caret(field: &[Spelled]) -> (bool, &[Spelled])
    ensures caret { result.0 ≡ scripts.begins_with 94 field.now }
    ensures behind { result.1.now ≡ scripts.behind_caret field.now }
{
    match field.split_first() {
        Some((first, rest)) if first.is_plain(b'^') => (true, rest),
        _ => (false, field),
    }
}

/// Whether a field ends with `$`, and what stands before it.
fn before_dollar(field: &[Spelled]) -> (bool, &[Spelled])
    ensures dollar { result.0 ≡ scripts.ends_with 36 field.now }
    ensures before { result.1.now ≡ scripts.before_dollar field.now }
{
    let Some((last, rest)) = field.split_last() else {
        return (false, field);
    };
    if last.is_plain(b'$') {
        (true, rest)
    } else {
        (false, field)
    }
}

/// Whether the flags ask for each place: `g` alone does.
fn each_of(flags: &[Spelled]) -> Option<bool>
    ensures { result ≡ scripts.each_of flags.now }
{
    match flags {
        [] => Some(false),
        [flag] if flag.is_plain(b'g') => Some(true),
        _ => None,
    }
}

fn is_delimiter(byte: u8) -> bool
    ensures { result ≡ scripts.is_delimiter byte }
{
    (b'!' <= byte && byte <= b'~') && !(byte == b'\\' || is_letter(byte) || is_digit(byte))
}
