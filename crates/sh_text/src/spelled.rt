//! Bytes of a script as they are written.
ghost use Rattle.std.specs.Prelude.{◌≡◌, ◌<◌, length, position, IfOk, IfSome, option_map};
ghost use Rattle.sh_text.specs.Scripts as scripts;

use br_path::{Bytes, Memory};
use std::alloc::Global;

/// A byte as it is written.
#[derive(Clone, Copy)]
pub enum Spelled {
    /// By itself.
    Plain(u8),
    /// After a backslash.
    Escaped(u8),
}

/// The side of a script on which a byte stands.
#[derive(Clone, Copy)]
pub enum Side {
    /// In the pattern.
    Left,
    /// In the replacement.
    Right,
}

impl Spelled {
    /// Whether it is this byte by itself.
    pub(crate) fn is_plain(self, byte: u8) -> bool
        ensures { result ≡ scripts.is_plain byte self }
    {
        matches!(self, Spelled::Plain(other) if other == byte)
    }

    /// The byte that it stands for on a side, if it may stand there.
    fn byte_in(self, side: Side, delimiter: u8) -> Option<u8>
        ensures { result ≡ scripts.byte_in side delimiter self }
    {
        match side {
            Side::Left => self.in_pattern(delimiter),
            Side::Right => self.in_replacement(delimiter),
        }
    }

    fn in_pattern(self, delimiter: u8) -> Option<u8>
        ensures { result ≡ scripts.pattern_byte delimiter self }
    {
        match self {
            Spelled::Plain(b'.' | b'*' | b'[') => None,
            Spelled::Plain(byte) => Some(byte),
            Spelled::Escaped(byte) if is_taken(byte) || byte == delimiter => Some(byte),
            Spelled::Escaped(_) => None,
        }
    }

    fn in_replacement(self, delimiter: u8) -> Option<u8>
        ensures { result ≡ scripts.replacement_byte delimiter self }
    {
        match self {
            Spelled::Plain(b'&') => None,
            Spelled::Plain(byte) => Some(byte),
            Spelled::Escaped(byte) if matches!(byte, b'&' | b'\\') || byte == delimiter => {
                Some(byte)
            }
            Spelled::Escaped(_) => None,
        }
    }
}

/// Whether a backslash takes the byte in each pattern.
fn is_taken(byte: u8) -> bool
    ensures { result ≡ scripts.is_taken byte }
{
    matches!(byte, b'.' | b'*' | b'[' | b']' | b'\\' | b'^' | b'$')
}

/// The bytes that a side of a script stands for, if each stands for one.
pub(crate) fn bytes_of(
    alloc: Global,
    side: Side,
    delimiter: u8,
    field: &[Spelled],
) -> Result<Option<Bytes>, Memory>
    ensures { IfOk result (λ bytes. bytes ≡ scripts.bytes_by (scripts.byte_in side delimiter) field.now) }
{
    let mut items = Vec::new(alloc);
    for byte in field {
        let Some(byte) = byte.byte_in(side, delimiter) else {
            return Ok(None);
        };
        items.push(byte)?;
    }
    Ok(Some(Bytes { items }))
}

/// The bytes of a text as they are written; none if the last backslash has nothing after it.
pub(crate) fn spelling_of(alloc: Global, text: &[u8]) -> Result<Option<Vec<Spelled>>, Memory>
    ensures { IfOk result (λ found. option_map (λ bytes. bytes.items) found ≡ scripts.spelling_of text.now) }
{
    let mut bytes = Vec::new(alloc);
    let mut rest = text;
    while let Some((first, behind)) = rest.split_first() {
        if *first != b'\\' {
            bytes.push(Spelled::Plain(*first))?;
            rest = behind;
            continue;
        }
        let Some((next, behind)) = behind.split_first() else {
            return Ok(None);
        };
        bytes.push(Spelled::Escaped(*next))?;
        rest = behind;
    }
    Ok(Some(bytes))
}

/// What stands before the first delimiter that stands by itself, and what after it.
pub(crate) fn cut(delimiter: u8, bytes: &[Spelled]) -> Option<(&[Spelled], &[Spelled])>
    ensures { option_map (λ c. (c.0.now, c.1.now)) result ≡ scripts.cut delimiter bytes.now }
{
    let place = place_of(delimiter, bytes)?;
    Some((&bytes[..place], &bytes[place + 1..]))
}

fn place_of(delimiter: u8, bytes: &[Spelled]) -> Option<usize>
    ensures place { result ≡ position (scripts.is_plain delimiter) bytes.now }
    ensures within { IfSome result (λ place. place < length bytes.now) }
{
    bytes.iter().position(|byte| byte.is_plain(delimiter))
}
