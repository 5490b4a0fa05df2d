//! Texts as a case writes them.
//!
//! `^` and a letter stand for a control byte, as `^I` for a tab and `^J` for a newline; `^_` stands for a space, and
//! `^N<TEXT>` for a text N times.
use crate::stopped::Stopped;
use std::alloc::Global;

/// What stands before the first blank, and what stands after it.
pub(crate) fn divided(text: &[u8]) -> (&[u8], &[u8]) {
    divided_at(text, b' ')
}

/// What stands before the first such byte, and what stands after it.
fn divided_at(text: &[u8], mark: u8) -> (&[u8], &[u8]) {
    match text.iter().position(|byte| *byte == mark) {
        Some(place) => (&text[..place], &text[place + 1..]),
        None => (text, b""),
    }
}

/// A number in decimal digits.
pub(crate) fn number(text: &[u8]) -> Result<usize, Stopped> {
    let Ok(digits) = std::str::from_utf8(text) else {
        return Err(Stopped);
    };
    match digits.parse::<usize>() {
        Ok(number) => Ok(number),
        Err(_) => Err(Stopped),
    }
}

/// The text that a case means.
pub(crate) fn meant(alloc: Global, text: &[u8]) -> Result<Vec<u8>, Stopped> {
    let mut plain = Vec::new(alloc);
    for (place, part) in text.split(|byte| *byte == b'^').enumerate() {
        if place == 0 {
            plain.extend_from_slice(part)?;
        } else {
            put_control(&mut plain, part)?;
        }
    }
    repeated(alloc, plain.as_slice())
}

/// Puts what stands after a `^`, with a control byte or a space in place of its first byte. A number stays.
fn put_control(plain: &mut Vec<u8>, text: &[u8]) -> Result<(), Stopped> {
    match text.split_first() {
        None => Err(Stopped),
        Some((b'0'..=b'9', _)) => put_after(plain, b'^', text),
        Some((b'_', rest)) => put_after(plain, b' ', rest),
        Some((byte, rest)) => put_after(plain, *byte ^ 64, rest),
    }
}

fn put_after(plain: &mut Vec<u8>, byte: u8, text: &[u8]) -> Result<(), Stopped> {
    plain.push(byte)?;
    Ok(plain.extend_from_slice(text)?)
}

/// A text with each `^N<TEXT>` in it written out.
fn repeated(alloc: Global, text: &[u8]) -> Result<Vec<u8>, Stopped> {
    let mut long = Vec::new(alloc);
    for (place, part) in text.split(|byte| *byte == b'^').enumerate() {
        if place == 0 {
            long.extend_from_slice(part)?;
        } else {
            put_repeated(&mut long, part)?;
        }
    }
    Ok(long)
}

/// Puts what stands after a `^`: a number, a text in angle brackets and the rest.
fn put_repeated(long: &mut Vec<u8>, text: &[u8]) -> Result<(), Stopped> {
    let (count, rest) = divided_at(text, b'<');
    let (once, rest) = divided_at(rest, b'>');
    for _ in 0..number(count)? {
        long.extend_from_slice(once)?;
    }
    Ok(long.extend_from_slice(rest)?)
}
