//! Words and numbers of a line, and texts that stand in it by a short notation.
use crate::stopped::Stopped;
use std::alloc::Global;

/// What stands before the first blank of a text, and what stands after it.
pub(crate) fn divided(text: &[u8]) -> (&[u8], &[u8]) {
    match text.iter().position(|byte| *byte == b' ') {
        Some(place) => (&text[..place], &text[place + 1..]),
        None => (text, b""),
    }
}

/// The number that decimal digits write.
pub(crate) fn number(digits: &[u8]) -> Result<u32, Stopped> {
    if digits.is_empty() {
        return Err(Stopped);
    }
    let mut number = 0;
    for digit in digits {
        number = with_digit(number, *digit)?;
    }
    Ok(number)
}

fn with_digit(number: u32, digit: u8) -> Result<u32, Stopped> {
    if !digit.is_ascii_digit() {
        return Err(Stopped);
    }
    match number.checked_mul(10) {
        Some(tens) => tens.checked_add(u32::from(digit - b'0')).ok_or(Stopped),
        None => Err(Stopped),
    }
}

/// The two numbers of a text.
pub(crate) fn numbers(text: &[u8]) -> Result<(u32, u32), Stopped> {
    let (first, second) = divided(text);
    Ok((number(first)?, number(second)?))
}

/// The text that a text stands for: `{N TEXT}` in it is N times TEXT, and `{N}` is the byte N.
pub(crate) fn unfolded(alloc: Global, text: &[u8]) -> Result<Vec<u8>, Stopped> {
    let mut made = Vec::new(alloc);
    let mut is_first = true;
    for piece in text.split(|byte| *byte == b'{') {
        if is_first {
            made.extend_from_slice(piece)?;
        } else {
            put_piece(&mut made, piece)?;
        }
        is_first = false;
    }
    Ok(made)
}

// Puts what stands after a `{`.
fn put_piece(made: &mut Vec<u8>, piece: &[u8]) -> Result<(), Stopped> {
    let Some(place) = piece.iter().position(|byte| *byte == b'}') else {
        return Err(Stopped);
    };
    put_braced(made, &piece[..place])?;
    Ok(made.extend_from_slice(&piece[place + 1..])?)
}

// Puts what stands between two braces.
fn put_braced(made: &mut Vec<u8>, braced: &[u8]) -> Result<(), Stopped> {
    let (count, text) = divided(braced);
    let count = number(count)?;
    if text.is_empty() {
        return put_byte(made, count);
    }
    for _ in 0..count {
        made.extend_from_slice(text)?;
    }
    Ok(())
}

fn put_byte(made: &mut Vec<u8>, code: u32) -> Result<(), Stopped> {
    match u8::try_from(code) {
        Ok(byte) => Ok(made.push(byte)?),
        Err(_) => Err(Stopped),
    }
}
