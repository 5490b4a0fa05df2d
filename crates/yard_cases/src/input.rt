//! Words and numbers of lines.
use crate::stopped::Stopped;

/// What stands before the first blank, and what stands after it.
pub(crate) fn divided(text: &[u8]) -> (&[u8], &[u8]) {
    match text.iter().position(|byte| *byte == b' ') {
        Some(place) => (&text[..place], &text[place + 1..]),
        None => (text, b""),
    }
}

/// What stands before the first point, and what stands after it.
pub(crate) fn parted(text: &[u8]) -> (&[u8], &[u8]) {
    match text.iter().position(|byte| *byte == b'.') {
        Some(place) => (&text[..place], &text[place + 1..]),
        None => (text, b""),
    }
}

/// The first and the last of the numbers that a word says: `7` is 7 alone, and `7-9` is 7 to 9.
pub(crate) fn span(word: &[u8]) -> Result<(u32, u32), Stopped> {
    match word.iter().position(|byte| *byte == b'-') {
        Some(place) => Ok((number(&word[..place])?, number(&word[place + 1..])?)),
        None => {
            let only = number(word)?;
            Ok((only, only))
        }
    }
}

/// The number that a word of digits says.
pub(crate) fn number(word: &[u8]) -> Result<u32, Stopped> {
    if word.is_empty() {
        return Err(Stopped);
    }
    let mut value: u32 = 0;
    for byte in word {
        value = with_digit(value, *byte)?;
    }
    Ok(value)
}

fn with_digit(value: u32, byte: u8) -> Result<u32, Stopped> {
    if !byte.is_ascii_digit() {
        return Err(Stopped);
    }
    match value.checked_mul(10) {
        None => Err(Stopped),
        Some(tens) => match tens.checked_add(u32::from(byte - b'0')) {
            None => Err(Stopped),
            Some(next) => Ok(next),
        },
    }
}
