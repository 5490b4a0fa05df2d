//! The words and the numbers of a text.
use crate::stopped::Stopped;
use std::alloc::Global;

/// What stands before the first such byte of a text, and what stands after it.
pub fn divided(text: &[u8], mark: u8) -> (&[u8], &[u8]) {
    match text.iter().position(|byte| *byte == mark) {
        Some(place) => (&text[..place], &text[place + 1..]),
        None => (text, b""),
    }
}

/// The first word of a text, and what stands after the blank.
pub fn word(text: &[u8]) -> (&[u8], &[u8]) {
    divided(text, b' ')
}

/// What a table has beside a word.
pub fn found<T: Copy>(table: &[(&[u8], T)], word: &[u8]) -> Result<T, Stopped> {
    for (name, meaning) in table {
        if *name == word {
            return Ok(*meaning);
        }
    }
    Err(Stopped)
}

/// The number that decimal digits write.
pub fn number(digits: &[u8]) -> Result<u32, Stopped> {
    if digits.is_empty() {
        return Err(Stopped);
    }
    let mut number = 0u32;
    for digit in digits {
        number = with_digit(number, *digit).ok_or(Stopped)?;
    }
    Ok(number)
}

fn with_digit(number: u32, digit: u8) -> Option<u32> {
    let digit = digit.checked_sub(b'0').filter(|digit| *digit < 10)?;
    number.checked_mul(10)?.checked_add(u32::from(digit))
}

/// The two numbers of a text.
pub fn two_numbers(text: &[u8]) -> Result<(u32, u32), Stopped> {
    let (one, other) = word(text);
    Ok((number(one)?, number(other)?))
}

/// The numbers of a text, which has none if it is empty.
pub fn numbers(alloc: Global, text: &[u8]) -> Result<Vec<u32>, Stopped> {
    let mut numbers = Vec::new(alloc);
    if !text.is_empty() {
        for word in text.split(|byte| *byte == b' ') {
            numbers.push(number(word)?)?;
        }
    }
    Ok(numbers)
}
