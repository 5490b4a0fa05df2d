//! Texts that a line writes in short.
use crate::stopped::Stopped;
use crate::words::{divided, number, word};
use std::alloc::Global;

/// A text with N times TEXT in place of each `{N TEXT}`, and a byte in place of each `{0xHH}`.
pub fn spelled_out(alloc: Global, text: &[u8]) -> Result<Vec<u8>, Stopped> {
    let mut long = Vec::new(alloc);
    let (front, pieces) = divided(text, b'{');
    long.extend_from_slice(front)?;
    if front.len() < text.len() {
        for piece in pieces.split(|byte| *byte == b'{') {
            put_piece(&mut long, piece)?;
        }
    }
    Ok(long)
}

/// Puts what a `{` and the text after it, up to the next `{`, stand for.
fn put_piece(long: &mut Vec<u8>, piece: &[u8]) -> Result<(), Stopped> {
    match piece {
        [b'0', b'x', high, low, b'}', rest @ ..] => {
            long.push(hex(*high)? << 4 | hex(*low)?)?;
            Ok(long.extend_from_slice(rest)?)
        }
        [b'0'..=b'9', ..] => put_repeated(long, piece),
        _ => {
            long.push(b'{')?;
            Ok(long.extend_from_slice(piece)?)
        }
    }
}

fn hex(digit: u8) -> Result<u8, Stopped> {
    match digit {
        b'0'..=b'9' => Ok(digit - b'0'),
        b'a'..=b'f' => Ok(digit - b'a' + 10),
        _ => Err(Stopped),
    }
}

/// Puts a text as often as the number before it says, and what stands after its brace.
fn put_repeated(long: &mut Vec<u8>, piece: &[u8]) -> Result<(), Stopped> {
    let (count, text) = word(piece);
    // A brace that is the first byte of the text is part of it.
    let Some(place) = text.iter().skip(1).position(|byte| *byte == b'}') else {
        return Err(Stopped);
    };
    let (once, rest) = text.split_at(place + 1);
    for _ in 0..number(count)? {
        long.extend_from_slice(once)?;
    }
    Ok(long.extend_from_slice(&rest[1..])?)
}
