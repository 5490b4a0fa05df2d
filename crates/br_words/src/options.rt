//! The options of `build`.
ghost use Rattle.std.specs.Prelude.{◌≡◌};
ghost use Rattle.br_words.specs.Answers.{Gives};
ghost use Rattle.br_words.specs.Reading as reading;

use crate::command::{Words, WordsFault, ended, is_text};
use br_path::Bytes;

/// The most workers that there may be.
const MOST_WORKERS: u32 = 64;

/// Reads what stands after `build`.
pub(crate) fn build(words: &[Bytes]) -> Result<Words, WordsFault>
    ensures { Gives (reading.options words.now) result }
{
    let Some((word, rest)) = words.split_first() else {
        return Ok(Words::Build {
            workers: 1,
            trace: false,
        });
    };
    if is_text(word, b"-j") {
        return jobs(rest);
    }
    if is_text(word, b"--trace") {
        return behind_trace(rest);
    }
    Err(WordsFault::At(1))
}

// After `build -j`.
fn jobs(words: &[Bytes]) -> Result<Words, WordsFault>
    ensures { Gives (reading.jobs 2 reading.behind_jobs words.now) result }
{
    let Some((word, rest)) = words.split_first() else {
        return Err(WordsFault::At(2));
    };
    let Some(workers) = workers_of(word) else {
        return Err(WordsFault::At(2));
    };
    behind_jobs(rest, workers)
}

// After `build -j N`.
fn behind_jobs(words: &[Bytes], workers: u32) -> Result<Words, WordsFault>
    ensures { Gives (reading.behind_jobs words.now workers) result }
{
    let Some((word, rest)) = words.split_first() else {
        return Ok(Words::Build {
            workers,
            trace: false,
        });
    };
    if is_text(word, b"--trace") {
        return traced(rest, workers);
    }
    Err(WordsFault::At(3))
}

// After `build --trace`.
fn behind_trace(words: &[Bytes]) -> Result<Words, WordsFault>
    ensures { Gives (reading.behind_trace words.now) result }
{
    let Some((word, rest)) = words.split_first() else {
        return Ok(Words::Build {
            workers: 1,
            trace: true,
        });
    };
    if is_text(word, b"-j") {
        return traced_jobs(rest);
    }
    Err(WordsFault::At(2))
}

// After `build --trace -j`.
fn traced_jobs(words: &[Bytes]) -> Result<Words, WordsFault>
    ensures { Gives (reading.jobs 3 reading.traced words.now) result }
{
    let Some((word, rest)) = words.split_first() else {
        return Err(WordsFault::At(3));
    };
    let Some(workers) = workers_of(word) else {
        return Err(WordsFault::At(3));
    };
    traced(rest, workers)
}

// After both options.
fn traced(words: &[Bytes], workers: u32) -> Result<Words, WordsFault>
    ensures { Gives (reading.traced words.now workers) result }
{
    ended(
        4,
        Words::Build {
            workers,
            trace: true,
        },
        words,
    )
}

// The number of workers that a word says: 1 to 64, in decimal without leading zeros.
fn workers_of(word: &Bytes) -> Option<u32>
    ensures { result ≡ reading.workers_of word.now }
{
    match word.as_slice() {
        [byte] => one_digit(*byte),
        [first, second] => two_digits(*first, *second),
        _ => None,
    }
}

fn one_digit(byte: u8) -> Option<u32>
    ensures { result ≡ reading.one_digit byte }
{
    if !matches!(byte, b'1'..=b'9') {
        return None;
    }
    Some(u32::from(byte - b'0'))
}

fn two_digits(first: u8, second: u8) -> Option<u32>
    ensures { result ≡ reading.two_digits first second }
{
    let tens = one_digit(first)?;
    if !second.is_ascii_digit() {
        return None;
    }
    let number = tens * 10 + u32::from(second - b'0');
    if number > MOST_WORKERS {
        return None;
    }
    Some(number)
}
