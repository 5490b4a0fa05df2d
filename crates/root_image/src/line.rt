//! What the text of a line says.
ghost use Rattle.std.specs.Prelude.{◌≡◌, ◌-◌, ◌^◌, ◌<◌, ◌==◌, ◌||◌, [], ◌∷◌, length, min, IfOk, IfSome, MatchOption};
ghost use Rattle.std.specs.List.{list_all, position};
ghost use Rattle.std.specs.Option.{option_map, option_copied};
ghost use Rattle.root_image.specs.Words.{behind, byte_of, bytes_of, digit_of, is_number, is_octal, mode_of, mode_word, number_of, path_at, path_behind, size_word, word_of};
ghost use Rattle.root_image.specs.Roots.{is_link_text};
ghost use Rattle.root_image.specs.Reader.{capped_word};
ghost use Rattle.br_path.specs.Path.{is_name_byte};
ghost use Rattle.br_path.specs.Text.{is_digit};

use br_path::{Memory, Path, PathFault, is_digit};
use std::alloc::Global;

/// What stands after a word, if the text begins with it.
pub(crate) fn behind<'t>(text: &'t [u8], word: &[u8]) -> Option<&'t [u8]>
    ensures { option_copied result ≡ behind word.now text.now }
{
    text.strip_prefix(word)
}

/// What stands before the first blank, and what stands after it.
fn word(text: &[u8]) -> Option<(&[u8], &[u8])>
    ensures { option_map (λ cut. (cut.0.now, cut.1.now)) result ≡ word_of text.now }
{
    match blank_place(text) {
        None => None,
        Some(place) => Some((&text[..place], &text[place + 1..])),
    }
}

/// A mode before a blank, and what stands after it.
pub(crate) fn mode_word(text: &[u8]) -> Option<(u16, &[u8])>
    ensures { option_map (λ word. (word.0, word.1.now)) result ≡ mode_word text.now }
{
    match word(text) {
        None => None,
        Some((digits, rest)) => match mode(digits) {
            None => None,
            Some(mode) => Some((mode, rest)),
        },
    }
}

/// A size before a blank, or the greatest that fits, and what stands after it.
pub(crate) fn size_word(text: &[u8]) -> Option<(usize, &[u8])>
    ensures { option_map (λ word. (word.0, word.1.now)) result ≡ capped_word (size_word text.now) }
{
    match word(text) {
        None => None,
        Some((digits, rest)) => match number(digits) {
            None => None,
            Some(size) => Some((size, rest)),
        },
    }
}

fn blank_place(text: &[u8]) -> Option<usize>
    ensures place { result ≡ position (λ byte. byte == 32) text.now }
    ensures within { IfSome result (λ place. place < length text.now) }
{
    text.iter().position(|byte| *byte == b' ')
}

/// The mode that four octal digits write.
fn mode(text: &[u8]) -> Option<u16>
    ensures { result ≡ mode_of text.now }
{
    match text {
        [a, b, c, d] => mode_of_digits(*a, *b, *c, *d),
        _ => None,
    }
}

fn mode_of_digits(a: u8, b: u8, c: u8, d: u8) -> Option<u16>
    ensures { result ≡ mode_of (a ∷ b ∷ c ∷ d ∷ []) }
{
    if is_octal(a) && is_octal(b) && is_octal(c) && is_octal(d) {
        let high = u16::from(a - b'0') * 512 + u16::from(b - b'0') * 64;
        Some(high + u16::from(c - b'0') * 8 + u16::from(d - b'0'))
    } else {
        None
    }
}

fn is_octal(byte: u8) -> bool
    ensures { result ≡ is_octal byte }
{
    b'0' <= byte && byte <= b'7'
}

/// The number that decimal digits write, or the greatest that fits. No text and no list has so many bytes or items.
pub(crate) fn number(digits: &[u8]) -> Option<usize>
    ensures { result ≡ option_map (λ n. min n (2 ^ 64 - 1)) (number_of digits.now) }
{
    if !is_number(digits) {
        return None;
    }
    let mut number = 0usize;
    for digit in digits {
        number = number
            .saturating_mul(10)
            .saturating_add(usize::from(digit.saturating_sub(b'0')));
    }
    Some(number)
}

fn is_number(digits: &[u8]) -> bool
    ensures { result ≡ is_number digits.now }
{
    match digits {
        [] => false,
        [digit] => is_digit(*digit),
        [digit, rest @ ..] => is_digit(*digit) && *digit != b'0' && are_digits(rest),
    }
}

fn are_digits(digits: &[u8]) -> bool
    ensures { result ≡ list_all is_digit digits.now }
{
    digits.iter().all(|digit| is_digit(*digit))
}

/// The path of a text that is a slash alone, or a slash and a path's text.
pub(crate) fn path(alloc: Global, text: &[u8]) -> Result<Option<Path>, Memory>
    ensures { IfOk result (λ path. path ≡ path_at text.now) }
{
    match behind(text, b"/") {
        None => Ok(None),
        Some(rest) => path_behind(alloc, rest),
    }
}

fn path_behind(alloc: Global, text: &[u8]) -> Result<Option<Path>, Memory>
    ensures { IfOk result (λ path. path ≡ path_behind text.now) }
{
    if text.is_empty() {
        return Ok(Some(Path::root(alloc)));
    }
    match Path::parse(alloc, text) {
        Ok(path) => Ok(Some(path)),
        Err(fault) => match fault {
            PathFault::Memory => Err(Memory),
            _ => Ok(None),
        },
    }
}

/// Whether a text is one that a link may have.
pub(crate) fn is_link_text(text: &[u8]) -> bool
    ensures { result ≡ is_link_text text.now }
{
    1 <= text.len() && text.len() <= 1024 && are_link_bytes(text)
}

fn are_link_bytes(text: &[u8]) -> bool
    ensures { result ≡ list_all (λ byte. byte == 47 || is_name_byte byte) text.now }
{
    text.iter().all(|byte| is_link_byte(*byte))
}

fn is_link_byte(byte: u8) -> bool
    ensures { result ≡ (byte == 47 || is_name_byte byte) }
{
    b' ' <= byte && byte <= b'~'
}

/// The bytes that lower-case hex digits write, two a byte.
pub(crate) fn bytes(alloc: Global, digits: &[u8]) -> Result<Option<Vec<u8>>, Memory>
    ensures { IfOk result (λ bytes. option_map (λ b. b.items) bytes ≡ bytes_of digits.now) }
{
    let mut bytes = Vec::with_capacity(alloc, digits.len() / 2)?;
    let mut rest = digits;
    while let Some((high, low, more)) = first_pair(rest) {
        match byte(high, low) {
            None => return Ok(None),
            Some(byte) => bytes.push(byte)?,
        }
        rest = more;
    }
    if rest.is_empty() {
        Ok(Some(bytes))
    } else {
        Ok(None)
    }
}

/// The first two digits, and those after them.
fn first_pair(digits: &[u8]) -> Option<(u8, u8, &[u8])>
    ensures { MatchOption result (length digits.now < 2) (λ pair. digits.now ≡ pair.0 ∷ pair.1 ∷ pair.2.now) }
{
    match digits {
        [high, low, rest @ ..] => Some((*high, *low, rest)),
        _ => None,
    }
}

fn byte(high: u8, low: u8) -> Option<u8>
    ensures { result ≡ byte_of high low }
{
    Some(digit(high)? * 16 + digit(low)?)
}

fn digit(byte: u8) -> Option<u8>
    ensures value { result ≡ digit_of byte }
    ensures small { IfSome result (λ value. value < 16) }
{
    match byte {
        b'0'..=b'9' => Some(byte - b'0'),
        b'a'..=b'f' => Some(byte - b'a' + 10),
        _ => None,
    }
}
