//! Texts as an answer writes them.
use case_text::{Page, Stopped};

/// Puts a line of a front and a text, in which `{0xHH}` stands for a byte that isn't printable ASCII.
pub(crate) fn put_line(page: &mut Page, front: &[u8], text: &[u8]) -> Result<(), Stopped> {
    page.put(front)?;
    for byte in text {
        put_byte(page, *byte)?;
    }
    page.end()
}

fn put_byte(page: &mut Page, byte: u8) -> Result<(), Stopped> {
    if b' ' <= byte && byte <= b'~' {
        return page.put(&[byte]);
    }
    page.put(b"{0x")?;
    page.put(&[digit(byte >> 4), digit(byte & 15)])?;
    page.put(b"}")
}

/// The hexadecimal digit of a number below 16.
fn digit(number: u8) -> u8 {
    const DIGITS: &[u8; 16] = b"0123456789abcdef";
    DIGITS[usize::from(number & 15)]
}
