//! Texts: whether two are the same, and the bytes that rules name.
ghost use Rattle.std.specs.Prelude.{◌≡◌};
ghost use Rattle.br_path.specs.Text as text_byte;
ghost use Rattle.br_path.specs.Text.{is_text};

/// Whether two texts have the same bytes.
pub fn is_text(text: &[u8], other: &[u8]) -> bool
    ensures { result ≡ is_text text.now other.now }
{
    text == other
}

/// Whether a byte is a space or a tab.
pub fn is_blank(byte: u8) -> bool
    ensures { result ≡ text_byte.is_blank byte }
{
    byte == b' ' || byte == b'\t'
}

/// Whether a byte stands between words: a space, a tab or a newline.
pub fn is_white(byte: u8) -> bool
    ensures { result ≡ text_byte.is_white byte }
{
    is_blank(byte) || byte == b'\n'
}

/// Whether a byte is a digit, from `0` to `9`.
pub fn is_digit(byte: u8) -> bool
    ensures { result ≡ text_byte.is_digit byte }
{
    b'0' <= byte && byte <= b'9'
}

/// Whether a byte is a letter of ASCII.
pub fn is_letter(byte: u8) -> bool
    ensures { result ≡ text_byte.is_letter byte }
{
    (b'a' <= byte && byte <= b'z') || (b'A' <= byte && byte <= b'Z')
}
