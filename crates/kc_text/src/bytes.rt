//! What a byte can be part of.
ghost use Rattle.std.specs.Prelude.{◌≡◌};
ghost use Rattle.kc_text.specs.Bytes as byte_is;

/// A space or a tab.
pub fn is_blank(byte: u8) -> bool
    ensures { result ≡ byte_is.blank byte }
{
    byte == b' ' || byte == b'\t'
}

/// A letter, a digit or `_`: what the name of a symbol has.
#[tactic(auto, unfolding(crate::specs::Bytes::of_symbol))]
pub fn is_symbol_byte(byte: u8) -> bool
    ensures { result ≡ byte_is.of_symbol byte }
{
    is_letter(byte) || (b'0' <= byte && byte <= b'9') || byte == b'_'
}

fn is_letter(byte: u8) -> bool
    ensures { result ≡ byte_is.letter byte }
{
    (b'a' <= byte && byte <= b'z') || (b'A' <= byte && byte <= b'Z')
}

/// A byte of a symbol's name, `-` or `.`: what a bare word has.
#[tactic(auto, unfolding(crate::specs::Bytes::of_word))]
pub fn is_word_byte(byte: u8) -> bool
    ensures { result ≡ byte_is.of_word byte }
{
    is_symbol_byte(byte) || byte == b'-' || byte == b'.'
}
