//! Where brackets close, and where commas divide.
ghost use Rattle.std.specs.Prelude.{◌≡◌, ◌<◌, IfSome, length};
ghost use Rattle.mk_syntax.specs.Brackets.{closing, comma};

/// The place of the bracket that closes one opened before the text. Brackets of the other kinds count for nothing.
pub(crate) fn closing(text: &[u8], opening: u8, closes: u8) -> Option<usize>
    ensures value { result ≡ closing opening closes 0 0 text.now }
    ensures within { IfSome result (λ place. place < length text.now) }
{
    let mut level: usize = 0;
    for (place, byte) in text.iter().enumerate() {
        if *byte == opening {
            level += 1;
        } else if *byte == closes {
            if level == 0 {
                return Some(place);
            }
            level -= 1;
        }
    }
    None
}

/// The place of the first comma outside nested round brackets.
pub(crate) fn comma(text: &[u8]) -> Option<usize>
    ensures value { result ≡ comma 0 0 text.now }
    ensures within { IfSome result (λ place. place < length text.now) }
{
    let mut level: usize = 0;
    for (place, byte) in text.iter().enumerate() {
        if *byte == b'(' {
            level += 1;
        } else if *byte == b')' {
            level = level.saturating_sub(1);
        } else if *byte == b',' && level == 0 {
            return Some(place);
        }
    }
    None
}
