//! Blanks and words.
ghost use Rattle.std.specs.Prelude.{◌≡◌, ◌≤◌, length, option_copied, bytes_eq, position};
ghost use Rattle.std.specs.List.{position_or_len};
ghost use Rattle.mk_syntax.specs.Blanks.{is_blank, skip_blanks, trim_end, first_word, behind_word, behind};

pub(crate) fn is_blank(byte: u8) -> bool
    ensures { result ≡ is_blank byte }
{
    byte == b' ' || byte == b'\t'
}

/// A text without the blanks that it begins with.
pub(crate) fn skip_blanks(text: &[u8]) -> &[u8]
    ensures { result.now ≡ skip_blanks text.now }
{
    let mut rest = text;
    while let Some((byte, behind)) = rest.split_first() {
        if !is_blank(*byte) {
            return rest;
        }
        rest = behind;
    }
    rest
}

/// A text without the blanks at its end.
pub(crate) fn trim_end(text: &[u8]) -> &[u8]
    ensures { result.now ≡ trim_end text.now }
{
    let mut rest = text;
    while let Some((byte, front)) = rest.split_last() {
        if !is_blank(*byte) {
            return rest;
        }
        rest = front;
    }
    rest
}

/// The bytes up to a blank, and what follows the blanks there.
pub(crate) fn split_word(text: &[u8]) -> (&[u8], &[u8])
    ensures word { result.0.now ≡ first_word text.now }
    ensures further { result.1.now ≡ behind_word text.now }
{
    let (word, further) = text.split_at(word_length(text));
    (word, skip_blanks(further))
}

#[tactic(auto, using(crate::proofs::Places::places))]
fn word_length(text: &[u8]) -> usize
    ensures value { result ≡ position_or_len is_blank text.now }
    ensures within { result ≤ length text.now }
{
    first_blank(text).unwrap_or(text.len())
}

fn first_blank(text: &[u8]) -> Option<usize>
    ensures { result ≡ position is_blank text.now }
{
    text.iter().position(|byte| is_blank(*byte))
}

/// What stands after a front, where the text begins with it.
pub(crate) fn behind<'a>(text: &'a [u8], front: &[u8]) -> Option<&'a [u8]>
    ensures { option_copied result ≡ behind front.now text.now }
{
    text.strip_prefix(front)
}

pub(crate) fn is(text: &[u8], word: &[u8]) -> bool
    ensures { result ≡ bytes_eq text.now word.now }
{
    text == word
}
