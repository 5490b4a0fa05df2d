//! A text that is read from its front.
ghost use Rattle.std.specs.Prelude.{◌≡◌, ◌<◌, ◌+◌, ◌^◌, length};

use br_path::is_blank;

/// What is left of a text.
#[derive(Drop)]
pub(crate) struct Reader<'a> {
    pub(crate) rest: &'a [u8],
    /// The place of its first byte, in the whole text.
    pub(crate) place: u32,
    ghost within: { place + length rest.now < 2 ^ 32 },
}

impl<'a> Reader<'a> {
    ghost use Rattle.sh_words.specs.Left.{left, behind_blanks};
    ghost use Rattle.sh_words.specs.Shown.{shown, first, IsTake};

    pub(crate) fn new(text: &'a [u8]) -> Reader<'a>
        requires { length text.now < 2 ^ 32 }
        ensures { shown result ≡ left 0 text.now }
    {
        Reader {
            rest: text,
            place: 0,
        }
    }

    /// The next byte.
    pub(crate) fn front(&self) -> Option<u8>
        ensures { result ≡ first (shown self.now).text }
    {
        self.rest.first().copied()
    }

    /// Takes the next byte, with its place.
    pub(crate) fn take(&mut self) -> Option<(u32, u8)>
        ensures { IsTake (shown self.old) (shown self.new) result }
    {
        let (byte, rest) = self.rest.split_first()?;
        let place = self.place;
        self.rest = rest;
        self.place += 1;
        Some((place, *byte))
    }

    /// Takes the blanks that begin here.
    pub(crate) fn skip_blanks(&mut self)
        ensures { shown self.new ≡ behind_blanks (shown self.old).place (shown self.old).text }
    {
        while let Some((byte, rest)) = self.rest.split_first() {
            if !is_blank(*byte) {
                break;
            }
            self.rest = rest;
            self.place += 1;
        }
    }
}
