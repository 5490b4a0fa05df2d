//! The brackets of references.
ghost use Rattle.std.specs.Prelude.{◌≡◌, ℕ, ◌<◌, List, length, IfSome};
ghost use Rattle.mk_expand.specs.declared.bracket.Bracket.{Bracket as Brackets};
ghost use Rattle.mk_expand.specs.Bracket.{opening, closing, close_of, comma_of};
ghost use Rattle.mk_expand.specs.Laws.{IsFirstComma};

/// The brackets of a reference, of which each kind is counted by itself.
#[derive(Clone, Copy)]
pub(crate) enum Bracket {
    Round,
    Curly,
}

impl Bracket {
    fn opening(self) -> u8
        ensures { result ≡ opening self }
    {
        match self {
            Bracket::Round => b'(',
            Bracket::Curly => b'{',
        }
    }

    fn closing(self) -> u8
        ensures { result ≡ closing self }
    {
        match self {
            Bracket::Round => b')',
            Bracket::Curly => b'}',
        }
    }

    /// Where the bracket closes that is open before a text.
    pub fn close(self, text: &[u8]) -> Option<usize>
        ensures place { result ≡ close_of self 0 0 text.now }
        ensures within { IfSome result (λ place. place < length text.now) }
    {
        let mut level: usize = 0;
        for (place, byte) in text.iter().enumerate() {
            if *byte == self.opening() {
                level += 1;
            } else if *byte == self.closing() {
                if level == 0 {
                    return Some(place);
                }
                level -= 1;
            }
        }
        None
    }

    /// The first comma of a text outside nested brackets.
    pub fn comma(self, text: &[u8]) -> Option<usize>
        ensures place { result ≡ comma_of self 0 0 text.now }
        ensures within { IfSome result (λ place. place < length text.now) }
    {
        let mut level: usize = 0;
        for (place, byte) in text.iter().enumerate() {
            if *byte == self.opening() {
                level += 1;
            } else if *byte == self.closing() {
                level = level.saturating_sub(1);
            } else if *byte == b',' && level == 0 {
                return Some(place);
            }
        }
        None
    }
}

/// The comma that divides a text is the first before which each bracket that was opened is closed.
pub fn first_comma_divides()
    ensures { (kind : Brackets) (text : List ℕ) → IsFirstComma kind text (comma_of kind 0 0 text) }
{}
