//! What the lines of a case do.

/// What a line does.
#[derive(Clone, Copy)]
pub(crate) enum Act {
    Begin,
    Read,
    Set,
    Chain,
    Local,
    Variable,
    Value,
    Left,
    Reference,
    Words,
    Blank,
}

const ACTS: [Act; 11] = [
    Act::Begin,
    Act::Read,
    Act::Set,
    Act::Chain,
    Act::Local,
    Act::Variable,
    Act::Value,
    Act::Left,
    Act::Reference,
    Act::Words,
    Act::Blank,
];

impl Act {
    /// The word that begins a line.
    fn word(self) -> &'static [u8] {
        match self {
            Act::Begin => b"case",
            Act::Read => b"read",
            Act::Set => b"set",
            Act::Chain => b"chain",
            Act::Local => b"local",
            Act::Variable => b"variable",
            Act::Value => b"value",
            Act::Left => b"left",
            Act::Reference => b"reference",
            Act::Words => b"words",
            Act::Blank => b"blank",
        }
    }

    pub(crate) fn of_word(word: &[u8]) -> Option<Act> {
        for act in ACTS {
            if act.word() == word {
                return Some(act);
            }
        }
        None
    }
}
