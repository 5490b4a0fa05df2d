//! Lines and their parts.
ghost use Rattle.std.specs.Prelude.{List};
ghost use Rattle.kc_text.specs.declared.part.Part.{Part};

use br_path::Bytes;
use std::marker::Model;

/// A part of a line.
#[derive(Debug, Drop)]
pub enum Part {
    /// Letters, digits, `_`, `-` and `.`.
    Word(Bytes),
    /// What stands between two quotes, without the backslashes that quote the byte after them.
    Quoted(Bytes),
    /// `||`
    Or,
    /// `&&`
    And,
    /// `!`
    Not,
    /// `=`
    Same,
    /// `!=`
    Differ,
    /// `(`
    Open,
    /// `)`
    Close,
    /// Any other byte, which no line may have.
    Other,
}

/// The parts of a line.
#[derive(Debug, Drop)]
pub struct Parts {
    pub items: Vec<Part>,
}

impl Model for Parts {
    ghost Value = { List Part };

    ghost view = { λ p. p.items.items };
}

/// A line that isn't empty.
#[derive(Debug, Drop)]
pub struct Line {
    /// The number of its first raw line, from 1.
    pub number: u32,
    /// Its parts; none where a quote doesn't close.
    pub parts: Option<Parts>,
}
