//! What a line says.
use br_path::{Bytes, Names};

/// The words of a line, and the target of its output.
#[derive(Drop)]
pub struct Line {
    /// The words in their order, without their quotes. The target is none of them.
    pub words: Names,
    /// The target, where there is one, wherever it stands.
    pub into: Option<Redirect>,
}

/// Where the output of a command goes.
#[derive(Drop)]
pub struct Redirect {
    /// Whether it goes after what is there: `>>`, and not `>`.
    pub append: bool,
    /// The word of the target, without its quotes.
    pub word: Bytes,
}
