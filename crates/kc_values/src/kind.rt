//! The types of symbols.

/// What values a symbol has.
#[derive(Clone, Copy, Debug, PartialEq, Eq)]
pub enum Kind {
    /// `y` or `n`.
    Bool,
    /// Any text.
    Text,
    /// Digits, perhaps after a `-`, or nothing.
    Int,
}
