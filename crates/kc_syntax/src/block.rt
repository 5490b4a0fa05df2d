//! Blocks that are open, and what attribute lines belong to.

use kc_menu::Exprs;

/// What a block is. A file that is read counts as one, since blocks are closed in their files.
#[derive(Clone, Copy, PartialEq, Eq)]
pub(crate) enum Block {
    Menu,
    If,
    Choice,
    File,
}

/// A block that is open.
#[derive(Drop)]
pub(crate) struct Open {
    pub(crate) block: Block,
    /// Its first line.
    pub(crate) line: u32,
    /// The choice that what stands in it is inside of, by its place among all.
    pub(crate) choice: Option<u32>,
    /// The conditions that it puts on what stands in it.
    pub(crate) conditions: Exprs,
}

/// What the attribute lines belong to that may follow.
#[derive(Clone, Copy)]
pub(crate) enum Owner {
    Nobody,
    /// The innermost open block, a menu.
    Menu,
    /// The innermost open block, a choice.
    Choice,
    /// A comment, which keeps nothing.
    Comment,
    /// The last entry.
    Entry,
}
