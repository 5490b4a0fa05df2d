//! The configuration files: from `Config.in` and the files that it sources to the menu that they declare.
//!
//! The files are read line by line, each sourced file in its place. A line is of one row of the table of lines in `kc_rows`. It begins
//! or ends a block (`menu`, `if`, `choice`), begins the entry of a symbol, or is an attribute of the entry, choice, menu or
//! comment above it. Blocks are closed in their files. The first line that no row allows where it stands is at fault, and so
//! is a block that is still open at the end of its file. What only the whole shows comes last: a symbol without a type, and a
//! default that isn't fit for the type of its symbol.
//!
//! There are at most 65,536 entries and as many source lines, and at most 64 blocks and 64 sources are open at a place.
//! The time is proportional to the bytes that are read, each file as often as it is sourced, and to the menu, in which an
//! entry has the conditions of all blocks round it.
#![tactic(auto)]

mod attributes;
mod block;
mod blocks;
mod draft;
mod entries;
mod error;
mod files;
mod finish;
mod puts;
mod read;
mod reader;
mod rows;
mod shared;

pub use error::{KcError, KcFault, KcKind};
pub use kc_expr::{Atom, Expr};
pub use kc_menu::{
    Choices, Entries, Exprs, KcChoice, KcDefault, KcDefaults, KcEntry, Menu, SymbolIf, SymbolIfs,
    Wish, WishValue, Wishes,
};
pub use kc_values::{Kind, Valued, Values};
pub use read::{files_are_read, parse};
