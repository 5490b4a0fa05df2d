//! What a line of a configuration file says by itself.
//!
//! A line is of exactly one row of the table of lines, by its first word: a block's begin or end, an entry, a source,
//! or an attribute of the entry, choice, menu or comment above it. Where it may stand is no matter here.
//! The time is proportional to the line.
#![tactic(auto)]

mod keyword;
mod row;
mod table;

pub use row::{Row, is_symbol, row_of};
pub use table::lines_are_rows;
