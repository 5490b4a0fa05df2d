//! The options of a command: what its words say by the table of its letters.
//!
//! Of the words `-dm 0755 etc -v -- -x` by a table with the letters `d` and `v` and the letter `m` with a value, `d`, `m` and `v`
//! are given, the value of `m` is `0755`, and the operands are `etc` and `-x`.
//!
//! Until `--`, a word that begins with `-` and is longer is a group of letters, wherever it stands. A letter with a value takes
//! the rest of its word or, at the end of the word, the next word, whatever that is. All other words are operands, as are all
//! after `--`, and `-` alone is one. A letter that the table hasn't is a fault of its word, and so is each longer word that
//! begins with `--`; a letter that finds no value is one too. The first word at fault is told by its place.
//!
//! The time is proportional to the bytes of the words, times the rows of the table.
#![tactic(auto)]

mod fault;
mod options;
mod reading;
mod table;

pub use fault::OptFault;
pub use options::Options;
pub use reading::{read_options, reading_is_by_the_rule, what_is_read_was_there};
pub use table::{OptRow, OptTable};
