//! The lines of a configuration file, and the parts of each.
//!
//! A line ends at a newline. A backslash right before a newline joins the two lines, with one space in place of both,
//! and the joined line has the number of its first. A line is a list of parts: words, quoted texts, operators and
//! brackets, with blanks between them and perhaps a comment after. Lines without parts are left out.
//!
//! A line of the one word `help` or `---help---` begins a block of text, which is left out too. In it nothing is joined.
//! Its first line that isn't blank gives the indent, and it ends before the first such line that is indented less.
//!
//! The time is proportional to the text.
#![tactic(auto)]

mod bytes;
mod lexer;
mod lines;
mod part;

pub use bytes::{is_blank, is_symbol_byte, is_word_byte};
pub use lexer::{lines_have_parts, parts_of};
pub use lines::{lines_of, texts_have_lines};
pub use part::{Line, Part, Parts};
