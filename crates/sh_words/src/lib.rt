//! The words of a command line, and the target of its output.
//!
//! A line is split as a shell splits it, where a shell would neither expand nor run anything. Blanks are spaces and tabs.
//!
//! - A word goes on to a blank or to a `>` outside quotes, or to the end. It is made of pieces, with nothing between
//!   them: `a'b c'"d"\e` is the one word `ab cde`, and `''` is a word without bytes.
//! - `'` takes all to the next `'` as it is.
//! - `"` takes all to the next `"`. In it a backslash takes the next byte where that is `"`, a backslash, `$` or a backquote,
//!   and else stands for itself.
//! - Outside quotes a backslash takes the next byte, whatever it is.
//! - A `#` that begins a word ends the line.
//! - `>` makes the next word the target, and `>>` a target that is appended to.
//!
//! All else that a shell gives a meaning is refused, by the byte and its place. So is a second target.
//!
//! ```text
//! printf '%s\n' "it's" >>/output/target/log  # three words, and a target that is appended to
//! ```
#![tactic(auto)]

mod fault;
mod items;
mod laws;
mod line;
mod pieces;
mod reader;
mod word;

pub use fault::WordFault;
pub use items::split;
pub use laws::{blanks_divide, faults_are_first, texts_are_lines, written_is_read};
pub use line::{Line, Redirect};
