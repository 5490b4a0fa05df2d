//! What programs of cases are made of.
//!
//! A program of cases reads a table from standard input, and prints each line with its answers below it. A line is a word, a
//! blank and a text:
//!
//!     parse a{0x7f}b
//!     ! bad-byte 1
//!
//! An empty line and one that begins with `#` ask for nothing. In the text of any other line `{N TEXT}` stands for N times
//! TEXT, which has one byte at least, and `{0xHH}` for a byte. A `{` before anything but a digit stands for itself.
//!
//! A line that the program doesn't know, a stream that fails and a call that is out of memory end the program with status 1.
//! That line is then the last that is printed.
#![tactic(auto)]

mod files;
mod notation;
mod page;
mod program;
mod small_files;
mod stopped;
mod words;

pub use files::{FileText, FileTexts};
pub use notation::spelled_out;
pub use page::Page;
pub use program::{Table, run};
pub use small_files::SmallFiles;
pub use stopped::Stopped;
pub use words::{divided, found, number, numbers, two_numbers, word};
