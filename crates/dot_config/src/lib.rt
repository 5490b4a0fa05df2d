//! The `.config` file: the wishes that it states, and the text that states values.
//!
//! A line has one of these forms:
//!
//! - blanks alone, or a comment, which begins with `#`: it says nothing;
//! - `# S is not set`, in exactly these bytes: the symbol S is wished to be n;
//! - `S=word`, with a bare word of printable bytes but spaces and `"`;
//! - `S="text"`, where a backslash takes the next byte as it is, and nothing follows the closing quote.
//!
//! S has letters, digits and `_`. The last line of a symbol counts, with its own place among the others. No lines are joined.
//!
//! Written are, in the order of the values: `S=y` for a bool that is y, `# S is not set` for a visible bool that is n, a
//! string that is visible or not empty, and an int that isn't empty. What is written is read back as it was (`written_is_read`).
//!
//! Reading takes time proportional to the text, writing to the menu and the values.
#![tactic(auto)]

mod error;
mod laws;
mod line;
mod reader;
mod symbols;
mod writer;

pub use error::WishError;
pub use kc_menu::{Wish, WishValue, Wishes};
pub use laws::{one_reading, written_is_read};
pub use reader::read;
pub use writer::write;
