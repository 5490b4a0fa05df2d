//! The commands on texts, printf, echo and sed, and where their output goes.
//!
//!     printf '%s=%s\n' a 1 b 2 >/output/target/conf
//!     sed -i -e 's,@PREFIX@,/usr,g' /output/build/p/p.pc
//!
//! The target of a line is made, or emptied, before the command runs. What the command puts out is appended to it at the end; a
//! command that fails puts nothing out. sed with `-i` makes each file anew, with the mode that it had.
//!
//! The time is that of the words, of the texts that are read and put out, and of the changes.
#![tactic(auto)]

mod command;
mod echo;
mod editing;
mod format;
mod laws;
mod printf;
mod redirection;
mod script;
mod sed;
mod spelled;

pub use command::run;
pub use format::{Format, Part};
pub use laws::{
    each_place_is_replaced, first_place_is_replaced, formats_are_read, newlines_stay,
    other_lines_stay, plain_formats_are_their_text, scripts_are_read, words_are_used_in_order,
};
pub use script::{Pattern, Script};
pub use spelled::{Side, Spelled};
