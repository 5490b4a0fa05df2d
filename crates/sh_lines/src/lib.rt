//! The lines of a recipe, as they are written, run in the world of a task.
//!
//!     install -D -m 0644 package/foo/src/foo.conf /output/target/etc/foo.conf
//!     echo done >>/output/target/etc/log
//!
//! A line is split into its words, and its first word names a command on files or on texts. A line that can't be split, that
//! begins as an assignment or with a word of the shell's own, or that has a target for a command without output, is `Syntax`.
#![tactic(auto)]

mod laws;
mod lines;
mod names;
mod source;

pub use laws::lines_have_few_words;
pub use lines::run;
pub use source::copy_source;
