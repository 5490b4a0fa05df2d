//! Commands on files: install, cp, ln, mkdir, rm, mv, chmod, touch, true and false.
//!
//! `install -D -m 0644 package/foo/src/foo.conf /output/target/etc/foo.conf` makes the folder `etc` of the target tree, if it is
//! missing, and in it a file of its own with these bytes and this mode. Each command does what the tool of its name does, with the
//! letters of its row alone, in the trees of one task, within the task's rights; README.md has the rows.
#![tactic(auto)]

mod changing_modes;
mod command;
mod contents;
mod copied;
mod copying;
mod folders;
mod goal;
mod install;
mod leading;
mod linking;
mod mode;
mod moving;
mod removing;
mod room;
mod touching;

pub use command::run;
