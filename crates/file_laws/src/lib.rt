//! Laws of the commands on files, and of sed: what holds of trees before and after them.
//!
//! Each law is a clause of a function that does nothing. The clauses speak of the programs that the commands are, and so of what each
//! command does in every world, at its end and, where it says so, at its fault.
#![tactic(auto)]

mod ending;
mod keeping;
mod making;

pub use ending::{cp_makes_tree, held_worlds_are_reached, mkdir_leaves_folders, rm_is_whole};
pub use keeping::{chmod_keeps_names, mkdir_keeps_all, touch_keeps_all};
pub use making::{cp_makes_file, install_makes_file, ln_adds_name, mv_is_whole, sed_makes_file};
