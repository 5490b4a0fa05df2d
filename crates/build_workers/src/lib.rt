//! All tasks of a plan, run to their shelves.
//!
//! [`serial`] runs them one after another, in the plan's order: each from the shelves of its needs, which nobody changes any
//! more. What it gives is a function of the plan and of the input's files, the serial build.
#![tactic(auto)]

mod commands;
mod laws;
mod one_worker;

pub use commands::RecipeLines;
pub use laws::{lines_keep, lines_keep_the_counts, lines_keep_the_root};
pub use one_worker::serial;
pub use pkg_steps::{Gate, OpenGate};
pub use serial_build::Outcomes;
