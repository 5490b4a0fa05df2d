//! The texts of reports: what became of a build, the line of a fault, the tasks of a plan, and packages of it.
//!
//! `fault cycle zlib:make` is a line of a fault: the word `fault`, the kind, and what it is about. A task is written as its package
//! and its part, `zlib:prep` or `zlib:make`. A plan has a line for each task in the order in which they are taken: the task, and after it
//! those that it needs. Packages have a line each.
//!
//! The time is that of writing the text.
#![tactic(auto)]

mod builds;
mod fault;
mod faults;
mod lines;
mod plans;
mod words;

pub use builds::build_text;
pub use fault::InputFault;
pub use faults::fault_text;
pub use lines::{push_path, push_status};
pub use plans::{names_text, plan_text};
