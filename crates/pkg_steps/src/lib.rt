//! One task of a build: from the shelves of its needs to its own shelf.
//!
//! The make of `app` needs `app:prep`, `lib:make` and `zlib:make`. Its build tree begins as its prep left it; its
//! host, staging and target trees begin as those of `lib` with those of `zlib` laid over them. Then its lines run,
//! step by step: for `build` the PRE_BUILD hooks, BUILD_CMDS and the POST_BUILD hooks, numbered from 1. If line 3
//! fails and isn't marked `-`, the task has failed at `build`, line 3. Else the shelf has the trees, the paths that
//! the task wrote, and a stamp for each step.
//!
//! A [`TaskRun`] is begun for a task of a plan, is handed the shelves of its needs, and is then run. What lines do is
//! a parameter, by the trait [`Commands`]. A task is the same function of the shelves that it is handed, whenever and
//! wherever it is run.
#![tactic(auto)]

mod commands;
mod filling;
mod gate;
mod laws;
mod lines;
mod rows;
mod run;
mod shelving;
mod steps;
mod task_run;

pub use commands::Commands;
pub use gate::{Gate, OpenGate};
pub use laws::labels_are_handed_in;
pub use task_run::TaskRun;
