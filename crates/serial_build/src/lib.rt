//! The tasks of a plan, run one after another.
//!
//! `zlib:prep` runs, then `zlib:make`, then the tasks of `app`, which needs `zlib`: each task is run in the plan's order, from
//! the shelves of its needs, which nobody changes any more. What lines do is a parameter, by the trait `Commands`. What comes
//! of it is a function of the plan, the serial build.
#![tactic(auto)]

mod laws;
mod outcomes;
mod serial;

pub use laws::{
    built_trees_are_within_limits, labels_are_drawn, outcomes_are_of_needs, shelves_are_grounded,
    skips_come_of_failures, skips_name_the_least_need,
};
pub use outcomes::Outcomes;
pub use serial::run_serially;
