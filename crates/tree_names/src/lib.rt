//! The names at which two trees differ.
#![tactic(auto)]

mod changes;
mod nodes;
mod walk;

pub use changes::changed_names;
