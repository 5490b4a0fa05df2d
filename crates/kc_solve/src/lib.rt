//! The solution of a configuration.
//!
//! Each declared symbol has the text that its equation gives at the texts of all symbols. The solver orders the symbols so that each stands
//! after those that its equation names, and takes their equations in this order, each once. Where there is no such order,
//! or something is selected that can't be, or an int has a text that is no number, the answer is the first fault.
#![tactic(auto)]

mod fill;
mod forced;
mod groups;
mod index;
mod members;
mod naming;
mod number;
mod selected;
mod sequence;
mod solver;
mod symbols;
mod texts;
mod words;

pub use kc_equations::SolveFault;
pub use solver::{Solved, solve};
