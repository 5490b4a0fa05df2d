//! The conditions of a configuration, the values of its symbols, and which condition holds at which values.
//!
//! A condition compares texts and asks whether symbols are set, and joins such tests by `!`, `&&` and `||`, of which
//! `!` binds most tightly and `||` least. It has at most 1,024 atoms, and at most 64 brackets and `!` are open at a place.
//! The bare word `m` may not stand in it. Reading and asking take time proportional to the condition.
#![tactic(auto)]

mod expr;
mod holds;
mod read;

pub use expr::{Atom, Expr};
pub use read::{conditions_are_read, expression};
