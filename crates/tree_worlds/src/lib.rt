//! The world of one task, and the programs that change it.
#![tactic(auto)]

mod acts;
mod applying;
mod beginning;
mod input;
mod operand;
mod reason;
mod step;
mod trees;
mod world;

pub use acts::error_of;
pub use applying::apply;
pub use operand::Operand;
pub use reason::{CommandError, Reason};
pub use step::Step;
pub use world::{Shown, ShownTree, Trees, World};
