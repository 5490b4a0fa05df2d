//! What is to be done, as data: the rows of the tasks, what they need, and the order in which they are taken.
//!
//! Each package has two tasks. Its prep extracts and patches the source; its make configures, builds and installs. A row has
//! the lines of its task by steps, and says by which part each need is one: the own prep task, whose build tree a make goes
//! on with; the make tasks whose trees fill the task's own; and the prep tasks whose build trees it may read. Tasks are numbered by
//! the names of their packages, prep before make, so an even number is that of a prep and an odd one that of a make.
#![tactic(auto)]

mod plan;
mod rows;

pub use plan::Plan;
pub use rows::{CommandLine, Lines, Part, Step, StepRow, StepRows, TaskRow, TaskRows};
