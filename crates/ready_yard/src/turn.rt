//! The turns of a history.

use br_path::Listed;

/// One turn of a worker.
#[derive(Clone, Copy)]
pub enum Turn {
    /// The worker starts the task.
    Start { worker: u32, task: u32 },
    /// The worker ends the task.
    End { worker: u32, task: u32 },
}

/// Turns in the order in which they were taken.
pub type History = Listed<Turn>;
