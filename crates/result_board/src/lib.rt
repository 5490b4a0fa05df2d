//! A cell for the result of each task, and notes of what was seen in the cells.
//!
//! Eight workers share one board. Worker 3 makes the result of task 7 and posts it; worker 5, which makes a task that
//! needs task 7, reads it. A cell is set once, so all who find a value in it find the same one. No proof can look into
//! a cell that other threads share, so each worker keeps notes: what it posted and what it read. Two notes that know
//! the cell of a task know one value of it, and after the workers are joined their notes are compared.
//!
//! The contracts stand on the trait [`Cells`], so that code can be generic over the board. Such code cannot raise the
//! count of misses of its notes: only the cells do, and only where they refused a value or gave none.
#![tactic(auto)]

mod board;
mod cells;

pub use board::{Board, Notes};
pub use cells::Cells;
