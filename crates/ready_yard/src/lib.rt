//! The ready set: which task a worker starts next, and the list of all turns.
//!
//! Of tasks 0, 1 and 2, task 2 needs both others, and there are two workers. Worker 1 asks and starts task 0, worker 2
//! starts task 1, and whoever asks then waits, until both have ended. After that task 2 starts, and when it has ended
//! there is nothing left to do. Each start and each end is a turn, and the turns in a row are the history.
//!
//! A history is legal if each turn in it may follow those before it. A worker starts a task if it is one of the
//! workers and runs nothing, and if the task is the least that never started and whose needs have all ended. A worker
//! ends the task that it runs. A legal history is whole if every task has ended in it. The yard keeps that its history
//! is legal, and [`judge`] tells of any list of turns whether it is.
#![tactic(auto)]

mod checker;
mod past;
mod task_set;
mod turn;
mod users;
mod waiting;
mod yard;

pub use checker::{Judgement, Why, judge};
pub use turn::{History, Turn};
pub use yard::{Take, Yard, YardName};
