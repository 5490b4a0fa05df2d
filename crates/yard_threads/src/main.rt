//! The ready set and the cells, used by real threads.
//!
//! In each run eight workers, each in a thread of its own, share a yard under a lock and cells for the values of the
//! tasks. A worker reads the values of a task's needs in the cells, computes the task's value from them and posts it.
//! After the threads are joined, the history is judged, the notes of each two workers are compared, and each value
//! that a worker found is compared with the value that one thread computes.
//!
//! The runs over the board find the value of every task. Other runs use cells that refuse posts and hide values, and
//! find fewer. What is printed doesn't depend on the schedule. The first run that goes wrong ends the program with
//! status 1.
#![tactic(auto)]

mod fault;
mod run;
mod sparse;
mod tasks;
mod worker;

use fault::Fault;
use result_board::Board;
use run::run_tasks;
use sparse::Sparse;
use std::alloc::Global;
use std::process::ExitCode;
use std::sync::Wait;
use std::thread::Threads;
use tasks::{TASKS, drawn_graph, serial_values};

fn main(rt: HostRuntime) -> ExitCode {
    match run_all(&rt) {
        Ok(()) => ExitCode::SUCCESS,
        Err(_) => ExitCode::FAILURE,
    }
}

fn run_all<R: Threads + Wait + Sync + Print + AllocGlobal>(rt: &R) -> Result<(), Fault> {
    for seed in 0..50 {
        run_board(rt, rt.alloc(), seed)?;
    }
    println!(rt;
        "50 runs of 512 tasks by 8 threads: every history is legal and whole, every value is the serial one"
    )?;
    for seed in 0..50 {
        run_sparse(rt, rt.alloc(), seed)?;
    }
    println!(rt;
        "50 runs over cells that refuse and hide: every history is legal and whole, every value found is the serial one"
    )?;
    Ok(())
}

fn run_board<R: Threads + Wait + Sync>(rt: &R, alloc: Global, seed: u64) -> Result<(), Fault> {
    let graph = drawn_graph(alloc, seed)?;
    let serial = serial_values(alloc, &graph)?;
    let board = Board::<u64>::open(alloc, graph.count())?;
    let found = run_tasks(rt, alloc, &graph, &board, &serial)?;
    if found == TASKS {
        Ok(())
    } else {
        Err(Fault::ValueMissing)
    }
}

fn run_sparse<R: Threads + Wait + Sync>(rt: &R, alloc: Global, seed: u64) -> Result<(), Fault> {
    let graph = drawn_graph(alloc, seed)?;
    let serial = serial_values(alloc, &graph)?;
    let cells = Sparse {
        inner: Board::<u64>::open(alloc, graph.count())?,
        tasks: graph.count(),
    };
    let found = run_tasks(rt, alloc, &graph, &cells, &serial)?;
    if 0 < found && found < TASKS {
        Ok(())
    } else {
        Err(Fault::NothingRefused)
    }
}
