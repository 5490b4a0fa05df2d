//! The checker of histories.
ghost use Rattle.std.specs.Prelude.{IfOk};
ghost use Rattle.ready_yard.specs.Judged.{IsJudged};

use crate::past::Past;
use crate::turn::Turn;
use br_path::Memory;
use dep_graph::Graph;
use std::alloc::Global;

/// What a list of turns is.
#[derive(Clone, Copy)]
pub enum Judgement {
    /// A legal history in which every task has ended.
    Whole,
    /// A legal history in which some task has not ended.
    Unfinished,
    /// No legal history: the turn at this place is the first that may not follow those before it.
    Wrong { place: usize, why: Why },
}

/// Why a turn may not follow those before it. Of several reasons that hold, one is told.
#[derive(Clone, Copy)]
pub enum Why {
    /// A worker starts a task, and its number is 0 or greater than the number of workers.
    NoSuchWorker,
    /// A worker starts a task while it runs one.
    WorkerBusy,
    /// The graph has no such task.
    NoSuchTask,
    /// The task has started before.
    StartedTwice,
    /// A need of the task has not ended.
    NeedNotEnded,
    /// The task is ready, and so is a lower one.
    NotLeast,
    /// A worker ends a task that it doesn't run.
    NotRunning,
}

/// Judges a list of turns by a graph and a number of workers.
///
/// The time is proportional to the turns times the tasks and their needs, and the memory to the tasks and the workers.
pub fn judge(
    alloc: Global,
    graph: &Graph,
    workers: u32,
    turns: &[Turn],
) -> Result<Judgement, Memory>
    ensures { IfOk result (IsJudged graph.now workers turns.now) }
{
    let mut past = Past::new(alloc, graph, workers)?;
    for place in 0..turns.len() {
        let before = &turns[..place];
        if let Some(why) = past.fault(graph, workers, before, turns[place]) {
            return Ok(Judgement::Wrong { place, why });
        }
        past.put(graph, workers, before, turns[place]);
    }
    if past.is_whole(graph, workers, turns) {
        Ok(Judgement::Whole)
    } else {
        Ok(Judgement::Unfinished)
    }
}
