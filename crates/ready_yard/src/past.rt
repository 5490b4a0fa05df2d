//! What follows from the turns before one that is judged.
//!
//! The calls are handed these turns too, so that contracts can speak of them.
ghost use Rattle.std.specs.Prelude.{ℕ, ◌≡◌, ◌+◌, ◌<◌, ◌++◌, [], ◌∷◌, true, false, IfOk, IsTrue, length, slice_index_or};
ghost use Rattle.std.specs.List.{list_all};
ghost use Rattle.dep_graph.specs.Needs.{needs_of};
ghost use Rattle.ready_yard.specs.History.{ended, is_ready, MayFollow, IsLegal, IsWhole};
ghost use Rattle.ready_yard.specs.Judged.{IsPast, IsFault};
ghost use Rattle.ready_yard.specs.declared.turn.Turn.TheVariants.{Start, End};

use crate::checker::Why;
use crate::turn::Turn;
use br_path::Memory;
use dep_graph::Graph;
use std::alloc::Global;

/// For each task whether it has started and whether it has ended, and for each worker what it runs.
#[derive(Drop)]
pub(crate) struct Past {
    begun: Vec<bool>,
    over: Vec<bool>,
    hands: Vec<Option<u32>>,
}

impl Past {
    /// Before the first turn.
    pub(crate) fn new(alloc: Global, graph: &Graph, workers: u32) -> Result<Past, Memory>
        ensures { IfOk result (λ p. IsPast graph.now workers p.begun.items p.over.items p.hands.items []) }
    {
        let count = graph.count() as usize;
        let begun = Vec::from_elem(alloc, false, count)?;
        let over = Vec::from_elem(alloc, false, count)?;
        let hands = Vec::from_elem(alloc, None, workers as usize + 1)?;
        Ok(Past { begun, over, hands })
    }

    /// Why a turn may not come next, if it may not.
    pub(crate) fn fault(
        &self,
        graph: &Graph,
        workers: u32,
        past: &[Turn],
        turn: Turn,
    ) -> Option<Why>
        requires { IsPast graph.now workers self.now.begun.items self.now.over.items self.now.hands.items past.now }
        ensures { IsFault graph.now workers past.now turn result }
    {
        match turn {
            Turn::Start { worker, task } => self.start_fault(graph, workers, past, worker, task),
            Turn::End { worker, task } => self.end_fault(graph, workers, past, worker, task),
        }
    }

    /// Puts a turn after the others.
    pub(crate) fn put(&mut self, graph: &Graph, workers: u32, past: &[Turn], turn: Turn)
        requires past { IsPast graph.now workers self.old.begun.items self.old.over.items self.old.hands.items past.now }
        requires legal { IsLegal graph.now workers past.now }
        requires turn { MayFollow graph.now workers past.now turn }
        ensures { IsPast graph.now workers self.new.begun.items self.new.over.items self.new.hands.items (past.now ++ turn ∷ []) }
    {
        match turn {
            Turn::Start { worker, task } => {
                self.begun[task as usize] = true;
                self.hands[worker as usize] = Some(task);
            }
            Turn::End { worker, task } => {
                self.over[task as usize] = true;
                self.hands[worker as usize] = None;
            }
        }
    }

    /// Whether every task has ended.
    pub(crate) fn is_whole(&self, graph: &Graph, workers: u32, past: &[Turn]) -> bool
        requires { IsPast graph.now workers self.now.begun.items self.now.over.items self.now.hands.items past.now }
        ensures yes { IsTrue result → IsWhole graph.now past.now }
        ensures no { result ≡ false → IsWhole graph.now past.now → ⊥ }
    {
        for over in &self.over {
            if !*over {
                return false;
            }
        }
        true
    }

    fn start_fault(
        &self,
        graph: &Graph,
        workers: u32,
        past: &[Turn],
        worker: u32,
        task: u32,
    ) -> Option<Why>
        requires { IsPast graph.now workers self.now.begun.items self.now.over.items self.now.hands.items past.now }
        ensures { IsFault graph.now workers past.now (Start worker task) result }
    {
        if worker == 0 || worker > workers {
            return Some(Why::NoSuchWorker);
        }
        if let Some(_task) = self.hands[worker as usize] {
            return Some(Why::WorkerBusy);
        }
        if task >= graph.count() {
            return Some(Why::NoSuchTask);
        }
        if self.begun[task as usize] {
            return Some(Why::StartedTwice);
        }
        if !self.is_met(graph, workers, past, task) {
            return Some(Why::NeedNotEnded);
        }
        if self.ready_below(graph, workers, past, task) {
            return Some(Why::NotLeast);
        }
        None
    }

    fn end_fault(
        &self,
        graph: &Graph,
        workers: u32,
        past: &[Turn],
        worker: u32,
        task: u32,
    ) -> Option<Why>
        requires { IsPast graph.now workers self.now.begun.items self.now.over.items self.now.hands.items past.now }
        ensures { IsFault graph.now workers past.now (End worker task) result }
    {
        if worker > workers {
            return Some(Why::NotRunning);
        }
        match self.hands[worker as usize] {
            Some(running) => {
                if running == task {
                    None
                } else {
                    Some(Why::NotRunning)
                }
            }
            None => Some(Why::NotRunning),
        }
    }

    fn ready_below(&self, graph: &Graph, workers: u32, past: &[Turn], task: u32) -> bool
        requires past { IsPast graph.now workers self.now.begun.items self.now.over.items self.now.hands.items past.now }
        requires task { task < length graph.now }
        ensures yes { IsTrue result → (other : ℕ) × (other < task) × (is_ready graph.now past.now other ≡ true) }
        ensures no { result ≡ false → (other : ℕ) → other < task → is_ready graph.now past.now other ≡ false }
    {
        for other in 0..task {
            if self.is_ready(graph, workers, past, other) {
                return true;
            }
        }
        false
    }

    fn is_ready(&self, graph: &Graph, workers: u32, past: &[Turn], task: u32) -> bool
        requires past { IsPast graph.now workers self.now.begun.items self.now.over.items self.now.hands.items past.now }
        requires task { task < length graph.now }
        ensures { result ≡ is_ready graph.now past.now task }
    {
        let begun = self.begun[task as usize];
        !begun && self.is_met(graph, workers, past, task)
    }

    fn is_met(&self, graph: &Graph, workers: u32, past: &[Turn], task: u32) -> bool
        requires past { IsPast graph.now workers self.now.begun.items self.now.over.items self.now.hands.items past.now }
        requires task { task < length graph.now }
        ensures { result ≡ list_all (ended past.now) (needs_of graph.now task) }
    {
        all_over(self.over.as_slice(), graph.needs(task))
    }
}

fn all_over(over: &[bool], tasks: &[u32]) -> bool
    ensures { result ≡ list_all (λ t. slice_index_or over.now t false) tasks.now }
{
    for task in tasks {
        if !is_over(over, *task) {
            return false;
        }
    }
    true
}

fn is_over(over: &[bool], task: u32) -> bool
    ensures { result ≡ slice_index_or over.now task false }
{
    let task = task as usize;
    if task < over.len() { over[task] } else { false }
}
