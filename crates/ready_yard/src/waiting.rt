//! What each task still waits for.
ghost use Rattle.std.specs.Prelude.{ℕ, ◌≡◌, ◌<◌, ◌≤◌, ◌-◌, [], true, false, All, IfOk, IfSome, IfNone, length, slice_index_or, slice_set};
ghost use Rattle.ready_yard.specs.TaskBits.{has, IsPut, IsPutIf};
ghost use Rattle.ready_yard.specs.Kept.{IsWaiting, IsMet, AreFirstReady};
ghost use Rattle.ready_yard.specs.History.{unmet};

use crate::task_set::TaskSet;
use br_path::Memory;
use dep_graph::Graph;
use std::alloc::Global;

/// For each task how many of its needs have not ended, and the tasks that are ready.
#[derive(Drop)]
pub(crate) struct Waiting {
    unmet: Vec<usize>,
    ready: TaskSet,
}

impl Waiting {
    /// How the tasks of a graph wait before the first turn.
    pub(crate) fn new(alloc: Global, graph: &Graph) -> Result<Waiting, Memory>
        ensures { IfOk result (λ w. IsWaiting graph.now [] w.unmet.items w.ready) }
    {
        let unmet = counts(alloc, graph)?;
        let ready = met_from_the_start(alloc, graph, unmet.as_slice())?;
        Ok(Waiting { unmet, ready })
    }

    /// The least task that is ready.
    pub(crate) fn least(&self) -> Option<u32>
        ensures some { IfSome result (λ task. has self.now.ready task ≡ true) }
        ensures least { IfSome result (λ task. (other : ℕ) → other < task → has self.now.ready other ≡ false) }
        ensures none { IfNone result ((task : ℕ) → has self.now.ready task ≡ false) }
    {
        self.ready.least()
    }

    /// A task starts, so it is ready no more.
    pub(crate) fn start(&mut self, task: u32)
        requires { task < 512 }
        ensures unmet { self.new.unmet.items ≡ self.old.unmet.items }
        ensures ready { IsPut self.old.ready task false self.new.ready }
    {
        self.ready.remove(task);
    }

    /// Lets each user of a task that has ended wait for one need fewer.
    pub(crate) fn meet_all(&mut self, users: &[u32])
        requires few { length self.old.unmet.items ≤ 512 }
        requires users { All (λ user. user < length self.old.unmet.items) users.now }
        ensures { IsMet self.old.unmet.items self.old.ready users.now self.new.unmet.items self.new.ready }
    {
        for user in users {
            self.meet(*user);
        }
    }

    /// Lets a task wait for one need fewer. It is ready if that was the last.
    fn meet(&mut self, user: u32)
        requires few { length self.old.unmet.items ≤ 512 }
        requires user { user < length self.old.unmet.items }
        ensures unmet { self.new.unmet.items ≡ slice_set self.old.unmet.items user (slice_index_or self.old.unmet.items user 0 - 1) }
        ensures ready { IsPutIf (slice_index_or self.old.unmet.items user 0 - 1) self.old.ready user self.new.ready }
    {
        let rest = self.unmet[user as usize].saturating_sub(1);
        self.unmet[user as usize] = rest;
        put_if(&mut self.ready, rest, user);
    }
}

/// Puts a task into a set if it waits for nothing.
fn put_if(ready: &mut TaskSet, unmet: usize, task: u32)
    requires { task < 512 }
    ensures { IsPutIf unmet ready.old task ready.new }
{
    if unmet == 0 {
        ready.put(task);
    }
}

/// How many needs each task has.
fn counts(alloc: Global, graph: &Graph) -> Result<Vec<usize>, Memory>
    ensures few { length graph.now ≤ 512 }
    ensures len { IfOk result (λ c. length c.items ≡ length graph.now) }
    ensures counts { IfOk result (λ c. (task : ℕ) → slice_index_or c.items task 0 ≡ unmet graph.now [] task) }
{
    let count = graph.count();
    let mut counts = Vec::with_capacity(alloc, count as usize)?;
    for task in 0..count {
        counts.push(graph.needs(task).len())?;
    }
    Ok(counts)
}

/// The tasks that need nothing.
fn met_from_the_start(alloc: Global, graph: &Graph, unmet: &[usize]) -> Result<TaskSet, Memory>
    requires len { length unmet.now ≡ length graph.now }
    ensures { IfOk result (AreFirstReady unmet.now (length unmet.now)) }
{
    let mut ready = TaskSet::new(alloc)?;
    for task in 0..graph.count() {
        put_if(&mut ready, unmet[task as usize], task);
    }
    Ok(ready)
}
