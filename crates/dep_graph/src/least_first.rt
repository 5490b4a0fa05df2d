//! The order of tasks without a cycle.
ghost use Rattle.std.specs.Prelude.{List, ℕ, ◌≡◌, ◌<◌, ◌≤◌, All, IfOk, OnOk, length, position, slice_set};
ghost use Rattle.cycle_walks.specs.Graph.{names, IsGraph};
ghost use Rattle.cycle_walks.specs.Order.{IsOrder as IsPlainOrder};
ghost use Rattle.cycle_walks.specs.Walks.{OnCycle};
ghost use Rattle.dep_graph.specs.Needs.{Needs, IsNeeds};
ghost use Rattle.dep_graph.specs.Order.{IsOrder};
ghost use Rattle.dep_graph.specs.Waiting.{is_ready, used_by, AreUsers};

use crate::graph::Graph;
use br_path::{Memory, Numbers};
use std::alloc::Global;

/// How a task stands.
#[derive(Clone, Copy)]
enum Stand {
    /// Not taken yet; how many of its needs aren't.
    Waits(usize),
    /// Taken.
    Taken,
}

/// The tasks that are taken, in order, and how each task stands.
#[derive(Drop)]
struct Waiting {
    stands: Vec<Stand>,
    taken: Vec<u32>,
}

/// The order of tasks of which none is on a cycle.
pub(crate) fn least_first(alloc: Global, graph: &Graph) -> Result<Numbers, Memory>
    requires { (task : ℕ) → ¬ (OnCycle (names graph.now) task) }
    ensures { IfOk result (IsOrder graph.now) }
{
    let users = users_of(alloc, graph)?;
    let mut waiting = Waiting::new(alloc, graph)?;
    while let Some(task) = waiting.least_ready() {
        waiting.take(task, users.row(task))?;
    }
    Ok(Numbers {
        items: waiting.taken,
    })
}

impl Waiting {
    ghost use Rattle.dep_graph.specs.Waiting.{shown, stand_at, fewer, fewer_at, nothing_taken, taken_next};

    /// Nothing is taken yet.
    fn new(alloc: Global, graph: &Graph) -> Result<Waiting, Memory>
        ensures { IfOk result (λ w. shown w ≡ nothing_taken graph.now) }
    {
        let mut stands = Vec::new(alloc);
        for task in 0..graph.count() {
            stands.push(Stand::Waits(graph.needs(task).len()))?;
        }
        Ok(Waiting {
            stands,
            taken: Vec::new(alloc),
        })
    }

    /// The least task that isn't taken and whose needs all are.
    fn least_ready(&self) -> Option<u32>
        requires { length self.now.stands.items ≤ 512 }
        ensures { result ≡ position is_ready (shown self.now).stands }
    {
        match first_ready(self.stands.as_slice()) {
            None => None,
            Some(task) => Some(task as u32),
        }
    }

    /// Takes a task, so that those that need it wait for one fewer.
    fn take(&mut self, task: u32, users: &[u32]) -> Result<(), Memory>
        requires task { task < length self.old.stands.items }
        requires users { All (λ user. user < length self.old.stands.items) users.now }
        ensures { OnOk result (shown self.new ≡ taken_next (shown self.old) task users.now) }
    {
        self.taken.push(task)?;
        self.stands[task as usize] = Stand::Taken;
        self.meet_all(users);
        Ok(())
    }

    /// Lets each of these tasks wait for one need fewer.
    fn meet_all(&mut self, tasks: &[u32])
        requires { All (λ task. task < length self.old.stands.items) tasks.now }
        ensures stands { self.new.stands.items ≡ fewer_at self.old.stands.items tasks.now }
        ensures taken { self.new.taken.items ≡ self.old.taken.items }
    {
        for task in tasks {
            self.meet(*task);
        }
    }

    /// Lets a task wait for one need fewer.
    fn meet(&mut self, task: u32)
        requires { task < length self.old.stands.items }
        ensures stands { self.new.stands.items ≡ slice_set self.old.stands.items task (fewer (stand_at self.old.stands.items task)) }
        ensures taken { self.new.taken.items ≡ self.old.taken.items }
    {
        self.stands[task as usize] = self.stands[task as usize].fewer();
    }
}

impl Stand {
    ghost use Rattle.dep_graph.specs.Waiting.{fewer};

    /// Whether the task waits for nothing.
    fn is_ready(&self) -> bool
        ensures { result ≡ is_ready self.now }
    {
        match self {
            Stand::Waits(count) => *count == 0,
            Stand::Taken => false,
        }
    }

    /// The stand of a task of which one need more is taken.
    fn fewer(self) -> Stand
        ensures { result ≡ fewer self }
    {
        match self {
            Stand::Waits(count) => Stand::Waits(count.saturating_sub(1)),
            Stand::Taken => Stand::Taken,
        }
    }
}

/// The place of the first task that waits for nothing.
fn first_ready(stands: &[Stand]) -> Option<usize>
    ensures { result ≡ position is_ready stands.now }
{
    stands.iter().position(|stand| stand.is_ready())
}

/// For each task those that need it.
fn users_of(alloc: Global, graph: &Graph) -> Result<cycle_walks::Graph, Memory>
    ensures needs { IsNeeds graph.now }
    ensures count { IfOk result (λ users. length users ≡ length graph.now) }
    ensures users { IfOk result (AreUsers graph.now) }
{
    let count = graph.count();
    let mut users = cycle_walks::Graph::new(alloc, count)?;
    for task in 0..count {
        add_user(&mut users, task, graph.needs(task))?;
    }
    Ok(users)
}

/// Makes a task a user of each of its needs.
fn add_user(users: &mut cycle_walks::Graph, task: u32, needs: &[u32]) -> Result<(), Memory>
    requires task { task < length users.old }
    requires needs { All (λ need. need < length users.old) needs.now }
    ensures { OnOk result (users.new ≡ used_by users.old task needs.now) }
{
    for need in needs {
        users.add(*need, task)?;
    }
    Ok(())
}

/// Tasks have an order exactly where none of them is on a cycle, and one at most. It has each once, after all that it
/// needs.
pub fn one_order()
    ensures same { (needs : Needs) (order other : List ℕ) → IsOrder needs order → IsOrder needs other → order ≡ other }
    ensures made { (needs : Needs) → IsGraph needs → ((task : ℕ) → ¬ (OnCycle (names needs) task)) → (order : List ℕ) × IsOrder needs order }
    ensures none { (needs : Needs) (order : List ℕ) → IsGraph needs → IsOrder needs order → (task : ℕ) → ¬ (OnCycle (names needs) task) }
    ensures once { (needs : Needs) (order : List ℕ) → IsOrder needs order → IsPlainOrder (length needs) (names needs) order }
{}
