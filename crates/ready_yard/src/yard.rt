//! The yard.
ghost use Rattle.std.specs.Prelude.{ℕ, ◌≡◌, ◌+◌, ◌*◌, ◌<◌, ◌≤◌, List, [], ◌∷◌, ◌++◌, length, Some, None, true, false, IfOk, IfSome, IfNone, IsTrue};
ghost use Rattle.ready_yard.specs.History.{runs, IsLeastReady, MayFollow, IsLegal, NoneReady, NoneRuns, SomeRuns, Takes};
ghost use Rattle.ready_yard.specs.Kept.{IsSound};
ghost use Rattle.ready_yard.specs.declared.turn.Turn.TheVariants.{Start, End};

use crate::turn::{History, Turn};
use crate::users::users_of;
use crate::waiting::Waiting;
use br_path::Memory;
use dep_graph::Graph;
use std::alloc::Global;
use std::marker::{Brand, Model, PhantomData};

/// What a worker does next.
#[derive(Clone, Copy)]
pub enum Take {
    /// It runs this task, which has started.
    Job(u32),
    /// It waits: no task is ready, and some task runs.
    Wait,
    /// It ends: no task is ready, and none runs.
    End,
}

/// The needs of one graph and a number of workers, named for contracts alone.
pub trait YardName {
    ghost needs: { List (List ℕ) };

    ghost workers: { ℕ };
}

impl YardName for Brand {
    ghost needs = { [] };

    ghost workers = { 0 };
}

/// The ready set of one graph and its workers. Contracts see it as its history.
#[derive(Drop)]
pub struct Yard<N: YardName> {
    users: cycle_walks::Graph,
    waiting: Waiting,
    hands: Vec<Option<u32>>,
    turns: Vec<Turn>,
    of: PhantomData<N>,
}

impl<N: YardName> Model for Yard<N> {
    ghost use Rattle.std.specs.Prelude.{List, vec_capacity};
    ghost use Rattle.ready_yard.specs.declared.turn.Turn.{Turn};
    ghost use Rattle.ready_yard.specs.Kept.{IsYard};

    ghost Value = { List Turn };

    ghost view = { λ y. y.turns.items };

    ghost invariant = { λ y. IsYard N.needs N.workers y.users y.waiting.unmet.items y.waiting.ready y.hands.items y.turns.items (vec_capacity y.turns) };
}

impl<N: YardName> Yard<N> {
    /// The yard of a graph and 1 to 64 workers, numbered from 1, before the first turn. It takes the memory of all
    /// turns.
    pub fn open(alloc: Global, graph: &Graph, workers: u32) -> Result<Yard<N>, Memory>
        requires graph { graph.now ≡ N.needs }
        requires workers { (workers ≡ N.workers) × (1 ≤ workers) × (workers ≤ 64) }
        ensures { IfOk result (λ y. y ≡ []) }
    {
        let count = graph.count() as usize;
        let users = users_of(alloc, graph)?;
        let waiting = Waiting::new(alloc, graph)?;
        let hands = Vec::from_elem(alloc, None, workers as usize + 1)?;
        let turns = Vec::with_capacity(alloc, 2 * count)?;
        Ok(Yard {
            users,
            waiting,
            hands,
            turns,
            of: PhantomData,
        })
    }

    /// All turns so far.
    pub fn history(&self) -> &[Turn]
        ensures turns { result.now ≡ self.now }
        ensures legal { IsLegal N.needs N.workers self.now }
        ensures limit { length self.now ≤ 2 * length N.needs }
    {
        self.turns.as_slice()
    }

    /// The task that a worker runs.
    pub fn running(&self, worker: u32) -> Option<u32>
        requires { (1 ≤ worker) × (worker ≤ N.workers) }
        ensures { result ≡ runs self.now worker }
    {
        self.hands[worker as usize]
    }

    /// Lets a worker start the least task that is ready.
    pub fn take(&mut self, worker: u32) -> Take
        requires worker { (1 ≤ worker) × (worker ≤ N.workers) }
        requires idle { runs self.old worker ≡ None }
        ensures { Takes N.needs self.old worker result self.new }
    {
        match self.least() {
            Some(task) => {
                self.start(worker, task);
                Take::Job(task)
            }
            None => {
                if self.is_busy() {
                    Take::Wait
                } else {
                    Take::End
                }
            }
        }
    }

    /// Ends the task that a worker runs.
    pub fn finish(&mut self, worker: u32, task: u32)
        requires { runs self.old worker ≡ Some task }
        ensures turns { self.new ≡ self.old ++ End worker task ∷ [] }
        ensures limit { length self.new ≤ 2 * length N.needs }
    {
        self.waiting.meet_all(self.users.row(task));
        self.hands[worker as usize] = None;
        self.turns.push_reserved(Turn::End { worker, task });
    }

    /// What holds of the turns so far.
    pub fn known(&self)
        ensures legal { IsLegal N.needs N.workers self.now }
        ensures sound { IsSound N.needs N.workers self.now }
    {
        let _ = &self.users;
    }

    /// All turns, after the last.
    pub fn into_history(self) -> History
        ensures turns { result ≡ self }
        ensures legal { IsLegal N.needs N.workers result }
    {
        History { items: self.turns }
    }

    fn least(&self) -> Option<u32>
        ensures some { IfSome result (IsLeastReady N.needs self.now) }
        ensures none { IfNone result (NoneReady N.needs self.now) }
    {
        self.waiting.least()
    }

    fn is_busy(&self) -> bool
        ensures yes { IsTrue result → SomeRuns self.now }
        ensures no { result ≡ false → NoneRuns self.now }
    {
        for hand in &self.hands {
            if let Some(_task) = hand {
                return true;
            }
        }
        false
    }

    fn start(&mut self, worker: u32, task: u32)
        requires { MayFollow N.needs N.workers self.old (Start worker task) }
        ensures { self.new ≡ self.old ++ Start worker task ∷ [] }
    {
        self.waiting.start(task);
        self.hands[worker as usize] = Some(task);
        self.turns.push_reserved(Turn::Start { worker, task });
    }
}
