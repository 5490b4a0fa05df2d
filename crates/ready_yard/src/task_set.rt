//! Sets of tasks.
ghost use Rattle.std.specs.Prelude.{ℕ, ◌≡◌, ◌<◌, true, false, IfOk, IfSome, IfNone};
ghost use Rattle.std.specs.Int.{bit_at};
ghost use Rattle.ready_yard.specs.TaskBits.{has, IsPut};

use br_path::Memory;
use std::alloc::Global;
use std::marker::Model;

/// A set of tasks below 512, a bit for each.
#[derive(Drop)]
pub(crate) struct TaskSet {
    words: Vec<u64>,
}

impl Model for TaskSet {
    ghost use Rattle.std.specs.Prelude.{List, ℕ, ◌≡◌, length};

    ghost Value = { List ℕ };

    ghost view = { λ s. s.words.items };

    ghost invariant = { λ s. length s.words.items ≡ 8 };
}

impl TaskSet {
    /// The set without tasks.
    pub(crate) fn new(alloc: Global) -> Result<TaskSet, Memory>
        ensures { IfOk result (λ s. (task : ℕ) → has s task ≡ false) }
    {
        Ok(TaskSet {
            words: Vec::from_elem(alloc, 0, 8)?,
        })
    }

    /// Puts a task in.
    pub(crate) fn put(&mut self, task: u32)
        requires { task < 512 }
        ensures { IsPut self.old task true self.new }
    {
        let place = (task / 64) as usize;
        self.words[place] = with_bit(self.words[place], task % 64);
    }

    /// Takes a task out.
    pub(crate) fn remove(&mut self, task: u32)
        requires { task < 512 }
        ensures { IsPut self.old task false self.new }
    {
        let place = (task / 64) as usize;
        self.words[place] = without_bit(self.words[place], task % 64);
    }

    /// The least task of the set.
    pub(crate) fn least(&self) -> Option<u32>
        ensures some { IfSome result (λ task. has self.now task ≡ true) }
        ensures least { IfSome result (λ task. (other : ℕ) → other < task → has self.now other ≡ false) }
        ensures none { IfNone result ((task : ℕ) → has self.now task ≡ false) }
    {
        for place in 0..8 {
            let word = self.words[place as usize];
            if word != 0 {
                return Some(place * 64 + lowest_bit(word));
            }
        }
        None
    }
}

fn with_bit(word: u64, place: u32) -> u64
    requires { place < 64 }
    ensures here { bit_at result place ≡ 1 }
    ensures others { (other : ℕ) → (other ≡ place → ⊥) → bit_at result other ≡ bit_at word other }
{
    word | (1 << place)
}

fn without_bit(word: u64, place: u32) -> u64
    requires { place < 64 }
    ensures here { bit_at result place ≡ 0 }
    ensures others { (other : ℕ) → other < 64 → (other ≡ place → ⊥) → bit_at result other ≡ bit_at word other }
{
    word & !(1 << place)
}

fn lowest_bit(word: u64) -> u32
    requires { word ≡ 0 → ⊥ }
    ensures inside { result < 64 }
    ensures here { bit_at word result ≡ 1 }
    ensures lowest { (other : ℕ) → other < result → bit_at word other ≡ 0 }
{
    word.trailing_zeros()
}
