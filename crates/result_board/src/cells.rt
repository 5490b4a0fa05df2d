//! Boards, for code that is generic over them.
ghost use Rattle.std.specs.Prelude.{◌≡◌, ℕ, ◌<◌, ◌≤◌, List, Option, Some, None, IfOk, IfNone, IfSome, MatchResult};
ghost use Rattle.result_board.specs.Known.{Keeps, Agree, Rose};

use br_path::Memory;
use std::alloc::Global;

/// A cell for each task, which threads share.
///
/// Whatever a call answers, the notes handed in stay notes of this board, and they still know all that they knew. Their
/// count of misses is 0 at first and never falls. It rises where a post was refused or a read found nothing, and only
/// the implementation can raise it.
pub trait Cells<V>: Sync {
    /// What a worker knows of the cells.
    type Notes: Send + Drop;

    ghost tasks: { Self → ℕ };

    ghost board: { Self → List ℕ };

    ghost of: { Self.Notes → List ℕ };

    ghost known: { Self.Notes → ℕ → Option V };

    ghost misses: { Self.Notes → ℕ };

    /// Notes of this board that know nothing.
    fn notes(&self, alloc: Global) -> Result<Self::Notes, Memory>
        ensures of { IfOk result (λ n. of n ≡ board self.now) }
        ensures known { IfOk result (λ n. (t : ℕ) → known n t ≡ None) }
        ensures misses { IfOk result (λ n. misses n ≡ 0) };

    /// Puts a value into the cell of a task. After Ok the cell holds it and the notes know it; a refusal hands it back.
    fn post(&self, task: u32, value: Box<V>, notes: &mut Self::Notes) -> Result<(), Box<V>>
        requires task { task < tasks self.now }
        requires notes { of notes.old ≡ board self.now }
        ensures of { of notes.new ≡ of notes.old }
        ensures keeps { Keeps (known notes.old) (known notes.new) }
        ensures answer { MatchResult result (λ _. (known notes.new task ≡ Some value.value) × (misses notes.new ≡ misses notes.old)) (λ b. (b.value ≡ value.value) × Rose (misses notes.old) (misses notes.new)) };

    /// What the cell of a task holds. If the notes know the task, it is the value that they know, and there is one.
    fn read<'a>(&'a self, task: u32, notes: &mut Self::Notes) -> Option<&'a V>
        requires task { task < tasks self.now }
        requires notes { of notes.old ≡ board self.now }
        ensures of { of notes.new ≡ of notes.old }
        ensures keeps { Keeps (known notes.old) (known notes.new) }
        ensures some { IfSome result (λ v. (known notes.new task ≡ Some v.now) × (misses notes.new ≡ misses notes.old)) }
        ensures none { IfNone result ((known notes.old task ≡ None) × Rose (misses notes.old) (misses notes.new)) };

    /// Of each task that both notes know, they know one value.
    fn compare(&self, left: &mut Self::Notes, right: &mut Self::Notes)
        requires left { of left.old ≡ board self.now }
        requires right { of right.old ≡ board self.now }
        ensures left { (of left.new ≡ of left.old) × (known left.new ≡ known left.old) × (misses left.new ≡ misses left.old) }
        ensures right { (of right.new ≡ of right.old) × (known right.new ≡ known right.old) × (misses right.new ≡ misses right.old) }
        ensures agree { Agree (known left.old) (known right.old) };
}
