//! Cells that refuse posts and hide values.
ghost use Rattle.std.specs.Prelude.{◌≡◌, ◌<◌, Some, MatchResult};
ghost use Rattle.result_board.specs.Known.{Keeps, Rose};
ghost use Rattle.yard_threads.specs.Shown.{shown};

use br_path::Memory;
use result_board::Cells;
use std::alloc::Global;

/// Cells over others. Of the posts with one worker's notes every third is refused, and every fifth of its reads finds
/// nothing unless the notes know the task.
#[derive(Drop)]
pub(crate) struct Sparse<C: Drop> {
    pub(crate) inner: C,
    pub(crate) tasks: u32,
}

/// Notes of the inner cells, with the tasks whose values were posted or shown.
#[derive(Drop)]
pub(crate) struct Marked<N> {
    notes: N,
    marks: Vec<bool>,
    posts: u64,
    reads: u64,
    misses: u64,
}

impl<V: Drop, C: Cells<V> + Drop> Cells<V> for Sparse<C> {
    type Notes = Marked<C::Notes>;

    ghost tasks = { λ b. C.tasks b.inner };

    ghost board = { λ b. C.board b.inner };

    ghost of = { λ n. C.of n.notes };

    ghost known = { λ n. shown n.marks.items (C.known n.notes) };

    ghost misses = { λ n. n.misses };

    fn notes(&self, alloc: Global) -> Result<Marked<C::Notes>, Memory> {
        let notes = self.inner.notes(alloc)?;
        let marks = Vec::from_elem(alloc, false, self.tasks as usize)?;
        Ok(Marked {
            notes,
            marks,
            posts: 0,
            reads: 0,
            misses: 0,
        })
    }

    fn post(&self, task: u32, value: Box<V>, notes: &mut Marked<C::Notes>) -> Result<(), Box<V>>
        requires task { task < C.tasks self.now.inner }
        requires notes { C.of notes.old.notes ≡ C.board self.now.inner }
        ensures of { C.of notes.new.notes ≡ C.of notes.old.notes }
        ensures keeps { Keeps (shown notes.old.marks.items (C.known notes.old.notes)) (shown notes.new.marks.items (C.known notes.new.notes)) }
        ensures answer { MatchResult result (λ _. (shown notes.new.marks.items (C.known notes.new.notes) task ≡ Some value.value) × (notes.new.misses ≡ notes.old.misses)) (λ b. (b.value ≡ value.value) × Rose notes.old.misses notes.new.misses) }
    {
        notes.posts = notes.posts.wrapping_add(1);
        let place = task as usize;
        if notes.posts % 3 == 0 || place >= notes.marks.len() {
            notes.misses = notes.misses.saturating_add(1);
            return Err(value);
        }
        match self.inner.post(task, value, &mut notes.notes) {
            Ok(()) => {
                notes.marks[place] = true;
                Ok(())
            }
            Err(back) => {
                notes.misses = notes.misses.saturating_add(1);
                Err(back)
            }
        }
    }

    fn read<'a>(&'a self, task: u32, notes: &mut Marked<C::Notes>) -> Option<&'a V> {
        notes.reads = notes.reads.wrapping_add(1);
        let place = task as usize;
        if place >= notes.marks.len() || (notes.reads % 5 == 0 && !notes.marks[place]) {
            notes.misses = notes.misses.saturating_add(1);
            return None;
        }
        match self.inner.read(task, &mut notes.notes) {
            Some(value) => {
                notes.marks[place] = true;
                Some(value)
            }
            None => {
                notes.misses = notes.misses.saturating_add(1);
                None
            }
        }
    }

    fn compare(&self, left: &mut Marked<C::Notes>, right: &mut Marked<C::Notes>) {
        self.inner.compare(&mut left.notes, &mut right.notes);
    }
}
