//! The board over cells that are set once.
ghost use Rattle.std.specs.Prelude.{◌≡◌, ℕ, ◌<◌, ◌≤◌, List, Option, Some, None, IfOk, IfNone, IfSome, MatchResult, map, length, slice_index_or};
ghost use Rattle.once_cell.specs.Once.{cell_name};
ghost use Rattle.result_board.specs.Known.{Keeps, Agree, Rose};

use crate::cells::Cells;
use br_path::Memory;
use once_cell::race::{Note, OnceBox};
use std::alloc::Global;

/// Cells that are set once, one for each task.
///
/// That an empty cell takes a value, and that a note finds what another thread put in, is what the cells are trusted
/// for; where one does neither, the notes count a miss.
#[derive(Drop)]
pub struct Board<V: Drop> {
    cells: Vec<OnceBox<V>>,
}

/// What a worker knows of the cells of one board.
#[derive(Drop)]
pub struct Notes<V> {
    notes: Vec<Note<V>>,
    misses: u64,
}

impl<V: Drop> Board<V> {
    /// A board of empty cells.
    pub fn open(alloc: Global, tasks: u32) -> Result<Board<V>, Memory>
        ensures { IfOk result (λ b. length b.cells.items ≡ tasks) }
    {
        let mut cells = Vec::with_capacity(alloc, tasks as usize)?;
        for _ in 0..tasks {
            cells.push(OnceBox::new(alloc))?;
        }
        Ok(Board { cells })
    }
}

impl<V: Drop + Send + Sync> Cells<V> for Board<V> {
    type Notes = Notes<V>;

    ghost tasks = { λ b. length b.cells.items };

    ghost board = { λ b. map cell_name b.cells.items };

    ghost of = { λ n. map (λ k. k.cell) n.notes.items };

    ghost known = { λ n t. slice_index_or (map (λ k. k.known) n.notes.items) t None };

    ghost misses = { λ n. n.misses };

    fn notes(&self, alloc: Global) -> Result<Notes<V>, Memory> {
        let mut notes = Vec::with_capacity(alloc, self.cells.len())?;
        for cell in &self.cells {
            notes.push(cell.note())?;
        }
        Ok(Notes { notes, misses: 0 })
    }

    fn post(&self, task: u32, value: Box<V>, notes: &mut Notes<V>) -> Result<(), Box<V>>
        requires task { task < length self.now.cells.items }
        requires notes { map (λ k. k.cell) notes.old.notes.items ≡ map cell_name self.now.cells.items }
        ensures of { map (λ k. k.cell) notes.new.notes.items ≡ map (λ k. k.cell) notes.old.notes.items }
        ensures keeps { Keeps (λ t. slice_index_or (map (λ k. k.known) notes.old.notes.items) t None) (λ t. slice_index_or (map (λ k. k.known) notes.new.notes.items) t None) }
        ensures answer { MatchResult result (λ _. (slice_index_or (map (λ k. k.known) notes.new.notes.items) task None ≡ Some value.value) × (notes.new.misses ≡ notes.old.misses)) (λ b. (b.value ≡ value.value) × Rose notes.old.misses notes.new.misses) }
    {
        let cell = &self.cells[task as usize];
        match cell.set_as(value, &mut notes.notes[task as usize]) {
            Ok(()) => Ok(()),
            Err(back) => {
                notes.misses = notes.misses.saturating_add(1);
                Err(back)
            }
        }
    }

    fn read<'a>(&'a self, task: u32, notes: &mut Notes<V>) -> Option<&'a V> {
        let cell = &self.cells[task as usize];
        match cell.get_as(&mut notes.notes[task as usize]) {
            Some(value) => Some(value),
            None => {
                notes.misses = notes.misses.saturating_add(1);
                None
            }
        }
    }

    fn compare(&self, left: &mut Notes<V>, right: &mut Notes<V>) {
        compare_all(&mut left.notes, &mut right.notes);
    }
}

fn compare_all<V>(left: &mut Vec<Note<V>>, right: &mut Vec<Note<V>>)
    requires { map (λ k. k.cell) left.old.items ≡ map (λ k. k.cell) right.old.items }
    ensures left { left.new.items ≡ left.old.items }
    ensures right { right.new.items ≡ right.old.items }
    ensures agree { Agree (λ t. slice_index_or (map (λ k. k.known) left.old.items) t None) (λ t. slice_index_or (map (λ k. k.known) right.old.items) t None) }
{
    for place in 0..left.len() {
        compare_at(left, right, place);
    }
}

fn compare_at<V>(left: &mut Vec<Note<V>>, right: &mut Vec<Note<V>>, place: usize)
    requires place { place < length left.old.items }
    requires cells { map (λ k. k.cell) left.old.items ≡ map (λ k. k.cell) right.old.items }
    ensures left { left.new.items ≡ left.old.items }
    ensures right { right.new.items ≡ right.old.items }
    ensures agree { (v : V) (w : V) → slice_index_or (map (λ k. k.known) left.old.items) place None ≡ Some v → slice_index_or (map (λ k. k.known) right.old.items) place None ≡ Some w → v ≡ w }
{
    let other = right[place].again();
    left[place].compare(other);
}
