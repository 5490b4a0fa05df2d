//! The shelves of a build.
ghost use Rattle.std.specs.Prelude.{◌≡◌, ◌≤◌, ◌<◌, ℕ, IfOk, length};
ghost use Rattle.task_shelves.specs.Shelf.{no_shelf, shelf_data};
ghost use Rattle.task_shelves.specs.Sealed.{IsSealedShelf};
ghost use Rattle.serial_build.specs.Serial.{shelves_data, put};

use br_path::Memory;
use std::alloc::Global;
use std::marker::Model;
use task_shelves::{Shelf, Shelves};
use tree_ops::TreeOps;

/// A shelf for each task of a plan.
#[derive(Drop)]
pub struct Outcomes<T: TreeOps> {
    items: Vec<Shelf<T>>,
}

impl<T: TreeOps> Model for Outcomes<T> {
    ghost use Rattle.std.specs.Prelude.{List, ◌≤◌, length, All};
    ghost use Rattle.task_shelves.specs.declared.shelf.Shelf.{Shelf as shelf};
    ghost use Rattle.task_shelves.specs.Sealed.{IsSealedShelf};

    ghost Value = { List (shelf T) };

    ghost view = { λ o. o.items.items };

    ghost invariant = { λ o. (length o.items.items ≤ 512) × All (IsSealedShelf T.tree T.sealed) o.items.items };
}

impl<T: TreeOps> Outcomes<T> {
    /// Shelves of tasks none of which has run.
    pub(crate) fn none(alloc: Global, count: u32) -> Result<Outcomes<T>, Memory>
        requires few { count ≤ 512 }
        ensures count { IfOk result (λ o. length o ≡ count) }
        ensures none { IfOk result (λ o. (task : ℕ) → shelves_data T.tree o task ≡ no_shelf) }
    {
        let mut items = Vec::new(alloc);
        for _ in 0..count {
            items.push(Shelf::Skipped { by: 0 })?;
        }
        Ok(Outcomes { items })
    }

    /// The shelf of a task.
    pub(crate) fn get(&self, task: u32) -> &Shelf<T>
        requires { task < length self.now }
        ensures shelf { shelf_data T.tree result.now ≡ shelves_data T.tree self.now task }
        ensures sealed { IsSealedShelf T.tree T.sealed result.now }
    {
        &self.items[task as usize]
    }

    /// Puts the shelf of a task in its place.
    pub(crate) fn set(&mut self, task: u32, shelf: Shelf<T>)
        requires task { task < length self.old }
        requires sealed { IsSealedShelf T.tree T.sealed shelf }
        ensures count { length self.new ≡ length self.old }
        ensures put { (other : ℕ) → shelves_data T.tree self.new other ≡ put (shelves_data T.tree self.old) task (shelf_data T.tree shelf) other }
    {
        self.items[task as usize] = shelf;
    }
}

impl<T: TreeOps> Shelves for Outcomes<T> {
    type Tree = T;

    ghost tasks = { length };

    ghost shelves = { shelves_data T.tree };

    fn count(&self) -> u32 {
        self.items.len() as u32
    }

    fn shelf(&self, task: u32) -> &Shelf<T> {
        self.get(task)
    }
}
