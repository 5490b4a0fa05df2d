//! Items in numbered rows.
ghost use Rattle.std.specs.Prelude.{◌≡◌, ◌<◌, [], IfOk, OnOk, length, replicate};
ghost use Rattle.kc_solve.specs.Groups.{row, put};

use br_path::Memory;
use std::alloc::Global;
use std::marker::Model;

/// Items in their order.
#[derive(Drop)]
struct Group<T> {
    items: Vec<T>,
}

impl<T> Model for Group<T> {
    ghost use Rattle.std.specs.Prelude.{List};

    ghost Value = { List T };

    ghost view = { λ g. g.items.items };
}

/// Items in rows, which are numbered from 0.
#[derive(Drop)]
pub struct Groups<T> {
    rows: Vec<Group<T>>,
}

impl<T> Model for Groups<T> {
    ghost use Rattle.std.specs.Prelude.{List};

    ghost Value = { List (List T) };

    ghost view = { λ g. g.rows.items };
}

impl<T: Copy> Groups<T> {
    /// So many rows without items.
    pub fn new(alloc: Global, count: usize) -> Result<Groups<T>, Memory>
        ensures { IfOk result (λ g. g ≡ replicate count []) }
    {
        let mut rows = Vec::with_capacity(alloc, count)?;
        for _ in 0..count {
            rows.push(Group {
                items: Vec::new(alloc),
            })?;
        }
        Ok(Groups { rows })
    }

    /// The items of a row.
    pub fn row(&self, place: u32) -> &[T]
        requires { place < length self.now }
        ensures { result.now ≡ row self.now place }
    {
        self.rows[place as usize].items.as_slice()
    }

    /// Puts an item after the others of its row; one without a row is left out.
    pub fn put(&mut self, place: Option<u32>, item: T) -> Result<(), Memory>
        ensures { OnOk result (self.new ≡ put self.old place item) }
    {
        let Some(place) = place else {
            return Ok(());
        };
        self.push(place as usize, item)
    }

    fn push(&mut self, place: usize, item: T) -> Result<(), Memory>
        ensures { OnOk result (self.new ≡ put self.old (Some place) item) }
    {
        if place >= self.rows.len() {
            return Ok(());
        }
        self.rows[place].items.push(item)?;
        Ok(())
    }
}
