//! Answers of what tasks need.
use case_text::{Page, Stopped, found, number, two_numbers, word};
use dep_graph::{Graph, OrderFault};
use std::alloc::Global;

/// The most tasks.
const MOST_TASKS: u32 = 512;

/// What a line sets or asks for.
#[derive(Clone, Copy)]
enum Act {
    Tasks,
    Need,
    AllLater,
    Order,
    Ends,
    Of,
    Recursive,
    Users,
}

const ACTS: [(&[u8], Act); 8] = [
    (b"tasks", Act::Tasks),
    (b"need", Act::Need),
    (b"all-later", Act::AllLater),
    (b"order", Act::Order),
    (b"ends", Act::Ends),
    (b"of", Act::Of),
    (b"recursive", Act::Recursive),
    (b"users", Act::Users),
];

/// The tasks of a case.
#[derive(Drop)]
pub(crate) struct Needs {
    alloc: Global,
    graph: Graph,
}

impl Needs {
    /// So many tasks that need nothing.
    pub(crate) fn new(alloc: Global, count: u32) -> Result<Needs, Stopped> {
        if count > MOST_TASKS {
            return Err(Stopped);
        }
        Ok(Needs {
            alloc,
            graph: Graph::new(alloc, count)?,
        })
    }

    pub(crate) fn answer(&mut self, page: &mut Page, line: &[u8]) -> Result<(), Stopped> {
        let (word, text) = word(line);
        match found(&ACTS, word)? {
            Act::Tasks => self.begin(number(text)?),
            Act::Need => self.add(text),
            Act::AllLater => self.need_all_later(),
            Act::Order => self.answer_order(page),
            Act::Ends => self.answer_ends(page),
            Act::Of => self.answer_of(page, number(text)?),
            Act::Recursive => self.answer_recursive(page, number(text)?),
            Act::Users => self.answer_users(page, number(text)?),
        }
    }

    /// Begins with so many tasks.
    fn begin(&mut self, count: u32) -> Result<(), Stopped> {
        *self = Needs::new(self.alloc, count)?;
        Ok(())
    }

    fn answer_of(&self, page: &mut Page, task: u32) -> Result<(), Stopped> {
        if task >= self.graph.count() {
            return Err(Stopped);
        }
        page.numbers(b"    of", self.graph.needs(task))
    }

    fn answer_recursive(&self, page: &mut Page, task: u32) -> Result<(), Stopped> {
        if task >= self.graph.count() {
            return Err(Stopped);
        }
        let tasks = self.graph.recursive(self.alloc, task)?;
        page.numbers(b"    recursive", tasks.items.as_slice())
    }

    fn answer_users(&self, page: &mut Page, task: u32) -> Result<(), Stopped> {
        if task >= self.graph.count() {
            return Err(Stopped);
        }
        let users = self.graph.rdepends(self.alloc, task)?;
        page.numbers(b"    users", users.items.as_slice())
    }

    fn answer_order(&self, page: &mut Page) -> Result<(), Stopped> {
        match self.graph.order(self.alloc) {
            Ok(order) => page.numbers(b"    order", order.items.as_slice()),
            Err(OrderFault::CycleAt(task)) => page.numbers(b"    cycle", &[task]),
            Err(OrderFault::Memory) => Err(Stopped),
        }
    }

    /// How many tasks the order has, its first and its last.
    fn answer_ends(&self, page: &mut Page) -> Result<(), Stopped> {
        let Ok(order) = self.graph.order(self.alloc) else {
            return Err(Stopped);
        };
        page.number(b"    ", order.items.len() as u64)?;
        match (order.items.first(), order.items.last()) {
            (Some(first), Some(last)) => page.numbers(b"    from", &[*first, *last]),
            _ => Err(Stopped),
        }
    }

    fn add(&mut self, text: &[u8]) -> Result<(), Stopped> {
        let (task, on) = two_numbers(text)?;
        self.need(task, on)
    }

    fn need(&mut self, task: u32, on: u32) -> Result<(), Stopped> {
        let count = self.graph.count();
        if task >= count || on >= count {
            return Err(Stopped);
        }
        Ok(self.graph.need(task, on)?)
    }

    /// Lets each task need all later ones.
    fn need_all_later(&mut self) -> Result<(), Stopped> {
        let count = self.graph.count();
        for task in 0..count {
            for on in task + 1..count {
                self.need(task, on)?;
            }
        }
        Ok(())
    }
}
