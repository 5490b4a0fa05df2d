//! Answers of walks in a graph.
use case_text::{Page, Stopped, found, number, two_numbers, word};
use cycle_walks::{Found, Graph, leads_back, least_on_cycle, order, reached};
use std::alloc::Global;

/// What a line sets or asks for.
#[derive(Clone, Copy)]
enum Act {
    Nodes,
    Step,
    Insert,
    Chain,
    Row,
    Order,
    Least,
    Back,
    Reached,
    CountReached,
}

const ACTS: [(&[u8], Act); 10] = [
    (b"nodes", Act::Nodes),
    (b"step", Act::Step),
    (b"insert", Act::Insert),
    (b"chain", Act::Chain),
    (b"row", Act::Row),
    (b"order", Act::Order),
    (b"least", Act::Least),
    (b"back", Act::Back),
    (b"reached", Act::Reached),
    (b"count-reached", Act::CountReached),
];

/// The graph of a case.
#[derive(Drop)]
pub(crate) struct Walks {
    alloc: Global,
    graph: Graph,
}

impl Walks {
    /// A graph without nodes.
    pub(crate) fn new(alloc: Global) -> Result<Walks, Stopped> {
        Ok(Walks {
            alloc,
            graph: Graph::new(alloc, 0)?,
        })
    }

    pub(crate) fn answer(&mut self, page: &mut Page, line: &[u8]) -> Result<(), Stopped> {
        let (word, text) = word(line);
        match found(&ACTS, word)? {
            Act::Nodes => self.begin(number(text)?),
            Act::Step => self.add(text),
            Act::Insert => self.insert(text),
            Act::Chain => self.chain(number(text)?),
            Act::Row => self.answer_row(page, number(text)?),
            Act::Order => self.answer_order(page),
            Act::Least => self.answer_least(page),
            Act::Back => self.answer_back(page, number(text)?),
            Act::Reached => self.answer_reached(page, number(text)?),
            Act::CountReached => self.count_reached(page, number(text)?),
        }
    }

    fn answer_row(&self, page: &mut Page, node: u32) -> Result<(), Stopped> {
        if node >= self.graph.count() {
            return Err(Stopped);
        }
        page.numbers(b"    row", self.graph.row(node))
    }

    fn answer_order(&self, page: &mut Page) -> Result<(), Stopped> {
        match order(self.alloc, &self.graph)? {
            Found::Order(nodes) => page.numbers(b"    order", nodes.items.as_slice()),
            Found::Cycle(node) => page.numbers(b"    cycle", &[node]),
        }
    }

    fn answer_least(&self, page: &mut Page) -> Result<(), Stopped> {
        match least_on_cycle(self.alloc, &self.graph)? {
            Some(node) => page.numbers(b"    least", &[node]),
            None => page.line(b"    ", b"none"),
        }
    }

    fn answer_back(&self, page: &mut Page, node: u32) -> Result<(), Stopped> {
        if node >= self.graph.count() {
            return Err(Stopped);
        }
        page.whether(b"    ", leads_back(self.alloc, &self.graph, node)?)
    }

    fn answer_reached(&self, page: &mut Page, node: u32) -> Result<(), Stopped> {
        if node >= self.graph.count() {
            return Err(Stopped);
        }
        let nodes = reached(self.alloc, &self.graph, node)?;
        page.numbers(b"    reached", nodes.items.as_slice())
    }

    fn count_reached(&self, page: &mut Page, node: u32) -> Result<(), Stopped> {
        if node >= self.graph.count() {
            return Err(Stopped);
        }
        let nodes = reached(self.alloc, &self.graph, node)?;
        page.number(b"    ", nodes.items.len() as u64)
    }

    /// Begins a graph of so many nodes without a step.
    fn begin(&mut self, count: u32) -> Result<(), Stopped> {
        self.graph = Graph::new(self.alloc, count)?;
        Ok(())
    }

    fn add(&mut self, text: &[u8]) -> Result<(), Stopped> {
        let (node, other) = two_numbers(text)?;
        self.step(node, other)
    }

    fn step(&mut self, node: u32, other: u32) -> Result<(), Stopped> {
        let count = self.graph.count();
        if node >= count || other >= count {
            return Err(Stopped);
        }
        Ok(self.graph.add(node, other)?)
    }

    /// Puts a step at a place of a node's row: the node, the place and the other node.
    fn insert(&mut self, rest: &[u8]) -> Result<(), Stopped> {
        let (node, rest) = word(rest);
        let node = number(node)?;
        let (place, other) = two_numbers(rest)?;
        let count = self.graph.count();
        if node >= count || other >= count {
            return Err(Stopped);
        }
        if place as usize > self.graph.row(node).len() {
            return Err(Stopped);
        }
        Ok(self.graph.insert(node, place as usize, other)?)
    }

    /// So many nodes, of which each but the last leads to the next.
    fn chain(&mut self, count: u32) -> Result<(), Stopped> {
        self.begin(count)?;
        for node in 1..count {
            self.step(node - 1, node)?;
        }
        Ok(())
    }
}
