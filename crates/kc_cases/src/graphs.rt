//! Orders and cycles of graphs.
use crate::sheet::Sheet;
use crate::stopped::Stopped;
use crate::text::{divided, number, numbers};
use cycle_walks::{Found, Graph, leads_back, least_on_cycle, order, reached};

/// Lets a node name another: `NODE OTHER`.
pub(crate) fn add(graph: &mut Graph, text: &[u8]) -> Result<(), Stopped> {
    let (node, other) = numbers(text)?;
    if node < graph.count() && other < graph.count() {
        return Ok(graph.add(node, other)?);
    }
    Err(Stopped)
}

/// Lets a node name another at a place of its row: `NODE PLACE OTHER`.
pub(crate) fn insert(graph: &mut Graph, text: &[u8]) -> Result<(), Stopped> {
    let (node, rest) = divided(text);
    let node = number(node)?;
    let (place, other) = numbers(rest)?;
    if node >= graph.count() || other >= graph.count() {
        return Err(Stopped);
    }
    if place as usize <= graph.row(node).len() {
        return Ok(graph.insert(node, place as usize, other)?);
    }
    Err(Stopped)
}

/// Lets each node from the first to the one before the last name the next: `FIRST LAST`.
pub(crate) fn add_walk(graph: &mut Graph, text: &[u8]) -> Result<(), Stopped> {
    let (first, last) = numbers(text)?;
    let mut node = first;
    for other in 1..=last {
        if node < other && other < graph.count() {
            graph.add(node, other)?;
            node = other;
        }
    }
    Ok(())
}

pub(crate) fn answer_row(sheet: &mut Sheet, graph: &Graph, text: &[u8]) -> Result<(), Stopped> {
    let node = number(text)?;
    if node < graph.count() {
        return answer_nodes(sheet, b"row:", graph.row(node));
    }
    Err(Stopped)
}

pub(crate) fn answer_order(sheet: &mut Sheet, graph: &Graph) -> Result<(), Stopped> {
    match order(sheet.alloc, graph)? {
        Found::Order(nodes) => answer_nodes(sheet, b"order:", nodes.items.as_slice()),
        Found::Cycle(node) => answer_nodes(sheet, b"on a cycle:", &[node]),
    }
}

pub(crate) fn answer_least(sheet: &mut Sheet, graph: &Graph) -> Result<(), Stopped> {
    match least_on_cycle(sheet.alloc, graph)? {
        Some(node) => answer_nodes(sheet, b"on a cycle:", &[node]),
        None => sheet.answer(b"no cycle"),
    }
}

pub(crate) fn answer_back(sheet: &mut Sheet, graph: &Graph, text: &[u8]) -> Result<(), Stopped> {
    let node = number(text)?;
    if node < graph.count() {
        let back = leads_back(sheet.alloc, graph, node)?;
        return sheet.answer_whether(back);
    }
    Err(Stopped)
}

pub(crate) fn answer_reached(sheet: &mut Sheet, graph: &Graph, text: &[u8]) -> Result<(), Stopped> {
    let node = number(text)?;
    if node < graph.count() {
        let nodes = reached(sheet.alloc, graph, node)?;
        return answer_nodes(sheet, b"reached:", nodes.items.as_slice());
    }
    Err(Stopped)
}

fn answer_nodes(sheet: &mut Sheet, word: &[u8], nodes: &[u32]) -> Result<(), Stopped> {
    sheet.begin()?;
    sheet.put(word)?;
    for node in nodes {
        sheet.put(b" ")?;
        sheet.put_number(*node)?;
    }
    sheet.end()
}
