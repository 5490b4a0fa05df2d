//! What the lines of a case do before its yard or its board is opened.
use crate::board::open_board;
use crate::input::{divided, number, parted, span};
use crate::script::open_yard;
use crate::stopped::Stopped;
use dep_graph::Graph;
use ready_yard::{Judgement, Turn, Why, judge};
use std::alloc::Global;

/// Runs a case.
pub(crate) fn run_case(
    alloc: Global,
    lines: &[&[u8]],
    printed: &mut Vec<u8>,
) -> Result<(), Stopped> {
    let mut graph = Graph::new(alloc, 0)?;
    for place in 0..lines.len() {
        let line = lines[place];
        print_line(printed, b"", line)?;
        let (word, text) = divided(line);
        if word == b"workers".as_slice() {
            return open_yard(alloc, &graph, number(text)?, &lines[place + 1..], printed);
        }
        if word == b"board".as_slice() {
            return open_board(alloc, number(text)?, &lines[place + 1..], printed);
        }
        graph_line(alloc, &mut graph, word, text, printed)?;
    }
    Ok(())
}

fn graph_line(
    alloc: Global,
    graph: &mut Graph,
    word: &[u8],
    text: &[u8],
    printed: &mut Vec<u8>,
) -> Result<(), Stopped> {
    if word == b"case".as_slice() || word == b"#".as_slice() {
        return Ok(());
    }
    if word == b"tasks".as_slice() {
        *graph = with_tasks(alloc, number(text)?)?;
        return Ok(());
    }
    if word == b"need".as_slice() {
        return need_all(graph, text);
    }
    if word == b"chain".as_slice() {
        return chain(graph);
    }
    if word == b"judge".as_slice() {
        return judge_line(alloc, graph, text, printed);
    }
    Err(Stopped)
}

fn with_tasks(alloc: Global, count: u32) -> Result<Graph, Stopped> {
    if count > 512 {
        return Err(Stopped);
    }
    Ok(Graph::new(alloc, count)?)
}

fn need_all(graph: &mut Graph, text: &[u8]) -> Result<(), Stopped> {
    let (word, rest) = divided(text);
    let (first, last) = span(word)?;
    for word in rest.split(|byte| *byte == b' ') {
        need_span(graph, first, last, word)?;
    }
    Ok(())
}

fn need_span(graph: &mut Graph, first: u32, last: u32, word: &[u8]) -> Result<(), Stopped> {
    let (first_on, last_on) = span(word)?;
    for task in first..=last {
        for on in first_on..=last_on {
            need_one(graph, task, on)?;
        }
    }
    Ok(())
}

fn need_one(graph: &mut Graph, task: u32, on: u32) -> Result<(), Stopped> {
    let count = graph.count();
    if task >= count || on >= count {
        return Err(Stopped);
    }
    Ok(graph.need(task, on)?)
}

fn chain(graph: &mut Graph) -> Result<(), Stopped> {
    for task in 1..graph.count() {
        need_one(graph, task, task - 1)?;
    }
    Ok(())
}

fn judge_line(
    alloc: Global,
    graph: &Graph,
    text: &[u8],
    printed: &mut Vec<u8>,
) -> Result<(), Stopped> {
    let (word, rest) = divided(text);
    let workers = number(word)?;
    let mut turns = Vec::new(alloc);
    for word in rest.split(|byte| *byte == b' ') {
        if !word.is_empty() {
            turns.push(turn(word)?)?;
        }
    }
    print_judgement(alloc, graph, workers, turns.as_slice(), printed)
}

fn turn(word: &[u8]) -> Result<Turn, Stopped> {
    if word.is_empty() {
        return Err(Stopped);
    }
    let (worker, task) = parted(&word[1..]);
    let worker = number(worker)?;
    let task = number(task)?;
    if word[0] == b'S' {
        Ok(Turn::Start { worker, task })
    } else if word[0] == b'E' {
        Ok(Turn::End { worker, task })
    } else {
        Err(Stopped)
    }
}

/// Prints what a list of turns is judged to be.
pub(crate) fn print_judgement(
    alloc: Global,
    graph: &Graph,
    workers: u32,
    turns: &[Turn],
    printed: &mut Vec<u8>,
) -> Result<(), Stopped> {
    match judge(alloc, graph, workers, turns)? {
        Judgement::Whole => print_line(printed, b"  ", b"whole"),
        Judgement::Unfinished => print_line(printed, b"  ", b"legal, not whole"),
        Judgement::Wrong { place, why } => {
            let place = format!(in alloc; "  wrong at {place}: ")?;
            print_line(printed, place.as_bytes(), why_text(why))
        }
    }
}

fn why_text(why: Why) -> &'static [u8] {
    match why {
        Why::NoSuchWorker => b"no such worker",
        Why::WorkerBusy => b"the worker runs a task",
        Why::NoSuchTask => b"no such task",
        Why::StartedTwice => b"started before",
        Why::NeedNotEnded => b"a need has not ended",
        Why::NotLeast => b"a lower task is ready",
        Why::NotRunning => b"the worker doesn't run it",
    }
}

/// Prints a line in two pieces.
pub(crate) fn print_line(printed: &mut Vec<u8>, front: &[u8], text: &[u8]) -> Result<(), Stopped> {
    printed.extend_from_slice(front)?;
    printed.extend_from_slice(text)?;
    Ok(printed.push(b'\n')?)
}
