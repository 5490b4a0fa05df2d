//! The script of a yard.
ghost use Rattle.std.specs.Prelude.{◌≡◌, ◌≤◌};

use crate::case::{print_judgement, print_line};
use crate::input::{divided, number};
use crate::stopped::Stopped;
use dep_graph::Graph;
use ready_yard::{Take, Turn, Yard, YardName};
use std::alloc::Global;
use std::marker::Brand;

/// Opens the yard of a graph and runs a script on it.
pub(crate) fn open_yard(
    alloc: Global,
    graph: &Graph,
    workers: u32,
    lines: &[&[u8]],
    printed: &mut Vec<u8>,
) -> Result<(), Stopped> {
    if workers == 0 || workers > 64 {
        return Err(Stopped);
    }
    run_script::<Brand>(alloc, graph, workers, lines, printed)
}

fn run_script<N: YardName>(
    alloc: Global,
    graph: &Graph,
    workers: u32,
    lines: &[&[u8]],
    printed: &mut Vec<u8>,
) -> Result<(), Stopped>
    requires graph { graph.now ≡ N.needs }
    requires workers { (workers ≡ N.workers) × (1 ≤ workers) × (workers ≤ 64) }
{
    let mut yard = Yard::<N>::open(alloc, graph, workers)?;
    for line in lines {
        print_line(printed, b"", line)?;
        script_line(alloc, graph, workers, &mut yard, line, printed)?;
    }
    Ok(())
}

fn script_line<N: YardName>(
    alloc: Global,
    graph: &Graph,
    workers: u32,
    yard: &mut Yard<N>,
    line: &[u8],
    printed: &mut Vec<u8>,
) -> Result<(), Stopped>
    requires { workers ≡ N.workers }
{
    let (word, text) = divided(line);
    if word == b"history".as_slice() {
        print_turns(alloc, yard.history(), printed)?;
        return print_judgement(alloc, graph, workers, yard.history(), printed);
    }
    if word == b"summary".as_slice() {
        return print_summary(alloc, graph, workers, yard.history(), printed);
    }
    if word == b"drain".as_slice() {
        return drain(alloc, workers, yard, printed);
    }
    let worker = number(text)?;
    if worker == 0 || worker > workers {
        return Err(Stopped);
    }
    if word == b"take".as_slice() {
        return take(alloc, yard, worker, printed);
    }
    if word == b"finish".as_slice() {
        return finish(alloc, yard, worker, printed);
    }
    if word == b"running".as_slice() {
        return running(alloc, yard, worker, printed);
    }
    Err(Stopped)
}

fn take<N: YardName>(
    alloc: Global,
    yard: &mut Yard<N>,
    worker: u32,
    printed: &mut Vec<u8>,
) -> Result<(), Stopped>
    requires { (1 ≤ worker) × (worker ≤ N.workers) }
{
    if let Some(_task) = yard.running(worker) {
        return Err(Stopped);
    }
    match yard.take(worker) {
        Take::Job(task) => print_number(alloc, printed, b"  job ", task),
        Take::Wait => print_line(printed, b"  ", b"wait"),
        Take::End => print_line(printed, b"  ", b"end"),
    }
}

fn finish<N: YardName>(
    alloc: Global,
    yard: &mut Yard<N>,
    worker: u32,
    printed: &mut Vec<u8>,
) -> Result<(), Stopped>
    requires { (1 ≤ worker) × (worker ≤ N.workers) }
{
    match yard.running(worker) {
        Some(task) => {
            yard.finish(worker, task);
            print_number(alloc, printed, b"  ended ", task)
        }
        None => Err(Stopped),
    }
}

fn running<N: YardName>(
    alloc: Global,
    yard: &Yard<N>,
    worker: u32,
    printed: &mut Vec<u8>,
) -> Result<(), Stopped>
    requires { (1 ≤ worker) × (worker ≤ N.workers) }
{
    match yard.running(worker) {
        Some(task) => print_number(alloc, printed, b"  runs ", task),
        None => print_line(printed, b"  ", b"runs nothing"),
    }
}

// In each round every worker ends what it runs and asks for more; 512 tasks take 513 rounds at most.
fn drain<N: YardName>(
    alloc: Global,
    workers: u32,
    yard: &mut Yard<N>,
    printed: &mut Vec<u8>,
) -> Result<(), Stopped>
    requires { workers ≡ N.workers }
{
    for round in 0..514 {
        if drain_round(workers, yard) {
            return print_number(alloc, printed, b"  rounds ", round + 1);
        }
    }
    Err(Stopped)
}

fn drain_round<N: YardName>(workers: u32, yard: &mut Yard<N>) -> bool
    requires { workers ≡ N.workers }
{
    let mut ended = true;
    for worker in 0..workers {
        if !drain_one(yard, worker + 1) {
            ended = false;
        }
    }
    ended
}

fn drain_one<N: YardName>(yard: &mut Yard<N>, worker: u32) -> bool
    requires { (1 ≤ worker) × (worker ≤ N.workers) }
{
    if let Some(task) = yard.running(worker) {
        yard.finish(worker, task);
    }
    ask(yard, worker)
}

fn ask<N: YardName>(yard: &mut Yard<N>, worker: u32) -> bool
    requires { (1 ≤ worker) × (worker ≤ N.workers) }
{
    if let Some(_task) = yard.running(worker) {
        return false;
    }
    match yard.take(worker) {
        Take::Job(_task) => false,
        Take::Wait => false,
        Take::End => true,
    }
}

fn print_summary(
    alloc: Global,
    graph: &Graph,
    workers: u32,
    turns: &[Turn],
    printed: &mut Vec<u8>,
) -> Result<(), Stopped> {
    let count = turns.len();
    let count = format!(in alloc; "{count}")?;
    print_line(printed, b"  turns ", count.as_bytes())?;
    print_judgement(alloc, graph, workers, turns, printed)
}

fn print_turns(alloc: Global, turns: &[Turn], printed: &mut Vec<u8>) -> Result<(), Stopped> {
    printed.push(b' ')?;
    for turn in turns {
        print_turn(alloc, turn, printed)?;
    }
    Ok(printed.push(b'\n')?)
}

fn print_turn(alloc: Global, turn: &Turn, printed: &mut Vec<u8>) -> Result<(), Stopped> {
    let text = match turn {
        Turn::Start { worker, task } => format!(in alloc; " S{worker}.{task}")?,
        Turn::End { worker, task } => format!(in alloc; " E{worker}.{task}")?,
    };
    Ok(printed.extend_from_slice(text.as_bytes())?)
}

/// Prints a line that ends in a number.
pub(crate) fn print_number(
    alloc: Global,
    printed: &mut Vec<u8>,
    front: &[u8],
    number: u32,
) -> Result<(), Stopped> {
    let number = format!(in alloc; "{number}")?;
    print_line(printed, front, number.as_bytes())
}
