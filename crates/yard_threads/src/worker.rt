//! A worker.
ghost use Rattle.std.specs.Prelude.{◌≡◌, ◌<◌, ◌≤◌, length, IfSome};
ghost use Rattle.yard_threads.specs.Reports.{IsReport, IsJobOf};

use crate::tasks::{first_value, mixed};
use dep_graph::Graph;
use ready_yard::{Take, Yard, YardName};
use result_board::Cells;
use std::alloc::Global;
use std::sync::{Condvar, Mutex, Wait};

/// What a worker hands back: its notes, and for each task the value that it read or posted.
#[derive(Drop)]
pub(crate) struct Report<N> {
    pub(crate) notes: N,
    pub(crate) found: Vec<Option<u64>>,
}

/// Takes tasks until none is left, and posts the value of each whose needs it finds.
pub(crate) fn work<N: YardName, C: Cells<u64>, R: Wait>(
    rt: &R,
    alloc: Global,
    graph: &Graph,
    worker: u32,
    yard: &Mutex<Yard<N>>,
    woken: &Condvar,
    cells: &C,
) -> Option<Report<C::Notes>>
    requires graph { graph.now ≡ N.needs }
    requires worker { (1 ≤ worker) × (worker ≤ N.workers) }
    requires cells { length graph.now ≤ C.tasks cells.now }
    ensures { IfSome result (λ r. IsReport (C.board cells.now) (length graph.now) (C.of r.notes) r.found.items) }
{
    let notes = cells.notes(alloc).ok()?;
    let found = Vec::from_elem(alloc, None, graph.count() as usize).ok()?;
    let mut report = Report { notes, found };
    for _ in rt.forever() {
        let mut guard = yard.lock(rt);
        match turn(&mut guard, worker, woken) {
            Take::Job(task) => {
                drop(guard);
                do_task(alloc, graph, task, cells, &mut report);
            }
            Take::Wait => drop(woken.wait(rt, guard)),
            Take::End => break,
        }
    }
    Some(report)
}

// Ends what the worker runs, and takes the next task.
fn turn<N: YardName>(yard: &mut Yard<N>, worker: u32, woken: &Condvar) -> Take
    requires { (1 ≤ worker) × (worker ≤ N.workers) }
    ensures { IsJobOf (length N.needs) result }
{
    if let Some(task) = yard.running(worker) {
        yard.finish(worker, task);
        woken.notify_all();
    }
    yard.take(worker)
}

fn do_task<C: Cells<u64>>(
    alloc: Global,
    graph: &Graph,
    task: u32,
    cells: &C,
    report: &mut Report<C::Notes>,
)
    requires task { task < length graph.now }
    requires cells { length graph.now ≤ C.tasks cells.now }
    requires report { IsReport (C.board cells.now) (length graph.now) (C.of report.old.notes) report.old.found.items }
    ensures { IsReport (C.board cells.now) (length graph.now) (C.of report.new.notes) report.new.found.items }
{
    if let Some(value) = made(graph, task, cells, report) {
        post(alloc, graph, task, value, cells, report);
    }
}

// The value of a task, if the values of its needs are found.
fn made<C: Cells<u64>>(
    graph: &Graph,
    task: u32,
    cells: &C,
    report: &mut Report<C::Notes>,
) -> Option<u64>
    requires task { task < length graph.now }
    requires cells { length graph.now ≤ C.tasks cells.now }
    requires report { IsReport (C.board cells.now) (length graph.now) (C.of report.old.notes) report.old.found.items }
    ensures { IsReport (C.board cells.now) (length graph.now) (C.of report.new.notes) report.new.found.items }
{
    let mut value = first_value(task);
    for need in graph.needs(task) {
        value = mixed(value, read(graph, *need, cells, report)?);
    }
    Some(value)
}

fn read<C: Cells<u64>>(
    graph: &Graph,
    task: u32,
    cells: &C,
    report: &mut Report<C::Notes>,
) -> Option<u64>
    requires task { task < length graph.now }
    requires cells { length graph.now ≤ C.tasks cells.now }
    requires report { IsReport (C.board cells.now) (length graph.now) (C.of report.old.notes) report.old.found.items }
    ensures { IsReport (C.board cells.now) (length graph.now) (C.of report.new.notes) report.new.found.items }
{
    let value = *cells.read(task, &mut report.notes)?;
    report.found[task as usize] = Some(value);
    Some(value)
}

fn post<C: Cells<u64>>(
    alloc: Global,
    graph: &Graph,
    task: u32,
    value: u64,
    cells: &C,
    report: &mut Report<C::Notes>,
)
    requires task { task < length graph.now }
    requires cells { length graph.now ≤ C.tasks cells.now }
    requires report { IsReport (C.board cells.now) (length graph.now) (C.of report.old.notes) report.old.found.items }
    ensures { IsReport (C.board cells.now) (length graph.now) (C.of report.new.notes) report.new.found.items }
{
    let Ok(boxed) = Box::new(alloc, value) else {
        return;
    };
    match cells.post(task, boxed, &mut report.notes) {
        Ok(()) => report.found[task as usize] = Some(value),
        Err(_) => {}
    }
}
