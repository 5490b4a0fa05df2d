//! A run.
ghost use Rattle.std.specs.Prelude.{◌≡◌, ◌+◌, ◌<◌, ◌≤◌, length, IfOk, IfSome};
ghost use Rattle.std.specs.List.{All};
ghost use Rattle.yard_threads.specs.Reports.{IsReport};

use crate::fault::Fault;
use crate::worker::{Report, work};
use dep_graph::Graph;
use ready_yard::{Judgement, Turn, Yard, YardName, judge};
use result_board::Cells;
use std::alloc::Global;
use std::marker::Brand;
use std::sync::{Condvar, Mutex, Wait};
use std::thread;
use std::thread::Threads;

/// How many workers a run has.
const WORKERS: u32 = 8;

/// Runs all tasks of a graph. It tells of how many tasks some worker found the value.
pub(crate) fn run_tasks<C: Cells<u64>, R: Threads + Wait + Sync>(
    rt: &R,
    alloc: Global,
    graph: &Graph,
    cells: &C,
    serial: &Vec<u64>,
) -> Result<u32, Fault>
    requires cells { length graph.now ≤ C.tasks cells.now }
    requires serial { length serial.now.items ≡ length graph.now }
{
    run_yard::<Brand, C, R>(rt, alloc, graph, cells, serial)
}

fn run_yard<N: YardName + Send + Sync, C: Cells<u64>, R: Threads + Wait + Sync>(
    rt: &R,
    alloc: Global,
    graph: &Graph,
    cells: &C,
    serial: &Vec<u64>,
) -> Result<u32, Fault>
    requires graph { graph.now ≡ N.needs }
    requires workers { N.workers ≡ 8 }
    requires cells { length graph.now ≤ C.tasks cells.now }
    requires serial { length serial.now.items ≡ length graph.now }
{
    let yard = Mutex::new(Yard::<N>::open(alloc, graph, WORKERS)?);
    let woken = Condvar::new();
    let reports = run_workers(rt, alloc, graph, &yard, &woken, cells)?;
    judge_whole(alloc, graph, yard.into_inner().history())?;
    settle(alloc, graph, cells, serial, reports)
}

// Runs the workers, each in a thread of its own where one can be made.
fn run_workers<N: YardName + Send + Sync, C: Cells<u64>, R: Threads + Wait + Sync>(
    rt: &R,
    alloc: Global,
    graph: &Graph,
    yard: &Mutex<Yard<N>>,
    woken: &Condvar,
    cells: &C,
) -> Result<Vec<Option<Report<C::Notes>>>, Fault>
    requires graph { graph.now ≡ N.needs }
    requires workers { N.workers ≡ 8 }
    requires cells { length graph.now ≤ C.tasks cells.now }
    ensures { IfOk result (λ v. All (λ o. IfSome o (λ r. IsReport (C.board cells.now) (length graph.now) (C.of r.notes) r.found.items)) v.items) }
{
    let reports = thread::map_indices(
        rt,
        alloc,
        WORKERS as usize,
        &|i: usize| -> Option<Report<C::Notes>>
            requires graph { graph.now ≡ N.needs }
            requires worker { (i < 8) × (N.workers ≡ 8) }
            requires cells { length graph.now ≤ C.tasks cells.now }
            ensures { IfSome result (λ r. IsReport (C.board cells.entry.now) (length graph.entry.now) (C.of r.notes) r.found.items) }
        { work(rt, alloc, graph, i as u32 + 1, yard, woken, cells) },
    )?;
    Ok(reports)
}

fn judge_whole(alloc: Global, graph: &Graph, turns: &[Turn]) -> Result<(), Fault> {
    match judge(alloc, graph, WORKERS, turns)? {
        Judgement::Whole => Ok(()),
        Judgement::Unfinished | Judgement::Wrong { .. } => Err(Fault::History),
    }
}

// Compares each two notes and each value that was found, and counts the tasks whose value was found.
fn settle<C: Cells<u64>>(
    alloc: Global,
    graph: &Graph,
    cells: &C,
    serial: &Vec<u64>,
    mut reports: Vec<Option<Report<C::Notes>>>,
) -> Result<u32, Fault>
    requires reports { All (λ o. IfSome o (λ r. IsReport (C.board cells.now) (length graph.now) (C.of r.notes) r.found.items)) reports.items }
    requires serial { length serial.now.items ≡ length graph.now }
{
    let mut found = Vec::from_elem(alloc, false, serial.len())?;
    while let Some(last) = reports.pop() {
        let Some(mut report) = last else {
            return Err(Fault::Memory);
        };
        compare_with(graph, cells, &mut report.notes, &mut reports);
        find_all(serial, &report.found, &mut found)?;
    }
    Ok(count(&found))
}

fn compare_with<C: Cells<u64>>(
    graph: &Graph,
    cells: &C,
    notes: &mut C::Notes,
    reports: &mut Vec<Option<Report<C::Notes>>>,
)
    requires notes { C.of notes.old ≡ C.board cells.now }
    requires reports { All (λ o. IfSome o (λ r. IsReport (C.board cells.now) (length graph.now) (C.of r.notes) r.found.items)) reports.old.items }
    ensures len { length reports.new.items ≡ length reports.old.items }
    ensures reports { All (λ o. IfSome o (λ r. IsReport (C.board cells.now) (length graph.now) (C.of r.notes) r.found.items)) reports.new.items }
{
    for place in 0..reports.len() {
        compare_one(graph, cells, notes, &mut reports[place]);
    }
}

fn compare_one<C: Cells<u64>>(
    graph: &Graph,
    cells: &C,
    notes: &mut C::Notes,
    report: &mut Option<Report<C::Notes>>,
)
    requires notes { C.of notes.old ≡ C.board cells.now }
    requires report { IfSome report.old (λ r. IsReport (C.board cells.now) (length graph.now) (C.of r.notes) r.found.items) }
    ensures notes { C.of notes.new ≡ C.of notes.old }
    ensures report { IfSome report.new (λ r. IsReport (C.board cells.now) (length graph.now) (C.of r.notes) r.found.items) }
{
    if let Some(report) = report {
        cells.compare(notes, &mut report.notes);
    }
}

fn find_all(
    serial: &Vec<u64>,
    values: &Vec<Option<u64>>,
    found: &mut Vec<bool>,
) -> Result<(), Fault>
    requires values { length values.now.items ≡ length serial.now.items }
    requires found { length found.old.items ≡ length serial.now.items }
    ensures { length found.new.items ≡ length serial.now.items }
{
    for task in 0..serial.len() {
        if let Some(value) = values[task] {
            if value != serial[task] {
                return Err(Fault::WrongValue);
            }
            found[task] = true;
        }
    }
    Ok(())
}

fn count(found: &Vec<bool>) -> u32 {
    let mut count = 0u32;
    for one in found {
        if *one {
            count = count.saturating_add(1);
        }
    }
    count
}
