//! The script of a board.
ghost use Rattle.std.specs.Prelude.{◌≡◌, ◌<◌};

use crate::case::print_line;
use crate::input::{divided, number};
use crate::script::print_number;
use crate::stopped::Stopped;
use result_board::{Board, Cells};
use std::alloc::Global;

/// Opens a board of cells that hold numbers and runs a script on it.
pub(crate) fn open_board(
    alloc: Global,
    tasks: u32,
    lines: &[&[u8]],
    printed: &mut Vec<u8>,
) -> Result<(), Stopped> {
    let board = Board::<u32>::open(alloc, tasks)?;
    run_script(alloc, &board, tasks, lines, printed)
}

fn run_script<C: Cells<u32>>(
    alloc: Global,
    board: &C,
    tasks: u32,
    lines: &[&[u8]],
    printed: &mut Vec<u8>,
) -> Result<(), Stopped>
    requires { tasks ≡ C.tasks board.now }
{
    let mut first = board.notes(alloc)?;
    let mut second = board.notes(alloc)?;
    for line in lines {
        print_line(printed, b"", line)?;
        script_line(alloc, board, tasks, &mut first, &mut second, line, printed)?;
    }
    Ok(())
}

fn script_line<C: Cells<u32>>(
    alloc: Global,
    board: &C,
    tasks: u32,
    first: &mut C::Notes,
    second: &mut C::Notes,
    line: &[u8],
    printed: &mut Vec<u8>,
) -> Result<(), Stopped>
    requires tasks { tasks ≡ C.tasks board.now }
    requires first { C.of first.old ≡ C.board board.now }
    requires second { C.of second.old ≡ C.board board.now }
    ensures first { C.of first.new ≡ C.of first.old }
    ensures second { C.of second.new ≡ C.of second.old }
{
    let (word, text) = divided(line);
    if word == b"compare".as_slice() {
        board.compare(first, second);
        return print_line(printed, b"  ", b"compared");
    }
    let (notes, text) = divided(text);
    if notes == b"1".as_slice() {
        return notes_line(alloc, board, tasks, first, word, text, printed);
    }
    if notes == b"2".as_slice() {
        return notes_line(alloc, board, tasks, second, word, text, printed);
    }
    Err(Stopped)
}

fn notes_line<C: Cells<u32>>(
    alloc: Global,
    board: &C,
    tasks: u32,
    notes: &mut C::Notes,
    word: &[u8],
    text: &[u8],
    printed: &mut Vec<u8>,
) -> Result<(), Stopped>
    requires tasks { tasks ≡ C.tasks board.now }
    requires notes { C.of notes.old ≡ C.board board.now }
    ensures { C.of notes.new ≡ C.of notes.old }
{
    let (task, value) = divided(text);
    let task = number(task)?;
    if task >= tasks {
        return Err(Stopped);
    }
    if word == b"read".as_slice() {
        return read(alloc, board, task, notes, printed);
    }
    if word == b"post".as_slice() {
        return post(alloc, board, task, number(value)?, notes, printed);
    }
    Err(Stopped)
}

fn read<C: Cells<u32>>(
    alloc: Global,
    board: &C,
    task: u32,
    notes: &mut C::Notes,
    printed: &mut Vec<u8>,
) -> Result<(), Stopped>
    requires task { task < C.tasks board.now }
    requires notes { C.of notes.old ≡ C.board board.now }
    ensures { C.of notes.new ≡ C.of notes.old }
{
    match board.read(task, notes) {
        Some(value) => print_number(alloc, printed, b"  found ", *value),
        None => print_line(printed, b"  ", b"nothing"),
    }
}

fn post<C: Cells<u32>>(
    alloc: Global,
    board: &C,
    task: u32,
    value: u32,
    notes: &mut C::Notes,
    printed: &mut Vec<u8>,
) -> Result<(), Stopped>
    requires task { task < C.tasks board.now }
    requires notes { C.of notes.old ≡ C.board board.now }
    ensures { C.of notes.new ≡ C.of notes.old }
{
    match board.post(task, Box::new(alloc, value)?, notes) {
        Ok(()) => print_line(printed, b"  ", b"posted"),
        Err(back) => print_number(alloc, printed, b"  refused ", *back),
    }
}
