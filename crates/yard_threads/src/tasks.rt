//! The tasks of a run, and their values as one thread computes them.
ghost use Rattle.std.specs.Prelude.{◌≡◌, ◌<◌, length, IfOk, OnOk};

use br_path::Memory;
use dep_graph::Graph;
use std::alloc::Global;

/// How many tasks a run has.
pub(crate) const TASKS: u32 = 512;

/// A graph drawn by a seed. A task has up to 19 needs, each of a task at an earlier place.
pub(crate) fn drawn_graph(alloc: Global, seed: u64) -> Result<Graph, Memory>
    ensures { IfOk result (λ g. length g ≡ 512) }
{
    let mut graph = Graph::new(alloc, TASKS)?;
    let mut state = seed;
    for place in 1..TASKS {
        draw_needs(&mut graph, place, &mut state)?;
    }
    Ok(graph)
}

/// The value of each task, computed in the order of places.
pub(crate) fn serial_values(alloc: Global, graph: &Graph) -> Result<Vec<u64>, Memory>
    requires { length graph.now ≡ 512 }
    ensures { IfOk result (λ v. length v.items ≡ 512) }
{
    let mut values = Vec::from_elem(alloc, 0, TASKS as usize)?;
    for place in 0..TASKS {
        let task = task_at(place);
        values[task as usize] = serial_value(graph, task, &values);
    }
    Ok(values)
}

/// The value of a task before those of its needs are mixed in.
pub(crate) fn first_value(task: u32) -> u64 {
    u64::from(task) + 1
}

/// Mixes the value of one more need in.
pub(crate) fn mixed(value: u64, need: u64) -> u64 {
    value.rotate_left(7).wrapping_mul(0x9E37_79B9_7F4A_7C15) ^ need
}

fn serial_value(graph: &Graph, task: u32, values: &Vec<u64>) -> u64
    requires task { task < length graph.now }
    requires values { length values.now.items ≡ length graph.now }
{
    let mut value = first_value(task);
    for need in graph.needs(task) {
        value = mixed(value, values[*need as usize]);
    }
    value
}

/// The task at a place. Each task has one place, since 181 is odd, and few places are in the order of numbers.
fn task_at(place: u32) -> u32
    requires { place < 512 }
    ensures { result < 512 }
{
    place * 181 % TASKS
}

fn draw_needs(graph: &mut Graph, place: u32, state: &mut u64) -> Result<(), Memory>
    requires graph { length graph.old ≡ 512 }
    requires place { (0 < place) × (place < 512) }
    ensures { OnOk result (length graph.new ≡ 512) }
{
    let count = below(state, 1 + place % 20);
    for _ in 0..count {
        graph.need(task_at(place), task_at(below(state, place)))?;
    }
    Ok(())
}

/// A number below a bound, drawn by a linear congruence.
fn below(state: &mut u64, bound: u32) -> u32
    requires { 0 < bound }
    ensures { result < bound }
{
    *state = state
        .wrapping_mul(6_364_136_223_846_793_005)
        .wrapping_add(1_442_695_040_888_963_407);
    ((*state >> 33) % u64::from(bound)) as u32
}
