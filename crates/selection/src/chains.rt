//! The selected packages: those to which a walk leads in the graph of the packages and the host packages that they list.
//!
//! The nodes are the places of the packages, and after them a root that names the packages that are asked for.
ghost use Rattle.std.specs.Prelude.{List, ℕ, ◌≡◌, ◌≢◌, ◌+◌, ◌<◌, ◌^◌, ◌++◌, [], Some, IfOk, OnOk, length, map, option_to_list, slice_get};
ghost use Rattle.std.specs.List.Sorted.{IsStrictlyIncreasing};
ghost use Rattle.cycle_walks.specs.Graph.{row};
ghost use Rattle.selection.specs.declared.listed.Listed.{Listed as ListedValue};
ghost use Rattle.selection.specs.Chains.{ArePlaces, asked_place, asked_places, host_place, host_places, named, picked};
ghost use Rattle.selection.specs.Names.{AreRising};
ghost use Rattle.selection.specs.Selected.{AreSelected, HaveHosts, listed_by};

use crate::listed::Listed;
use crate::names::is_asked;
use crate::places::host_place;
use br_path::{Memory, Names, Numbers};
use cycle_walks::{Graph, reached};
use kc_values::Values;
use recipe_set::Made;
use std::alloc::Global;

/// The selected ones of packages with their lists, by name.
pub(crate) fn selected(
    alloc: Global,
    values: &Values,
    packages: &[Made],
    all: &[Listed],
) -> Result<Vec<Listed>, Memory>
    requires made { map (λ listed. listed.made) all.now ≡ packages.now }
    requires rising { AreRising (map (λ made. made.name) packages.now) }
    ensures chosen { IfOk result (λ chosen. AreSelected values.now all.now chosen.items) }
    ensures hosts { IfOk result (λ chosen. HaveHosts packages.now chosen.items) }
{
    let places = selected_places(alloc, values, packages, all)?;
    picked(alloc, all, &places)
}

/// The packages at places.
fn picked(alloc: Global, all: &[Listed], places: &Numbers) -> Result<Vec<Listed>, Memory>
    ensures { IfOk result (λ chosen. chosen.items ≡ picked all.now places.now) }
{
    let mut chosen = Vec::new(alloc);
    for place in &places.items {
        put_picked(&mut chosen, all, *place)?;
    }
    Ok(chosen)
}

/// Puts the package at a place after others, where there is one.
fn put_picked(chosen: &mut Vec<Listed>, all: &[Listed], place: u32) -> Result<(), Memory>
    ensures { OnOk result (chosen.new.items ≡ chosen.old.items ++ option_to_list (slice_get all.now place)) }
{
    match all.get(place as usize) {
        Some(listed) => {
            chosen.push(listed.copy()?)?;
            Ok(())
        }
        None => Ok(()),
    }
}

/// The places of the selected packages, rising.
fn selected_places(
    alloc: Global,
    values: &Values,
    packages: &[Made],
    all: &[Listed],
) -> Result<Numbers, Memory>
    requires made { map (λ listed. listed.made) all.now ≡ packages.now }
    requires rising { AreRising (map (λ made. made.name) packages.now) }
    ensures rising { IfOk result IsStrictlyIncreasing }
    ensures places { IfOk result (ArePlaces values.now all.now) }
{
    let root = root_of(packages)?;
    let graph = graph(alloc, values, packages, all, root)?;
    reached(alloc, &graph, root)
}

/// The root, after all packages. More packages than can be numbered in 32 bits are answered as out of memory.
fn root_of(packages: &[Made]) -> Result<u32, Memory>
    ensures root { IfOk result (λ root. root ≡ length packages.now) }
    ensures few { IfOk result (λ root. root + 1 < 2 ^ 32) }
{
    if packages.len() >= u32::MAX as usize {
        return Err(Memory);
    }
    Ok(packages.len() as u32)
}

/// The graph in which the root names the packages that are asked for, and each package the host packages that it lists.
fn graph(
    alloc: Global,
    values: &Values,
    packages: &[Made],
    all: &[Listed],
    root: u32,
) -> Result<Graph, Memory>
    requires root { root ≡ length packages.now }
    requires few { root + 1 < 2 ^ 32 }
    requires made { map (λ listed. listed.made) all.now ≡ packages.now }
    requires rising { AreRising (map (λ made. made.name) packages.now) }
    ensures nodes { IfOk result (λ graph. length graph ≡ root + 1) }
    ensures asked { IfOk result (λ graph. row graph root ≡ asked_places values.now 0 packages.now) }
    ensures lists { IfOk result (λ graph. (place : ℕ) (item : ListedValue) → slice_get all.now place ≡ Some item → row graph place ≡ host_places packages.now (listed_by item)) }
{
    let mut graph = Graph::new(alloc, root + 1)?;
    add_asked(alloc, &mut graph, values, packages, root)?;
    add_lists(&mut graph, packages, all)?;
    Ok(graph)
}

/// Lets the root name the packages that are asked for.
fn add_asked(
    alloc: Global,
    graph: &mut Graph,
    values: &Values,
    packages: &[Made],
    root: u32,
) -> Result<(), Memory>
    requires root { root ≡ length packages.now }
    requires nodes { length graph.old ≡ root + 1 }
    requires fresh { row graph.old root ≡ [] }
    ensures nodes { OnOk result (length graph.new ≡ length graph.old) }
    ensures row { OnOk result (row graph.new root ≡ asked_places values.now 0 packages.now) }
    ensures others { OnOk result ((node : ℕ) → node ≢ root → row graph.new node ≡ row graph.old node) }
{
    for (place, made) in packages.iter().enumerate() {
        add_if_asked(alloc, graph, values, root, place as u32, made)?;
    }
    Ok(())
}

/// Lets the root name a package, where it is asked for.
fn add_if_asked(
    alloc: Global,
    graph: &mut Graph,
    values: &Values,
    root: u32,
    place: u32,
    made: &Made,
) -> Result<(), Memory>
    requires root { root < length graph.old }
    requires place { place < length graph.old }
    ensures { OnOk result (graph.new ≡ named graph.old root (asked_place values.now place made.now)) }
{
    if is_asked(alloc, values, made.name.as_slice())? {
        return graph.add(root, place);
    }
    Ok(())
}

/// Lets each package name the host packages that it lists.
fn add_lists(graph: &mut Graph, packages: &[Made], all: &[Listed]) -> Result<(), Memory>
    requires made { length all.now ≡ length packages.now }
    requires nodes { length graph.old ≡ length packages.now + 1 }
    requires few { length packages.now < 2 ^ 32 }
    requires rising { AreRising (map (λ made. made.name) packages.now) }
    requires fresh { (node : ℕ) → node < length packages.now → row graph.old node ≡ [] }
    ensures nodes { OnOk result (length graph.new ≡ length graph.old) }
    ensures root { OnOk result (row graph.new (length packages.now) ≡ row graph.old (length packages.now)) }
    ensures lists { OnOk result ((place : ℕ) (item : ListedValue) → slice_get all.now place ≡ Some item → row graph.new place ≡ host_places packages.now (listed_by item)) }
{
    for (place, listed) in all.iter().enumerate() {
        add_listed(graph, packages, place as u32, listed)?;
    }
    Ok(())
}

/// Lets a node name the host packages that a package lists.
fn add_listed(
    graph: &mut Graph,
    packages: &[Made],
    node: u32,
    listed: &Listed,
) -> Result<(), Memory>
    requires node { node < length graph.old }
    requires nodes { length packages.now < length graph.old }
    requires few { length packages.now < 2 ^ 32 }
    requires rising { AreRising (map (λ made. made.name) packages.now) }
    ensures nodes { OnOk result (length graph.new ≡ length graph.old) }
    ensures row { OnOk result (row graph.new node ≡ row graph.old node ++ host_places packages.now (listed_by listed.now)) }
    ensures others { OnOk result ((other : ℕ) → other ≢ node → row graph.new other ≡ row graph.old other) }
{
    add_hosts(graph, packages, node, &listed.depends)?;
    add_hosts(graph, packages, node, &listed.extract)?;
    add_hosts(graph, packages, node, &listed.patch)
}

/// Lets a node name the host packages among names.
fn add_hosts(graph: &mut Graph, packages: &[Made], node: u32, names: &Names) -> Result<(), Memory>
    requires node { node < length graph.old }
    requires nodes { length packages.now < length graph.old }
    requires few { length packages.now < 2 ^ 32 }
    requires rising { AreRising (map (λ made. made.name) packages.now) }
    ensures nodes { OnOk result (length graph.new ≡ length graph.old) }
    ensures row { OnOk result (row graph.new node ≡ row graph.old node ++ host_places packages.now names.now) }
    ensures others { OnOk result ((other : ℕ) → other ≢ node → row graph.new other ≡ row graph.old other) }
{
    for name in &names.items {
        add_host(graph, packages, node, name.as_slice())?;
    }
    Ok(())
}

/// Lets a node name the host package of a name, where there is one.
fn add_host(graph: &mut Graph, packages: &[Made], node: u32, name: &[u8]) -> Result<(), Memory>
    requires node { node < length graph.old }
    requires nodes { length packages.now < length graph.old }
    requires few { length packages.now < 2 ^ 32 }
    requires rising { AreRising (map (λ made. made.name) packages.now) }
    ensures { OnOk result (graph.new ≡ named graph.old node (host_place packages.now name.now)) }
{
    match host_place(packages, name) {
        Some(place) => graph.add(node, place as u32),
        None => Ok(()),
    }
}
