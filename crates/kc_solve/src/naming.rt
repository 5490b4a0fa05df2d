//! The graph of symbols and the symbols that their equations name.
ghost use Rattle.std.specs.Prelude.{ℕ, ◌≡◌, ◌≢◌, ◌<◌, ◌++◌, [], IfOk, OnOk, length, flat_map, slice_index_or, slice_get};
ghost use Rattle.cycle_walks.specs.Graph.{row, names};
ghost use Rattle.kc_equations.specs.Behind.{behind, selects_behind};
ghost use Rattle.kc_equations.specs.Equation.{members_of};
ghost use Rattle.kc_equations.specs.Names.{is_declared};
ghost use Rattle.kc_solve.specs.Filled.{names_at};
ghost use Rattle.kc_solve.specs.Index.{IsIndex};
ghost use Rattle.kc_solve.specs.Named.{named, places_in, words_at, own_words_at, chosen_words_at, choice_words_at, AreChoiceWords};
ghost use Rattle.kc_solve.specs.Symbols.{symbol_at, place_of};
ghost use Rattle.kc_solve.specs.Words.{own_words, select_words, shown_words, taken_words};

use crate::index::Index;
use crate::words::Words;
use br_path::Memory;
use cycle_walks::Graph;
use kc_menu::{KcChoice, KcEntry, SymbolIf};
use std::alloc::Global;

/// The graph of the symbols by their places: each names those that its equation does.
///
/// The words of a choice are gathered once, and not for each member. The time is proportional to the menu and to the words that stand in the equations.
pub fn graph(alloc: Global, index: &Index) -> Result<Graph, Memory>
    requires { IsIndex index.now }
    ensures nodes { IfOk result (λ graph. length graph ≡ length index.now.symbols) }
    ensures names { IfOk result (λ graph. (s t : ℕ) → s < length index.now.symbols → t < length index.now.symbols
        → names graph s t ≡ names_at index.now.menu.now index.now.symbols s t) }
{
    let chosen = words_of_choices(alloc, index)?;
    let mut graph = Graph::new(alloc, index.symbols.count())?;
    for place in 0..index.symbols.count() {
        add_row(alloc, &mut graph, index, &chosen, place)?;
    }
    Ok(graph)
}

/// Lets the symbol at a place name those that its equation does. The words of the choices are at hand.
fn add_row(
    alloc: Global,
    graph: &mut Graph,
    index: &Index,
    chosen: &[Words],
    place: u32,
) -> Result<(), Memory>
    requires index { IsIndex index.now }
    requires chosen { AreChoiceWords index.now.menu.now chosen.now }
    requires place { place < length graph.old }
    requires nodes { length graph.old ≡ length index.now.symbols }
    requires fresh { row graph.old place ≡ [] }
    ensures nodes { OnOk result (length graph.new ≡ length graph.old) }
    ensures row { OnOk result (row graph.new place ≡ places_in index.now.symbols (words_at index.now.menu.now (symbol_at index.now.symbols place))) }
    ensures others { OnOk result ((s : ℕ) → s ≢ place → row graph.new s ≡ row graph.old s) }
{
    let words = words_of_symbol(alloc, index, place)?;
    add_names(graph, index, place, words.as_slice())?;
    add_names(
        graph,
        index,
        place,
        words_of_its_choice(index, chosen, place),
    )
}

/// Lets the symbol at a place name the symbols that words are.
fn add_names(graph: &mut Graph, index: &Index, place: u32, words: &[&[u8]]) -> Result<(), Memory>
    requires place { place < length graph.old }
    requires nodes { length graph.old ≡ length index.now.symbols }
    ensures nodes { OnOk result (length graph.new ≡ length graph.old) }
    ensures row { OnOk result (row graph.new place ≡ row graph.old place ++ places_in index.now.symbols (behind words.now)) }
    ensures others { OnOk result ((s : ℕ) → s ≢ place → row graph.new s ≡ row graph.old s) }
{
    for word in words {
        add_name(graph, index, place, word)?;
    }
    Ok(())
}

/// Lets the symbol at a place name another, where that is declared.
fn add_name(graph: &mut Graph, index: &Index, place: u32, word: &[u8]) -> Result<(), Memory>
    requires place { place < length graph.old }
    requires nodes { length graph.old ≡ length index.now.symbols }
    ensures { OnOk result (graph.new ≡ named graph.old place (place_of index.now.symbols word.now)) }
{
    match index.symbols.place(word) {
        Some(other) => graph.add(place, other),
        None => Ok(()),
    }
}

/// The words that stand in the entries of the symbol at a place and round the selects that name it.
fn words_of_symbol<'a>(alloc: Global, index: &Index<'a>, place: u32) -> Result<Words<'a>, Memory>
    requires index { IsIndex index.now }
    requires place { place < length index.now.symbols }
    ensures { IfOk result (λ words. words ≡ own_words_at index.now.menu.now (symbol_at index.now.symbols place)) }
{
    let mut words = Words::new(alloc);
    add_entries(&mut words, index.own(place))?;
    add_selects(&mut words, index.selects(place))?;
    Ok(words)
}

/// The words of the choice of the symbol at a place.
fn words_of_its_choice<'b, 'a>(
    index: &Index<'a>,
    chosen: &'b [Words<'a>],
    place: u32,
) -> &'b [&'a [u8]]
    requires index { IsIndex index.now }
    requires chosen { AreChoiceWords index.now.menu.now chosen.now }
    requires place { place < length index.now.symbols }
    ensures { behind result.now ≡ chosen_words_at index.now.menu.now (symbol_at index.now.symbols place) }
{
    match index.choice_of(place) {
        Some(choice) => chosen[choice as usize].as_slice(),
        None => &[],
    }
}

/// The words of each choice. More choices than can be numbered in 32 bits are answered as out of memory.
fn words_of_choices<'a>(alloc: Global, index: &Index<'a>) -> Result<Vec<Words<'a>>, Memory>
    requires { IsIndex index.now }
    ensures { IfOk result (λ chosen. AreChoiceWords index.now.menu.now chosen.items) }
{
    let count = index.menu.choices().len();
    if count > u32::MAX as usize {
        return Err(Memory);
    }
    let mut chosen = Vec::with_capacity(alloc, count)?;
    for place in 0..count as u32 {
        chosen.push(words_of_choice(alloc, index, place)?)?;
    }
    Ok(chosen)
}

/// The words of the choice at a place.
fn words_of_choice<'a>(alloc: Global, index: &Index<'a>, place: u32) -> Result<Words<'a>, Memory>
    requires index { IsIndex index.now }
    requires place { place < length index.now.menu.now.choices }
    ensures { IfOk result (λ words. words ≡ choice_words_at index.now.menu.now place) }
{
    let mut words = Words::new(alloc);
    add_choice(&mut words, index, place)?;
    Ok(words)
}

fn add_entries<'a>(words: &mut Words<'a>, own: &[&'a KcEntry]) -> Result<(), Memory>
    ensures { OnOk result (words.new ≡ words.old ++ flat_map own_words (behind own.now)) }
{
    for entry in own {
        words.add_own(entry)?;
    }
    Ok(())
}

fn add_selects<'a>(
    words: &mut Words<'a>,
    selects: &[(&'a KcEntry, &'a SymbolIf)],
) -> Result<(), Memory>
    ensures { OnOk result (words.new ≡ words.old ++ flat_map (λ x. select_words x.0 x.1) (selects_behind selects.now)) }
{
    for (entry, select) in selects {
        words.add_select(entry, select)?;
    }
    Ok(())
}

/// Adds the words of the choice at a place.
fn add_choice<'a>(words: &mut Words<'a>, index: &Index<'a>, place: u32) -> Result<(), Memory>
    requires index { IsIndex index.now }
    requires place { place < length index.now.menu.now.choices }
    ensures { OnOk result (words.new ≡ words.old ++ choice_words_at index.now.menu.now place) }
{
    let choice = &index.menu.choices()[place as usize];
    words.add_conditions(&choice.prompts)?;
    words.add_conditions(&choice.depends)?;
    add_defaults(words, index, place, choice)?;
    add_members(words, index.members(place))
}

/// Adds the words of the defaults of the choice at a place.
fn add_defaults<'a>(
    words: &mut Words<'a>,
    index: &Index<'a>,
    place: u32,
    choice: &'a KcChoice,
) -> Result<(), Memory>
    requires index { IsIndex index.now }
    requires place { place < length index.now.menu.now.choices }
    ensures { OnOk result (words.new ≡ words.old ++ flat_map (taken_words (members_of index.now.menu.now.entries place)) choice.now.defaults) }
{
    for default in &choice.defaults.items {
        add_taken(words, index, place, default)?;
    }
    Ok(())
}

/// Adds the words of a default of the choice at a place; a member is none of them.
fn add_taken<'a>(
    words: &mut Words<'a>,
    index: &Index<'a>,
    place: u32,
    default: &'a SymbolIf,
) -> Result<(), Memory>
    requires index { IsIndex index.now }
    requires place { place < length index.now.menu.now.choices }
    ensures { OnOk result (words.new ≡ words.old ++ taken_words (members_of index.now.menu.now.entries place) default.now) }
{
    words.add_condition(&default.condition)?;
    if is_member(index, place, default.symbol.as_slice()) {
        return Ok(());
    }
    words.add(default.symbol.as_slice())
}

fn add_members<'a>(words: &mut Words<'a>, members: &[&'a KcEntry]) -> Result<(), Memory>
    ensures { OnOk result (words.new ≡ words.old ++ flat_map shown_words (behind members.now)) }
{
    for entry in members {
        words.add_shown(entry)?;
    }
    Ok(())
}

/// Whether a symbol is a member of the choice at a place.
#[tactic(auto, using(crate::proofs::Chosen::member_is))]
fn is_member(index: &Index, choice: u32, symbol: &[u8]) -> bool
    requires { IsIndex index.now }
    ensures { result ≡ is_declared (members_of index.now.menu.now.entries choice) symbol.now }
{
    let Some(place) = index.symbols.place(symbol) else {
        return false;
    };
    match index.choice_of(place) {
        Some(other) => other == choice,
        None => false,
    }
}
