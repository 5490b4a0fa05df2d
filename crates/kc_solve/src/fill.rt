//! The values of all symbols, each found after those that its equation names.
ghost use Rattle.std.specs.Prelude.{ℕ, List, ◌≡◌, ◌<◌, Some, None, IfOk, OnOk, length};
ghost use Rattle.cycle_walks.specs.Order.{IsOrder};
ghost use Rattle.kc_equations.specs.Solution.{IsSolution};
ghost use Rattle.kc_values.specs.Values.{IsFit, find as valued};
ghost use Rattle.kc_values.specs.declared.values.Valued.{Valued as Given};
ghost use Rattle.kc_solve.specs.Filled.{IsFilled, names_within, with_value, put_valued, in_order};
ghost use Rattle.kc_solve.specs.Index.{IsIndex};
ghost use Rattle.kc_solve.specs.Symbols.{symbol_at};
ghost use Rattle.kc_solve.specs.Taken.{AreTaken, choice_place, with_taken};

use crate::index::Index;
use crate::members::Chosen;
use crate::texts::valued;
use br_path::{Bytes, Memory, Numbers};
use kc_menu::KcEntry;
use kc_values::{Valued, Values};
use std::alloc::Global;

/// The solution, by an order of the symbols in which each stands after those that its equation names.
pub fn solution(alloc: Global, index: &Index, order: &Numbers) -> Result<Values, Memory>
    requires index { IsIndex index.now }
    requires order { IsOrder (length index.now.symbols) (names_within index.now.menu.now index.now.symbols) order.now }
    ensures { IfOk result (IsSolution index.now.menu.now index.now.wishes.now) }
{
    let filled = fill(alloc, index, order)?;
    in_order(alloc, index.menu.entries(), &filled)
}

/// The values in that order.
fn fill(alloc: Global, index: &Index, order: &Numbers) -> Result<Values, Memory>
    requires index { IsIndex index.now }
    requires order { IsOrder (length index.now.symbols) (names_within index.now.menu.now index.now.symbols) order.now }
    ensures { IfOk result (IsFilled index.now.menu.now index.now.wishes.now) }
{
    let mut chosen = Chosen::new(alloc, index.menu.choices().len())?;
    let mut values = Values::new(alloc);
    for place in &order.items {
        add_value(alloc, index, &mut values, &mut chosen, *place)?;
    }
    Ok(values)
}

/// Adds the symbol at a place with the value that its equation gives. It keeps the member that the symbol's choice takes.
fn add_value<'a>(
    alloc: Global,
    index: &Index<'a>,
    values: &mut Values,
    chosen: &mut Chosen<'a>,
    place: u32,
) -> Result<(), Memory>
    requires index { IsIndex index.now }
    requires place { place < length index.now.symbols }
    requires fresh { valued (symbol_at index.now.symbols place) values.old ≡ None }
    requires known { AreTaken index.now.menu.now index.now.wishes.now values.old chosen.old }
    ensures known { OnOk result (chosen.new ≡ with_taken index.now.menu.now index.now.wishes.now values.old chosen.old (choice_place index.now.menu.now.entries (symbol_at index.now.symbols place))) }
    ensures values { OnOk result (values.new ≡ with_value index.now.menu.now index.now.wishes.now values.old (symbol_at index.now.symbols place)) }
{
    let valued = valued(alloc, index, values, chosen, place)?;
    let symbol = Bytes::from_slice(alloc, index.symbols.symbol(place))?;
    values.add(symbol, valued)
}

/// Values in the order of the first entries of their symbols.
fn in_order(alloc: Global, entries: &[KcEntry], filled: &Values) -> Result<Values, Memory>
    requires { (s : List ℕ) (v : Given) → valued s filled.now ≡ Some v → IsFit v }
    ensures { IfOk result (λ values. values ≡ in_order filled.now entries.now) }
{
    let mut values = Values::new(alloc);
    for entry in entries {
        if let Some(valued) = filled.find(entry.symbol.as_slice()) {
            put(&mut values, &entry.symbol, valued)?;
        }
    }
    Ok(values)
}

/// Puts a symbol with its value after the others, unless it is there.
fn put(values: &mut Values, symbol: &Bytes, valued: &Valued) -> Result<(), Memory>
    requires { IsFit valued.now }
    ensures { OnOk result (values.new ≡ put_valued values.old symbol.now (Some valued.now)) }
{
    if values.find(symbol.as_slice()).is_some() {
        return Ok(());
    }
    let copied = Valued {
        kind: valued.kind,
        text: valued.text.copy()?,
    };
    values.add(symbol.copy()?, copied)
}
