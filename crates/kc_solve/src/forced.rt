//! Symbols that are y while their dependencies don't hold.
ghost use Rattle.std.specs.Prelude.{◌≡◌, ◌<◌, IfOk, filter, length};
ghost use Rattle.kc_equations.specs.Behind.{behind, selects_behind};
ghost use Rattle.kc_equations.specs.Equation.{is_effective, is_selected};
ghost use Rattle.kc_equations.specs.Faults.{depends_hold, is_forced};
ghost use Rattle.kc_solve.specs.Index.{IsIndex};
ghost use Rattle.kc_solve.specs.Symbols.{symbol_at};

use crate::index::Index;
use br_path::{Bytes, Memory, Names};
use kc_menu::{KcEntry, SymbolIf};
use kc_values::Values;
use std::alloc::Global;

/// The symbols that are y by an effective select while their dependencies don't hold, by name.
#[tactic(auto, using(crate::proofs::Steps::filtering))]
pub fn forced(alloc: Global, index: &Index, values: &Values) -> Result<Names, Memory>
    requires { IsIndex index.now }
    ensures { IfOk result (λ forced. forced ≡ filter (is_forced index.now.menu.now values.now) index.now.symbols) }
{
    let mut items = Vec::new(alloc);
    for place in 0..index.symbols.count() {
        if is_forced(index, values, place) {
            items.push(Bytes::from_slice(alloc, index.symbols.symbol(place))?)?;
        }
    }
    Ok(Names { items })
}

fn is_forced(index: &Index, values: &Values, place: u32) -> bool
    requires index { IsIndex index.now }
    requires place { place < length index.now.symbols }
    ensures { result ≡ is_forced index.now.menu.now values.now (symbol_at index.now.symbols place) }
{
    values.is_yes(index.symbols.symbol(place))
        && is_selected(values, index.selects(place))
        && !depends_hold(values, index.own(place))
}

/// Whether one of the selects is effective.
fn is_selected(values: &Values, selects: &[(&KcEntry, &SymbolIf)]) -> bool
    ensures { result ≡ is_selected values.now (selects_behind selects.now) }
{
    for (entry, select) in selects {
        if is_effective(values, entry, select) {
            return true;
        }
    }
    false
}

fn is_effective(values: &Values, entry: &KcEntry, select: &SymbolIf) -> bool
    ensures { result ≡ is_effective values.now entry.now select.now }
{
    values.is_yes(entry.symbol.as_slice())
        && entry.depends.all_hold(values)
        && select.condition.holds(values)
}

/// Whether the dependencies of one of the entries hold.
fn depends_hold(values: &Values, own: &[&KcEntry]) -> bool
    ensures { result ≡ depends_hold values.now (behind own.now) }
{
    for entry in own {
        if entry.depends.all_hold(values) {
            return true;
        }
    }
    false
}
