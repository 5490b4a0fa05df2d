//! Selects of what can't be selected.
ghost use Rattle.std.specs.Prelude.{◌≡◌, ◌<◌, find, is_some, length, not, option_copied};
ghost use Rattle.std.specs.List.{list_any};
ghost use Rattle.kc_equations.specs.Behind.{behind};
ghost use Rattle.kc_equations.specs.Faults.{is_select_named, is_named_member, is_named_value};
ghost use Rattle.kc_values.specs.Values.{is_bool};
ghost use Rattle.kc_solve.specs.Index.{IsIndex};
ghost use Rattle.kc_solve.specs.Symbols.{symbol_at};

use crate::index::Index;
use kc_menu::KcEntry;
use kc_values::Kind;

/// The least member of a choice that a select names.
#[tactic(auto, using(crate::proofs::Steps::finding))]
pub fn least_named_member<'i>(index: &'i Index) -> Option<&'i [u8]>
    requires { IsIndex index.now }
    ensures { option_copied result ≡ find (is_named_member index.now.menu.now.entries) index.now.symbols }
{
    for place in 0..index.symbols.count() {
        if is_named_member(index, place) {
            return Some(index.symbols.symbol(place));
        }
    }
    None
}

/// The least string or int that a select names.
#[tactic(auto, using(crate::proofs::Steps::finding))]
pub fn least_named_value<'i>(index: &'i Index) -> Option<&'i [u8]>
    requires { IsIndex index.now }
    ensures { option_copied result ≡ find (is_named_value index.now.menu.now.entries) index.now.symbols }
{
    for place in 0..index.symbols.count() {
        if is_named_value(index, place) {
            return Some(index.symbols.symbol(place));
        }
    }
    None
}

fn is_named_member(index: &Index, place: u32) -> bool
    requires index { IsIndex index.now }
    requires place { place < length index.now.symbols }
    ensures { result ≡ is_named_member index.now.menu.now.entries (symbol_at index.now.symbols place) }
{
    is_select_named(index, place) && is_member(index.own(place))
}

fn is_named_value(index: &Index, place: u32) -> bool
    requires index { IsIndex index.now }
    requires place { place < length index.now.symbols }
    ensures { result ≡ is_named_value index.now.menu.now.entries (symbol_at index.now.symbols place) }
{
    is_select_named(index, place) && is_value(index.own(place))
}

/// Whether a select names the symbol at a place.
#[tactic(auto, using(crate::proofs::Declares::some_selects))]
fn is_select_named(index: &Index, place: u32) -> bool
    requires index { IsIndex index.now }
    requires place { place < length index.now.symbols }
    ensures { result ≡ is_select_named index.now.menu.now.entries (symbol_at index.now.symbols place) }
{
    !index.selects(place).is_empty()
}

/// Whether one of the entries is inside a choice.
fn is_member(own: &[&KcEntry]) -> bool
    ensures { result ≡ list_any (λ e. is_some e.choice) (behind own.now) }
{
    for entry in own {
        if entry.choice.is_some() {
            return true;
        }
    }
    false
}

/// Whether one of the entries is that of a string or int.
fn is_value(own: &[&KcEntry]) -> bool
    ensures { result ≡ list_any (λ e. not (is_bool e.kind)) (behind own.now) }
{
    for entry in own {
        if entry.kind != Kind::Bool {
            return true;
        }
    }
    false
}
