//! What a menu and wishes say of each symbol and each choice.
ghost use Rattle.std.specs.Prelude.{◌≡◌, ◌<◌, ◌∷◌, [], IfOk, OnOk, length, map, slice_get, option_copied, option_and_then};
ghost use Rattle.kc_equations.specs.Behind.{behind, selects_behind};
ghost use Rattle.kc_equations.specs.Equation.{entries_of, selects_of, members_of, wish_of};
ghost use Rattle.kc_solve.specs.Groups.{grouped, put_all};
ghost use Rattle.kc_solve.specs.Index.{placed_entries, placed_selects, placed_wishes, placed_members, IsIndex};
ghost use Rattle.kc_solve.specs.Symbols.{symbol_at};

use crate::groups::Groups;
use crate::symbols::Symbols;
use br_path::Memory;
use kc_menu::{KcChoice, KcEntry, Menu, SymbolIf, Wish, WishValue, Wishes};
use std::alloc::Global;

/// A menu and wishes, with what they say of each symbol and each choice.
#[derive(Drop)]
pub struct Index<'a> {
    pub menu: &'a Menu,
    pub wishes: &'a Wishes,
    pub symbols: Symbols,
    own: Groups<&'a KcEntry>,
    selects: Groups<(&'a KcEntry, &'a SymbolIf)>,
    asked: Groups<&'a WishValue>,
    members: Groups<&'a KcEntry>,
}

impl<'a> Index<'a> {
    /// The index of a menu and wishes. The time is proportional to both, and to sort the symbols.
    pub fn new(alloc: Global, menu: &'a Menu, wishes: &'a Wishes) -> Result<Index<'a>, Memory>
        ensures index { IfOk result IsIndex }
        ensures menu { IfOk result (λ index. index.menu.now ≡ menu.now) }
        ensures wishes { IfOk result (λ index. index.wishes.now ≡ wishes.now) }
    {
        let entries = menu.entries();
        let symbols = Symbols::of(alloc, entries)?;
        let own = own_entries(alloc, &symbols, entries)?;
        let selects = named_selects(alloc, &symbols, entries)?;
        let asked = asked_values(alloc, &symbols, wishes.as_slice())?;
        let members = member_entries(alloc, menu.choices(), entries)?;
        Ok(Index {
            menu,
            wishes,
            symbols,
            own,
            selects,
            asked,
            members,
        })
    }

    /// The entries of the symbol at a place, in reading order.
    pub fn own(&self, place: u32) -> &[&'a KcEntry]
        requires index { IsIndex self.now }
        requires place { place < length self.now.symbols }
        ensures { behind result.now ≡ entries_of self.now.menu.now.entries (symbol_at self.now.symbols place) }
    {
        self.own.row(place)
    }

    /// The selects that name the symbol at a place, each with its entry.
    pub fn selects(&self, place: u32) -> &[(&'a KcEntry, &'a SymbolIf)]
        requires index { IsIndex self.now }
        requires place { place < length self.now.symbols }
        ensures { selects_behind result.now ≡ selects_of self.now.menu.now.entries (symbol_at self.now.symbols place) }
    {
        self.selects.row(place)
    }

    /// What is wished of the symbol at a place.
    pub fn wish(&self, place: u32) -> Option<&'a WishValue>
        requires index { IsIndex self.now }
        requires place { place < length self.now.symbols }
        ensures { option_copied result ≡ wish_of self.now.wishes.now (symbol_at self.now.symbols place) }
    {
        self.asked.row(place).first().copied()
    }

    /// The choice that the symbol at a place is a member of.
    pub fn choice_of(&self, place: u32) -> Option<u32>
        requires index { IsIndex self.now }
        requires place { place < length self.now.symbols }
        ensures { result ≡ option_and_then (λ e. e.choice) (slice_get (entries_of self.now.menu.now.entries (symbol_at self.now.symbols place)) 0) }
    {
        match self.own(place).first() {
            Some(entry) => entry.choice,
            None => None,
        }
    }

    /// The entries of the members of the choice at a place.
    pub fn members(&self, place: u32) -> &[&'a KcEntry]
        requires index { IsIndex self.now }
        requires place { place < length self.now.menu.now.choices }
        ensures { behind result.now ≡ members_of self.now.menu.now.entries place }
    {
        self.members.row(place)
    }
}

#[tactic(auto, using(crate::proofs::IndexRows::putting))]
fn own_entries<'a>(
    alloc: Global,
    symbols: &Symbols,
    entries: &'a [KcEntry],
) -> Result<Groups<&'a KcEntry>, Memory>
    ensures { IfOk result (λ rows. map behind rows ≡ grouped (length symbols.now) (placed_entries symbols.now entries.now)) }
{
    let mut rows = Groups::new(alloc, symbols.count() as usize)?;
    for entry in entries {
        rows.put(symbols.place(entry.symbol.as_slice()), entry)?;
    }
    Ok(rows)
}

#[tactic(auto, using(crate::proofs::IndexRows::putting_selects))]
fn named_selects<'a>(
    alloc: Global,
    symbols: &Symbols,
    entries: &'a [KcEntry],
) -> Result<Groups<(&'a KcEntry, &'a SymbolIf)>, Memory>
    ensures { IfOk result (λ rows. map selects_behind rows ≡ grouped (length symbols.now) (placed_selects symbols.now entries.now)) }
{
    let mut rows = Groups::new(alloc, symbols.count() as usize)?;
    for entry in entries {
        put_selects(&mut rows, symbols, entry)?;
    }
    Ok(rows)
}

#[tactic(auto, using(crate::proofs::IndexRows::putting_selects))]
fn put_selects<'a>(
    rows: &mut Groups<(&'a KcEntry, &'a SymbolIf)>,
    symbols: &Symbols,
    entry: &'a KcEntry,
) -> Result<(), Memory>
    ensures { OnOk result (map selects_behind rows.new ≡ put_all (map selects_behind rows.old) (placed_selects symbols.now (entry.now ∷ []))) }
{
    for select in &entry.selects.items {
        rows.put(symbols.place(select.symbol.as_slice()), (entry, select))?;
    }
    Ok(())
}

#[tactic(auto, using(crate::proofs::IndexRows::putting))]
fn asked_values<'a>(
    alloc: Global,
    symbols: &Symbols,
    wishes: &'a [Wish],
) -> Result<Groups<&'a WishValue>, Memory>
    ensures { IfOk result (λ rows. map behind rows ≡ grouped (length symbols.now) (placed_wishes symbols.now wishes.now)) }
{
    let mut rows = Groups::new(alloc, symbols.count() as usize)?;
    for wish in wishes {
        rows.put(symbols.place(wish.symbol.as_slice()), &wish.value)?;
    }
    Ok(rows)
}

#[tactic(auto, using(crate::proofs::IndexRows::putting))]
fn member_entries<'a>(
    alloc: Global,
    choices: &[KcChoice],
    entries: &'a [KcEntry],
) -> Result<Groups<&'a KcEntry>, Memory>
    ensures { IfOk result (λ rows. map behind rows ≡ grouped (length choices.now) (placed_members entries.now)) }
{
    let mut rows = Groups::new(alloc, choices.len())?;
    for entry in entries {
        rows.put(entry.choice, entry)?;
    }
    Ok(rows)
}
