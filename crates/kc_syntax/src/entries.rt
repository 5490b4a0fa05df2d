//! Entries, and what is known of their symbols.
ghost use Rattle.std.specs.Prelude.{◌≡◌, OnOk};
ghost use Rattle.kc_syntax.specs.Step.{same_place, same_kind, may_have};

use crate::block::Owner;
use crate::blocks::no_conditions;
use crate::draft::{Draft, DraftDefaults};
use crate::error::{KcError, KcKind, fault};
use crate::reader::{Known, Reader};
use crate::shared::SharedPath;
use br_path::{Bytes, Memory};
use kc_menu::SymbolIfs;
use kc_values::Kind;

/// How many entries there may be.
const ENTRY_LIMIT: usize = 65_536;

impl Reader {
    ghost use Rattle.kc_syntax.specs.Shown.{shown, Follows};
    ghost use Rattle.kc_syntax.specs.State as state;
    ghost use Rattle.kc_syntax.specs.Step as on;

    /// `config` or `menuconfig`
    pub(crate) fn begin_entry(
        &mut self,
        symbol: Bytes,
        file: &SharedPath,
        line: u32,
    ) -> Result<(), KcError>
        ensures { Follows (on.begin_entry (shown self.old) symbol file.now line) result (shown self.new) }
    {
        if !self.may_stand(&symbol) {
            return Err(fault(file, line, KcKind::BadLine));
        }
        if self.entries.len() >= ENTRY_LIMIT {
            return Err(fault(file, line, KcKind::TooMany));
        }
        self.put_symbol(&symbol)?;
        Ok(self.put_entry(symbol, file, line)?)
    }

    /// What is known of a symbol.
    pub(crate) fn known(&self, symbol: &Bytes) -> Option<Known>
        ensures { result ≡ state.known (shown self.now).symbols symbol.now }
    {
        self.symbols.get(symbol).copied()
    }

    // Whether an entry of the symbol may stand here: all of them stand in one choice, or in none.
    fn may_stand(&self, symbol: &Bytes) -> bool
        ensures { result ≡ on.may_stand (shown self.now) symbol.now }
    {
        match self.known(symbol) {
            Some(known) => same_place(known.choice, self.enclosing_choice()),
            None => true,
        }
    }

    fn put_symbol(&mut self, symbol: &Bytes) -> Result<(), Memory>
        ensures { OnOk result (shown self.new ≡ state.with_symbol symbol.now (shown self.old)) }
    {
        if self.known(symbol).is_some() {
            return Ok(());
        }
        let choice = self.enclosing_choice();
        self.symbols
            .insert(symbol.copy()?, Known { kind: None, choice })?;
        Ok(())
    }

    fn put_entry(&mut self, symbol: Bytes, file: &SharedPath, line: u32) -> Result<(), Memory>
        ensures { OnOk result (shown self.new ≡ on.with_entry symbol file.now line (shown self.old)) }
    {
        let depends = self.conditions()?;
        let file = file.share()?;
        let choice = self.enclosing_choice();
        self.entries.push(Draft {
            symbol,
            file,
            line,
            prompts: no_conditions(self.alloc),
            defaults: DraftDefaults {
                items: Vec::new(self.alloc),
            },
            selects: SymbolIfs {
                items: Vec::new(self.alloc),
            },
            depends,
            choice,
        })?;
        self.owner = Owner::Entry;
        Ok(())
    }

    /// The last entry's symbol gets a type: a member of a choice is a bool, and a second type is the first.
    pub(crate) fn type_entry(
        &mut self,
        kind: Kind,
        file: &SharedPath,
        line: u32,
    ) -> Result<(), KcError>
        ensures { Follows (on.type_entry (shown self.old) kind file.now line) result (shown self.new) }
    {
        let Some(entry) = self.entries.last() else {
            return Ok(());
        };
        let symbol = entry.symbol.copy()?;
        match self.known(&symbol) {
            Some(known) => self.type_symbol(symbol, kind, known, file, line),
            None => Ok(()),
        }
    }

    fn type_symbol(
        &mut self,
        symbol: Bytes,
        kind: Kind,
        known: Known,
        file: &SharedPath,
        line: u32,
    ) -> Result<(), KcError>
        ensures { Follows (on.typed_as (shown self.old) symbol kind file.now line (Some known)) result (shown self.new) }
    {
        if known.choice.is_some() && !same_kind(kind, Kind::Bool) {
            return Err(fault(file, line, KcKind::BadLine));
        }
        if !may_have(kind, known.kind) {
            return Err(fault(file, line, KcKind::TwoTypes));
        }
        self.symbols.insert(
            symbol,
            Known {
                kind: Some(kind),
                choice: known.choice,
            },
        )?;
        Ok(())
    }
}

fn same_place(place: Option<u32>, other: Option<u32>) -> bool
    ensures { result ≡ same_place place other }
{
    match (place, other) {
        (Some(place), Some(other)) => place == other,
        (None, None) => true,
        _ => false,
    }
}

/// Whether two types are one.
pub(crate) fn same_kind(kind: Kind, other: Kind) -> bool
    ensures { result ≡ same_kind kind other }
{
    kind == other
}

// Whether a symbol may have the type which has this one, or none.
fn may_have(kind: Kind, found: Option<Kind>) -> bool
    ensures { result ≡ may_have kind found }
{
    match found {
        Some(other) => same_kind(other, kind),
        None => true,
    }
}
