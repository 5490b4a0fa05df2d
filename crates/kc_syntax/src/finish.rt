//! The menu of the whole, once the types of all symbols are known.
ghost use Rattle.std.specs.Prelude.{◌≡◌};
ghost use Rattle.kc_syntax.specs.Shown.{Answers};
ghost use Rattle.kc_syntax.specs.Reading.{each, default_of, may_be_default, typed_entry, entry_of, kind_of, is_one_atom};

use crate::draft::{Draft, DraftDefault, DraftDefaults};
use crate::entries::same_kind;
use crate::error::{KcError, KcKind, fault};
use crate::reader::{Known, Reader};
use br_path::Bytes;
use indexmap::IndexMap;
use kc_expr::Expr;
use kc_menu::{Choices, Entries, KcDefault, KcDefaults, KcEntry, Menu};
use kc_values::Kind;
use std::alloc::Global;

impl Reader {
    ghost use Rattle.kc_syntax.specs.Shown.{shown};
    ghost use Rattle.kc_syntax.specs.Sound.{IsSound};
    ghost use Rattle.kc_syntax.specs.Reading.{closed};

    /// The menu, or the first fault that only the whole shows.
    pub(crate) fn finish(self) -> Result<Menu, KcError>
        requires { IsSound (shown self) }
        ensures { Answers (closed (shown self)) result }
    {
        let Reader {
            alloc,
            entries,
            choices,
            symbols,
            ..
        } = self;
        match entries_of(alloc, &symbols, entries) {
            Ok(entries) => Ok(Menu::new(entries, Choices { items: choices })),
            Err(error) => Err(error),
        }
    }
}

fn entries_of(
    alloc: Global,
    symbols: &IndexMap<Bytes, Known>,
    entries: Vec<Draft>,
) -> Result<Entries, KcError>
    ensures { Answers (each (entry_of symbols.now.entries) entries.items) result }
{
    let mut items = Vec::with_capacity(alloc, entries.len())?;
    for entry in entries {
        match entry_of(alloc, symbols, entry) {
            Ok(entry) => items.push(entry)?,
            Err(error) => return Err(error),
        }
    }
    Ok(Entries { items })
}

fn entry_of(
    alloc: Global,
    symbols: &IndexMap<Bytes, Known>,
    entry: Draft,
) -> Result<KcEntry, KcError>
    ensures { Answers (entry_of symbols.now.entries entry) result }
{
    match kind_of(symbols, &entry.symbol) {
        Some(kind) => typed_entry(alloc, entry, kind),
        None => Err(fault(&entry.file, entry.line, KcKind::NoType)),
    }
}

// The type of a symbol.
fn kind_of(symbols: &IndexMap<Bytes, Known>, symbol: &Bytes) -> Option<Kind>
    ensures { result ≡ kind_of symbols.now.entries symbol.now }
{
    symbols.get(symbol)?.kind
}

fn typed_entry(alloc: Global, entry: Draft, kind: Kind) -> Result<KcEntry, KcError>
    ensures { Answers (typed_entry entry kind) result }
{
    match defaults_of(alloc, kind, entry.defaults) {
        Ok(defaults) => Ok(KcEntry {
            symbol: entry.symbol,
            kind,
            prompts: entry.prompts,
            defaults,
            selects: entry.selects,
            depends: entry.depends,
            choice: entry.choice,
        }),
        Err(error) => Err(error),
    }
}

fn defaults_of(alloc: Global, kind: Kind, defaults: DraftDefaults) -> Result<KcDefaults, KcError>
    ensures { Answers (each (default_of kind) defaults) result }
{
    let mut items = Vec::with_capacity(alloc, defaults.items.len())?;
    for given in defaults.items {
        match default_of(kind, given) {
            Ok(default) => items.push(default)?,
            Err(error) => return Err(error),
        }
    }
    Ok(KcDefaults { items })
}

fn default_of(kind: Kind, given: DraftDefault) -> Result<KcDefault, KcError>
    ensures { Answers (default_of kind given) result }
{
    if !may_be_default(kind, &given) {
        return Err(fault(&given.file, given.line, KcKind::BadLine));
    }
    Ok(KcDefault {
        value: given.value,
        condition: given.condition,
    })
}

// Whether a symbol of the type may have the default: a bool has an expression, others have an atom without brackets.
fn may_be_default(kind: Kind, given: &DraftDefault) -> bool
    ensures { result ≡ may_be_default kind given.now }
{
    same_kind(kind, Kind::Bool) || (given.single && is_one_atom(&given.value))
}

fn is_one_atom(value: &Expr) -> bool
    ensures { result ≡ is_one_atom value.now }
{
    matches!(value, Expr::Holds(_))
}
