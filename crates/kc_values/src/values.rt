//! The values of symbols.
ghost use Rattle.std.specs.Prelude.{◌≡◌, ◌++◌, ◌∷◌, [], None, OnOk, OnErr, length, slice_get};
ghost use Rattle.std.specs.Option.{option_copied, option_map};

use crate::kind::Kind;
use br_path::{Bytes, Memory, is_text};
use indexmap::IndexMap;
use std::alloc::Global;
use std::marker::Model;

/// What a symbol is: its type and its text. The text of a bool is `y` or `n`.
#[derive(Debug, Drop)]
pub struct Valued {
    pub kind: Kind,
    pub text: Bytes,
}

/// The symbols with their types and texts, in the order of their first declarations. No symbol stands twice, and the
/// text of a bool is `y` or `n`.
///
/// A look-up takes constant time.
#[derive(Debug)]
pub struct Values {
    symbols: IndexMap<Vec<u8>, Valued>,
}

// A proof then has one call at each place that lets values go, and not one for each part of the map.
impl Drop for Values {
    fn drop(self) {
        let Values { symbols } = self;
        drop(symbols);
    }
}

impl Model for Values {
    ghost use Rattle.std.specs.Prelude.{map};
    ghost use Rattle.kc_values.specs.Values.{Table, IsTable};

    ghost Value = { Table };

    ghost view = { λ v. map (λ e. (e.0.items, e.1)) v.symbols.entries };

    ghost invariant = { λ v. IsTable (map (λ e. (e.0.items, e.1)) v.symbols.entries) };
}

impl Values {
    ghost use Rattle.kc_values.specs.Values.{find, IsFit, named, is_yes};

    /// No symbols.
    pub fn new(alloc: Global) -> Values
        ensures { result ≡ [] }
    {
        Values {
            symbols: IndexMap::new(alloc),
        }
    }

    /// Puts a symbol after the others. It is none of them, and the text of a bool is `y` or `n`.
    pub fn add(&mut self, symbol: Bytes, valued: Valued) -> Result<(), Memory>
        requires absent { find symbol self.old ≡ None }
        requires fit { IsFit valued }
        ensures ok { OnOk result (self.new ≡ self.old ++ (symbol, valued) ∷ []) }
        ensures err { OnErr result (self.new ≡ self.old) }
    {
        self.symbols.insert(symbol.items, valued)?;
        Ok(())
    }

    /// How many symbols there are.
    pub fn count(&self) -> usize
        ensures { result ≡ length self.now }
    {
        self.symbols.len()
    }

    /// The symbol at a place, from 0, with its type and text; none exactly where there are no more.
    pub fn at(&self, place: usize) -> Option<(&[u8], &Valued)>
        ensures { option_map named result ≡ slice_get self.now place }
    {
        match self.symbols.get_index(place) {
            Some((symbol, valued)) => Some((symbol.as_slice(), valued)),
            None => None,
        }
    }

    /// The text of a symbol; none exactly where it isn't in the list.
    pub fn get(&self, symbol: &[u8]) -> Option<&[u8]>
        ensures { option_copied result ≡ option_map (λ s. s.text) (find symbol.now self.now) }
    {
        match self.find(symbol) {
            Some(valued) => Some(valued.text.as_slice()),
            None => None,
        }
    }

    /// The type of a symbol; none exactly where it isn't in the list.
    pub fn kind(&self, symbol: &[u8]) -> Option<Kind>
        ensures { result ≡ option_map (λ s. s.kind) (find symbol.now self.now) }
    {
        match self.find(symbol) {
            Some(valued) => Some(valued.kind),
            None => None,
        }
    }

    /// Whether a symbol is a bool with the text `y`.
    pub fn is_yes(&self, symbol: &[u8]) -> bool
        ensures { result ≡ is_yes (find symbol.now self.now) }
    {
        match self.find(symbol) {
            Some(valued) => valued.kind == Kind::Bool && is_text(valued.text.as_slice(), b"y"),
            None => false,
        }
    }

    /// Type and text of a symbol.
    pub fn find(&self, symbol: &[u8]) -> Option<&Valued>
        ensures { option_copied result ≡ find symbol.now self.now }
    {
        self.symbols.get(symbol)
    }
}
