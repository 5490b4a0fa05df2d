//! Sets of symbols.
ghost use Rattle.std.specs.Prelude.{◌≡◌, ◌||◌, not, ℕ, List, [], IfOk, OnOk};
ghost use Rattle.br_path.specs.Text.{is_text};
ghost use Rattle.dot_config.specs.Symbols.{has};

use br_path::{Bytes, Memory};
use indexmap::IndexSet;
use std::alloc::Global;
use std::marker::Model;

/// A set of symbols. Asking and putting take constant time.
pub struct Symbols {
    names: IndexSet<Vec<u8>>,
}

// A proof then has one call at each place that lets a set go, and not one for each part of it.
impl Drop for Symbols {
    fn drop(self) {
        let Symbols { names } = self;
        drop(names);
    }
}

impl Model for Symbols {
    ghost use Rattle.std.specs.Prelude.{ℕ, List, map};

    ghost Value = { List (List ℕ) };

    ghost view = { λ s. map (λ name. name.items) s.names.keys };
}

impl Symbols {
    /// No symbols.
    pub fn new(alloc: Global) -> Symbols
        ensures { result ≡ [] }
    {
        Symbols {
            names: IndexSet::new(alloc),
        }
    }

    /// Whether the symbol is one of these.
    pub fn has(&self, symbol: &[u8]) -> bool
        ensures { result ≡ has symbol.now self.now }
    {
        self.names.contains(symbol)
    }

    /// Puts a symbol in, and says whether it is new.
    pub fn put(&mut self, symbol: &Bytes) -> Result<bool, Memory>
        ensures new { IfOk result (λ new. new ≡ not (has symbol.now self.old)) }
        ensures put { OnOk result ((other : List ℕ) → has other self.new ≡ (is_text symbol.now other || has other self.old)) }
    {
        let name = symbol.copy()?;
        Ok(self.names.insert(name.items)?)
    }
}
