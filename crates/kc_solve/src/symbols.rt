//! The declared symbols, each numbered by its place by bytes.
ghost use Rattle.std.specs.Prelude.{ℕ, List, ◌≡◌, ◌<◌, IfOk, length, map};
ghost use Rattle.std.specs.List.{list_any};
ghost use Rattle.br_path.specs.Text.{is_text};
ghost use Rattle.kc_equations.specs.Names.{is_declared};
ghost use Rattle.kc_equations.specs.Solution.{symbols_of};
ghost use Rattle.kc_solve.specs.Symbols.{AreSymbols, symbol_at, place_of};

use br_path::Memory;
use indexmap::IndexSet;
use kc_menu::KcEntry;
use std::alloc::Global;
use std::marker::Model;

/// Symbols that rise by bytes, each numbered by its place, from 0. So the least number is that of the least symbol.
///
/// A look-up takes constant time.
pub struct Symbols {
    set: IndexSet<Vec<u8>>,
}

// A proof then has one call at each place that lets the symbols go, and not one for each part of the set.
impl Drop for Symbols {
    fn drop(self) {
        let Symbols { set } = self;
        drop(set);
    }
}

impl Model for Symbols {
    ghost use Rattle.std.specs.Prelude.{ℕ, List, map};
    ghost use Rattle.kc_solve.specs.Symbols.{AreSymbols};

    ghost Value = { List (List ℕ) };

    ghost view = { λ s. map (λ k. k.items) s.set.keys };

    ghost invariant = { λ s. AreSymbols (map (λ k. k.items) s.set.keys) };
}

impl Symbols {
    /// The symbols of entries, each once. More than can be numbered in 32 bits are answered as out of memory.
    pub fn of(alloc: Global, entries: &[KcEntry]) -> Result<Symbols, Memory>
        ensures declared { IfOk result (λ s. (t : List ℕ) → list_any (is_text t) s ≡ is_declared entries.now t) }
        ensures symbols { IfOk result AreSymbols }
    {
        let mut set = symbol_set(alloc, entries)?;
        if set.len() > u32::MAX as usize {
            return Err(Memory);
        }
        set.sort()?;
        Ok(Symbols { set })
    }

    /// How many symbols there are.
    pub fn count(&self) -> u32
        ensures count { result ≡ length self.now }
        ensures symbols { AreSymbols self.now }
    {
        self.set.len() as u32
    }

    /// The symbol at a place.
    pub fn symbol(&self, place: u32) -> &[u8]
        requires { place < length self.now }
        ensures { result.now ≡ symbol_at self.now place }
    {
        self.set.as_slice()[place as usize].as_slice()
    }

    /// The place of a symbol; none exactly where it isn't declared.
    #[tactic(auto, using(crate::proofs::SymbolSets::position_map))]
    pub fn place(&self, symbol: &[u8]) -> Option<u32>
        ensures { result ≡ place_of self.now symbol.now }
    {
        match self.set.get_index_of(symbol) {
            Some(place) => Some(place as u32),
            None => None,
        }
    }
}

/// The symbols of entries, each once, in the order of their first entries.
#[tactic(auto, using(crate::proofs::SymbolSets::insert_key_map), unfolding(kc_equations::specs::Solution::symbols_of))]
fn symbol_set(alloc: Global, entries: &[KcEntry]) -> Result<IndexSet<Vec<u8>>, Memory>
    ensures { IfOk result (λ set. map (λ k. k.items) set.keys ≡ symbols_of entries.now) }
{
    let mut set = IndexSet::new(alloc);
    for entry in entries {
        set.insert(entry.symbol.copy()?.items)?;
    }
    Ok(set)
}
