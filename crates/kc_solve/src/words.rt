//! The bare words that stand in the equation of a symbol.
ghost use Rattle.std.specs.Prelude.{◌≡◌, ◌++◌, ◌∷◌, [], OnOk, flat_map, map};
ghost use Rattle.kc_equations.specs.Behind.{behind};
ghost use Rattle.kc_solve.specs.Words.{word_of, words, words_in, shown_words, default_words, own_words, select_words};

use br_path::Memory;
use kc_expr::{Atom, Expr};
use kc_menu::{Exprs, KcDefault, KcEntry, SymbolIf};
use std::alloc::Global;
use std::marker::Model;

/// Words in the order in which they were gathered, as often as they were.
#[derive(Drop)]
pub struct Words<'a> {
    items: Vec<&'a [u8]>,
}

impl<'a> Model for Words<'a> {
    ghost use Rattle.std.specs.Prelude.{ℕ, List};
    ghost use Rattle.kc_equations.specs.Behind.{behind};

    ghost Value = { List (List ℕ) };

    ghost view = { λ w. behind w.items.items };
}

impl<'a> Words<'a> {
    /// No words.
    pub fn new(alloc: Global) -> Words<'a>
        ensures { result ≡ [] }
    {
        Words {
            items: Vec::new(alloc),
        }
    }

    /// The words, in their order.
    pub fn as_slice(&self) -> &[&'a [u8]]
        ensures { behind result.now ≡ self.now }
    {
        self.items.as_slice()
    }

    /// Adds a word.
    pub fn add(&mut self, word: &'a [u8]) -> Result<(), Memory>
        ensures { OnOk result (self.new ≡ self.old ++ word.now ∷ []) }
    {
        self.items.push(word)?;
        Ok(())
    }

    fn add_atom(&mut self, atom: &'a Atom) -> Result<(), Memory>
        ensures { OnOk result (self.new ≡ self.old ++ word_of atom.now) }
    {
        match atom {
            Atom::Word(word) => self.add(word.as_slice()),
            Atom::Quoted(_) => Ok(()),
        }
    }

    fn add_atoms(&mut self, left: &'a Atom, right: &'a Atom) -> Result<(), Memory>
        ensures { OnOk result (self.new ≡ self.old ++ (word_of left.now ++ word_of right.now)) }
    {
        self.add_atom(left)?;
        self.add_atom(right)
    }

    /// Adds those of a condition.
    #[tactic(auto, using(crate::proofs::WordLaws::gathering))]
    pub fn add_condition(&mut self, condition: &'a Expr) -> Result<(), Memory>
        ensures { OnOk result (self.new ≡ self.old ++ words condition.now) }
    {
        match condition {
            Expr::True => Ok(()),
            Expr::And(left, right) => {
                self.add_condition(left.get())?;
                self.add_condition(right.get())
            }
            Expr::Or(left, right) => {
                self.add_condition(left.get())?;
                self.add_condition(right.get())
            }
            Expr::Not(inner) => self.add_condition(inner.get()),
            Expr::Holds(atom) => self.add_atom(atom),
            Expr::Same(left, right) => self.add_atoms(left, right),
            Expr::Differ(left, right) => self.add_atoms(left, right),
        }
    }

    /// Adds those of conditions.
    pub fn add_conditions(&mut self, conditions: &'a Exprs) -> Result<(), Memory>
        ensures { OnOk result (self.new ≡ self.old ++ words_in conditions.now) }
    {
        for condition in &conditions.items {
            self.add_condition(condition)?;
        }
        Ok(())
    }

    /// Adds those of the prompts and the dependencies of an entry.
    pub fn add_shown(&mut self, entry: &'a KcEntry) -> Result<(), Memory>
        ensures { OnOk result (self.new ≡ self.old ++ shown_words entry.now) }
    {
        self.add_conditions(&entry.prompts)?;
        self.add_conditions(&entry.depends)
    }

    fn add_default(&mut self, default: &'a KcDefault) -> Result<(), Memory>
        ensures { OnOk result (self.new ≡ self.old ++ default_words default.now) }
    {
        self.add_condition(&default.value)?;
        self.add_condition(&default.condition)
    }

    /// Adds those of an entry's prompts, dependencies and defaults.
    pub fn add_own(&mut self, entry: &'a KcEntry) -> Result<(), Memory>
        ensures { OnOk result (self.new ≡ self.old ++ own_words entry.now) }
    {
        self.add_shown(entry)?;
        for default in &entry.defaults.items {
            self.add_default(default)?;
        }
        Ok(())
    }

    /// Adds those of a select, with its entry.
    pub fn add_select(&mut self, entry: &'a KcEntry, select: &'a SymbolIf) -> Result<(), Memory>
        ensures { OnOk result (self.new ≡ self.old ++ select_words entry.now select.now) }
    {
        self.add(entry.symbol.as_slice())?;
        self.add_condition(&select.condition)?;
        self.add_conditions(&entry.depends)
    }
}
