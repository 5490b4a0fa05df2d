//! Variables by name.
ghost use Rattle.std.specs.Prelude.{◌≡◌, [], Some, OnOk, OnErr, option_map, option_copied};
ghost use Rattle.mk_expand.specs.Vars.{found, put, with_more, appended};

use br_path::{Bytes, Memory};
use indexmap::IndexMap;
use std::alloc::Global;
use std::marker::Model;

/// A variable: a simple one stands for its text, another for the value of its text where it is used.
#[derive(Debug, Drop)]
pub struct Variable {
    pub simple: bool,
    pub text: Bytes,
}

impl Variable {
    // A space goes before the text where there is something to divide it from.
    fn append(&mut self, mut text: Bytes) -> Result<(), Memory>
        ensures ok { OnOk result (self.new ≡ with_more (Some self.old) text) }
        ensures err { OnErr result (self.new ≡ self.old) }
    {
        if self.text.as_slice().is_empty() {
            self.text = text;
            return Ok(());
        }
        text.items.insert(0, b' ')?;
        self.text.items.extend_from_slice(text.as_slice())?;
        Ok(())
    }
}

/// The variables that are set, each with its last text, in the order in which they were first set.
#[derive(Debug, Drop)]
pub struct Vars {
    entries: IndexMap<Vec<u8>, Variable>,
}

impl Model for Vars {
    ghost use Rattle.std.specs.Prelude.{ℕ, List, map};
    ghost use Rattle.mk_expand.specs.declared.vars.Variable.{Variable};

    ghost Value = { List (List ℕ × Variable) };

    ghost view = { λ v. map (λ e. (e.0.items, e.1)) v.entries.entries };
}

impl Vars {
    /// No variable is set.
    pub fn new(alloc: Global) -> Vars
        ensures { result ≡ [] }
    {
        Vars {
            entries: IndexMap::new(alloc),
        }
    }

    /// Sets a variable, whatever it was before. A simple one's text is already expanded.
    pub fn set(&mut self, name: Bytes, simple: bool, text: Bytes) -> Result<(), Memory>
        ensures ok { OnOk result (self.new ≡ put self.old name (record { simple = simple; text = text })) }
        ensures err { OnErr result (self.new ≡ self.old) }
    {
        self.entries.insert(name.items, Variable { simple, text })?;
        Ok(())
    }

    /// Appends a space and a text to a variable; to an empty one the text alone. An unset one is set, to be expanded at use.
    /// To a simple one the text is appended as it is, so it is already expanded.
    pub fn append(&mut self, name: Bytes, text: Bytes) -> Result<(), Memory>
        ensures ok { OnOk result (self.new ≡ appended self.old name text) }
        ensures err { OnErr result (self.new ≡ self.old) }
    {
        if let Some(variable) = self.entries.get_mut(name.as_slice()) {
            variable.append(text)?;
            return Ok(());
        }
        self.set(name, false, text)
    }

    /// Whether a variable is simple; None where it is unset.
    pub fn is_simple(&self, name: &[u8]) -> Option<bool>
        ensures { result ≡ option_map (λ v. v.simple) (found self.now name.now) }
    {
        match self.find(name) {
            Some(variable) => Some(variable.simple),
            None => None,
        }
    }

    /// The text of a variable as it was set and appended to, not expanded; None where it is unset.
    pub fn text(&self, name: &[u8]) -> Option<&[u8]>
        ensures { option_map (λ t. t.now) result ≡ option_map (λ v. v.text) (found self.now name.now) }
    {
        match self.find(name) {
            Some(variable) => Some(variable.text.as_slice()),
            None => None,
        }
    }

    /// The variable of a name.
    pub(crate) fn find(&self, name: &[u8]) -> Option<&Variable>
        ensures { option_copied result ≡ found self.now name.now }
    {
        self.entries.get(name)
    }
}
