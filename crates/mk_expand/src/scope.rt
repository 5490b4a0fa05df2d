//! What holds at a place of the expansion.
ghost use Rattle.std.specs.Prelude.{◌≡◌, ℕ, List, ◌∷◌, ◌++◌, [], IfOk, OnOk};
ghost use Rattle.mk_expand.specs.declared.scope.Scope.{Scope as ScopeValue};
ghost use Rattle.mk_expand.specs.Meaning.{is_bad_name, is_active, with_active, with_local};

use crate::locals::Locals;
use br_path::{Bytes, Memory, Names};
use std::alloc::Global;

/// The variables that are being expanded, and the local names.
#[derive(Drop)]
pub(crate) struct Scope {
    pub active: Names,
    pub locals: Locals,
}

impl Scope {
    pub fn new(alloc: Global, locals: &Locals) -> Result<Scope, Memory>
        ensures { IfOk result (λ s. s ≡ record { active = []; locals = locals.now }) }
    {
        Ok(Scope {
            active: no_names(alloc),
            locals: locals.clone()?,
        })
    }

    pub fn is_active(&self, name: &[u8]) -> bool
        ensures { result ≡ is_active self.now.active name.now }
    {
        self.active
            .items
            .iter()
            .any(|other| other.as_slice() == name)
    }

    /// Notes that a variable is being expanded, until `leave_variable`.
    pub fn enter_variable(&mut self, name: Bytes) -> Result<(), Memory>
        ensures { OnOk result (self.new ≡ with_active self.old name) }
    {
        self.active.items.push(name)?;
        Ok(())
    }

    pub fn leave_variable(&mut self)
        ensures { (scope : ScopeValue) (name : List ℕ) → self.old ≡ with_active scope name → self.new ≡ scope }
    {
        let _name = self.active.items.pop();
    }

    /// Lets a name stand for a word, until `leave_word`.
    pub fn enter_word(&mut self, alloc: Global, name: &[u8], word: &[u8]) -> Result<(), Memory>
        ensures { OnOk result (self.new ≡ with_local self.old name.now word.now) }
    {
        self.locals.add(
            Bytes::from_slice(alloc, name)?,
            Bytes::from_slice(alloc, word)?,
        )
    }

    pub fn leave_word(&mut self)
        ensures { (scope : ScopeValue) (name word : List ℕ) → self.old ≡ with_local scope name word → self.new ≡ scope }
    {
        self.locals.drop_last();
    }
}

/// No names.
pub(crate) fn no_names(alloc: Global) -> Names
    ensures { result ≡ [] }
{
    Names {
        items: Vec::new(alloc),
    }
}

/// Whether a name isn't supported: one with a space, a tab or a colon.
pub(crate) fn is_bad_name(name: &[u8]) -> bool
    ensures { result ≡ is_bad_name name.now }
{
    name.iter()
        .any(|byte| *byte == b' ' || *byte == b'\t' || *byte == b':')
}
