//! Local names that hide variables.
ghost use Rattle.std.specs.Prelude.{◌≡◌, ℕ, List, [], ◌∷◌, ◌++◌, OnOk, OnErr, option_map};
ghost use Rattle.mk_expand.specs.Vars.{hidden};

use br_path::{Bytes, Memory};
use std::alloc::Global;
use std::marker::Model;

/// A name and what it stands for.
#[derive(Debug, Clone, Drop)]
pub struct Local {
    pub name: Bytes,
    pub bytes: Bytes,
}

/// Names that hide variables, in order: of two with the same name the last one counts.
#[derive(Debug, Clone, Drop)]
pub struct Locals {
    items: Vec<Local>,
}

impl Model for Locals {
    ghost use Rattle.std.specs.Prelude.{List};
    ghost use Rattle.mk_expand.specs.declared.locals.Local.{Local};

    ghost Value = { List Local };

    ghost view = { λ l. l.items.items };
}

impl Locals {
    /// No local name.
    pub fn new(alloc: Global) -> Locals
        ensures { result ≡ [] }
    {
        Locals {
            items: Vec::new(alloc),
        }
    }

    /// Adds a name after the others, which it hides.
    pub fn add(&mut self, name: Bytes, bytes: Bytes) -> Result<(), Memory>
        ensures ok { OnOk result (self.new ≡ self.old ++ record { name = name; bytes = bytes } ∷ []) }
        ensures err { OnErr result (self.new ≡ self.old) }
    {
        self.items.push(Local { name, bytes })?;
        Ok(())
    }

    /// Drops the last name.
    pub(crate) fn drop_last(&mut self)
        ensures { (locals : List Local) (last : Local) → self.old ≡ locals ++ last ∷ [] → self.new ≡ locals }
    {
        let _last = self.items.pop();
    }

    /// What a name stands for.
    pub(crate) fn find(&self, name: &[u8]) -> Option<&[u8]>
        ensures { option_map (λ b. b.now) result ≡ hidden self.now name.now }
    {
        let mut rest = self.items.as_slice();
        while let Some((local, front)) = rest.split_last() {
            if local.name.as_slice() == name {
                return Some(local.bytes.as_slice());
            }
            rest = front;
        }
        None
    }
}
