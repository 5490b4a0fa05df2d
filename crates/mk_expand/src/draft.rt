//! A text that grows, with the cost so far.
ghost use Rattle.std.specs.Prelude.{◌≡◌, ℕ, ◌≤◌, List, [], ◌++◌, OnOk, IfErr};
ghost use Rattle.mk_expand.specs.declared.fault.ExpandFault.TheVariants.{Memory as no_memory};
ghost use Rattle.mk_expand.specs.Draft.{State, pay, put, put_apart, IsRun};

use crate::fault::ExpandFault;
use br_path::Bytes;
use std::alloc::Global;
use std::marker::Model;

const COST_LIMIT: usize = 1_048_576;

/// The value of a text as far as it is known, and what the whole expansion has cost so far.
#[derive(Drop)]
pub(crate) struct Draft {
    bytes: Bytes,
    cost: usize,
}

impl Model for Draft {
    ghost Value = { List ℕ × ℕ };

    ghost view = { λ d. (d.bytes, d.cost) };

    ghost invariant = { λ d. d.cost ≤ 1048576 };
}

impl Draft {
    pub fn new(alloc: Global) -> Draft
        ensures { result ≡ ([], 0) }
    {
        Draft {
            bytes: Bytes {
                items: Vec::new(alloc),
            },
            cost: 0,
        }
    }

    /// An empty text at the cost so far.
    pub fn apart(&self, alloc: Global) -> Draft
        ensures { result ≡ ([], self.now.1) }
    {
        Draft {
            bytes: Bytes {
                items: Vec::new(alloc),
            },
            cost: self.cost,
        }
    }

    pub fn into_bytes(self) -> Bytes
        ensures { result ≡ self.0 }
    {
        self.bytes
    }

    /// Takes over the cost that an expansion has come to apart, and hands on its text.
    pub fn take(&mut self, apart: Draft) -> Bytes
        ensures text { result ≡ apart.0 }
        ensures cost { self.new ≡ (self.old.0, apart.1) }
    {
        self.cost = apart.cost;
        apart.bytes
    }

    /// One more of cost.
    pub fn pay(&mut self) -> Result<(), ExpandFault>
        ensures { IsRun (pay self.old) result self.new }
    {
        if self.cost >= COST_LIMIT {
            return Err(ExpandFault::TooCostly);
        }
        self.cost += 1;
        Ok(())
    }

    /// Puts bytes at the end, at a cost of 1 each.
    pub fn put(&mut self, bytes: &[u8]) -> Result<(), ExpandFault>
        ensures { IsRun (put bytes.now self.old) result self.new }
    {
        if bytes.len() > COST_LIMIT - self.cost {
            return Err(ExpandFault::TooCostly);
        }
        self.bytes.items.extend_from_slice(bytes)?;
        self.cost += bytes.len();
        Ok(())
    }

    /// Puts a text at the end that was made apart, and takes over its cost.
    pub fn put_apart(&mut self, apart: Draft) -> Result<(), ExpandFault>
        ensures { IsRun (put_apart self.old apart) result self.new }
    {
        let bytes = self.take(apart);
        self.put(bytes.as_slice())
    }

    /// Puts bytes at the end that were paid for before.
    pub fn put_paid(&mut self, bytes: &[u8]) -> Result<(), ExpandFault>
        ensures ok { OnOk result (self.new ≡ (self.old.0 ++ bytes.now, self.old.1)) }
        ensures err { IfErr result (λ fault. fault ≡ no_memory) }
    {
        self.bytes.items.extend_from_slice(bytes)?;
        Ok(())
    }
}
