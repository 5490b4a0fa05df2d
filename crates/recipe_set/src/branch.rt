//! The conditions that stand open while statements are read.
ghost use Rattle.std.specs.Prelude.{◌≡◌, [], ◌∷◌, OnOk, MatchOption};
ghost use Rattle.recipe_set.specs.Steps.{is_reading};

use br_path::Memory;
use std::alloc::Global;
use std::marker::Model;

/// How far a condition has come.
#[derive(Clone, Copy)]
pub(crate) enum Branch {
    /// The branch that is read is the one that is taken.
    Taken,
    /// No branch is taken so far.
    Sought,
    /// A branch was taken before, or the whole condition is left out.
    Passed,
}

/// The conditions that stand open, innermost first.
#[derive(Drop)]
pub(crate) struct Conditions {
    items: Vec<Branch>,
}

impl Model for Conditions {
    ghost use Rattle.std.specs.Prelude.{List, reverse};
    ghost use Rattle.recipe_set.specs.declared.branch.Branch.{Branch};

    ghost Value = { List Branch };

    ghost view = { λ c. reverse c.items.items };
}

impl Conditions {
    pub(crate) fn new(alloc: Global) -> Conditions
        ensures { result ≡ [] }
    {
        Conditions {
            items: Vec::new(alloc),
        }
    }

    /// Whether no branch round what comes next is left out.
    pub(crate) fn is_reading(&self) -> bool
        ensures { result ≡ is_reading self.now }
    {
        match self.items.as_slice().split_last() {
            None => true,
            Some((Branch::Taken, _)) => true,
            Some((Branch::Sought, _)) => false,
            Some((Branch::Passed, _)) => false,
        }
    }

    /// Opens a condition within the others.
    pub(crate) fn push(&mut self, branch: Branch) -> Result<(), Memory>
        ensures { OnOk result (self.new ≡ branch ∷ self.old) }
    {
        self.items.push(branch)?;
        Ok(())
    }

    /// Takes out the innermost.
    pub(crate) fn pop(&mut self) -> Option<Branch>
        ensures { MatchOption result ((self.old ≡ []) × (self.new ≡ [])) (λ branch. self.old ≡ branch ∷ self.new) }
    {
        self.items.pop()
    }
}
