//! What stands open while a recipe is read.
ghost use Rattle.std.specs.Prelude.{◌≡◌, List, [], ◌∷◌, OnOk, IfOk, MatchOption};
ghost use Rattle.std.specs.List.{join_with_byte};
ghost use Rattle.mk_syntax.specs.declared.unfinished.Condition.{Condition as ConditionValue};
ghost use Rattle.mk_syntax.specs.Unfinished.{outermost};

use br_path::{Bytes, Memory, Names};
use std::alloc::Global;
use std::marker::Model;

/// A condition that isn't ended yet.
#[derive(Clone, Copy)]
pub(crate) struct Condition {
    pub(crate) line: u32,
    /// Whether its plain `else` was read.
    pub(crate) past_else: bool,
}

/// The conditions that stand open, innermost first.
#[derive(Drop)]
pub(crate) struct Conditions {
    items: Vec<Condition>,
}

impl Model for Conditions {
    ghost use Rattle.std.specs.Prelude.{List, reverse};
    ghost use Rattle.mk_syntax.specs.declared.unfinished.Condition.{Condition};

    ghost Value = { List Condition };

    ghost view = { λ c. reverse c.items.items };
}

/// A `define` that isn't ended yet, with its lines so far.
#[derive(Drop)]
pub(crate) struct Definition {
    pub(crate) line: u32,
    pub(crate) name: Bytes,
    pub(crate) body: Names,
}

impl Conditions {
    pub(crate) fn new(alloc: Global) -> Conditions
        ensures { result ≡ [] }
    {
        Conditions {
            items: Vec::new(alloc),
        }
    }

    /// Opens a condition within the others.
    pub(crate) fn push(&mut self, condition: Condition) -> Result<(), Memory>
        ensures { OnOk result (self.new ≡ condition ∷ self.old) }
    {
        Ok(self.items.push(condition)?)
    }

    /// Takes out the innermost.
    pub(crate) fn pop(&mut self) -> Option<Condition>
        ensures { MatchOption result (self.old ≡ []) (λ condition. self.old ≡ condition ∷ self.new) }
    {
        self.items.pop()
    }

    /// The innermost.
    pub(crate) fn innermost(&self) -> Option<Condition>
        ensures { MatchOption result (self.now ≡ []) (λ condition. (outer : List ConditionValue) × (self.now ≡ condition ∷ outer)) }
    {
        self.items.last().copied()
    }

    /// The outermost.
    #[tactic(auto, using(crate::proofs::Outer::outermost_reverse))]
    pub(crate) fn outermost(&self) -> Option<Condition>
        ensures { result ≡ outermost self.now }
    {
        self.items.first().copied()
    }
}

/// The lines of a `define`, with newlines between them.
pub(crate) fn joined_body(alloc: Global, body: &Names) -> Result<Bytes, Memory>
    ensures { IfOk result (λ text. text ≡ join_with_byte 10 body.now) }
{
    let mut text = Vec::new(alloc);
    let mut rest = body.items.as_slice();
    while let Some((line, behind)) = rest.split_first() {
        text.extend_from_slice(line.as_slice())?;
        if !behind.is_empty() {
            text.push(b'\n')?;
        }
        rest = behind;
    }
    Ok(Bytes { items: text })
}
