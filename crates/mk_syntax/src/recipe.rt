//! What a recipe says.
ghost use Rattle.std.specs.Prelude.{List, ◌≡◌, ◌++◌, [], ◌∷◌, OnOk};
ghost use Rattle.mk_syntax.specs.declared.recipe.Statement.{Statement};

use br_path::{Bytes, Memory};
use std::alloc::Global;
use std::marker::Model;

/// A recipe: its statements in the order of their lines, with conditions and their ends matched.
#[derive(Debug, Drop)]
pub struct Recipe {
    pub items: Vec<Statement>,
}

impl Model for Recipe {
    ghost Value = { List Statement };

    ghost view = { λ r. r.items.items };
}

/// A statement, by the number of the line on which it begins.
#[derive(Debug, Drop)]
pub struct Statement {
    pub line: u32,
    pub what: What,
}

/// What a statement does.
#[derive(Debug, Drop)]
pub enum What {
    /// Sets a variable to a text.
    Set { name: Bytes, how: How, text: Bytes },
    /// Sets a variable to lines, with newlines between them. It is expanded at use.
    Define { name: Bytes, text: Bytes },
    /// Begins a condition.
    If(Test),
    /// Begins a further branch of the innermost condition.
    ElseIf(Test),
    /// Begins the last branch of the innermost condition.
    Else,
    /// Ends the innermost condition.
    EndIf,
    /// Makes the package of the recipe's folder, or its host package.
    Make { host: bool },
}

/// How a variable is set.
#[derive(Clone, Copy, Debug, PartialEq, Eq)]
pub enum How {
    /// `=`: expanded at use.
    Later,
    /// `:=`: expanded at once.
    Now,
    /// `+=`: after what it has.
    Append,
    /// `?=`: where it isn't set.
    IfUnset,
}

/// What a condition asks. Its texts are as written, so not expanded.
#[derive(Debug, Drop)]
pub enum Test {
    /// Whether two texts are equal, or with `wanted` false whether they differ.
    Equal {
        left: Bytes,
        right: Bytes,
        wanted: bool,
    },
    /// Whether a variable is set and not empty, or with `wanted` false whether it isn't.
    Defined {
        name: Bytes,
        wanted: bool,
    },
}

impl Recipe {
    pub(crate) fn new(alloc: Global) -> Recipe
        ensures { result ≡ [] }
    {
        Recipe {
            items: Vec::new(alloc),
        }
    }

    pub(crate) fn add(&mut self, line: u32, what: What) -> Result<(), Memory>
        ensures { OnOk result (self.new ≡ self.old ++ record { line = line; what = what } ∷ []) }
    {
        Ok(self.items.push(Statement { line, what })?)
    }
}
