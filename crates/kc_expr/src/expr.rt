//! Conditions.
ghost use Rattle.std.specs.Prelude.{◌≡◌, IfOk};
ghost use Rattle.kc_expr.specs.declared.expr.Expr.TheViews as views;

use br_path::{Bytes, Memory};
use sqlite_items::Boxed;
use std::alloc::Global;

/// What stands for a text in a condition.
#[derive(Debug)]
pub enum Atom {
    /// A bare word: the value of the symbol of this name, or the word itself where no symbol has it.
    Word(Bytes),
    /// A quoted text, which stands for itself.
    Quoted(Bytes),
}

/// A condition.
#[derive(Debug)]
pub enum Expr {
    /// The condition that isn't written.
    True,
    And(Boxed<Expr>, Boxed<Expr>),
    Or(Boxed<Expr>, Boxed<Expr>),
    Not(Boxed<Expr>),
    /// The atom is a symbol that is y, or the text `y`.
    Holds(Atom),
    /// The texts are equal.
    Same(Atom, Atom),
    /// The texts aren't equal.
    Differ(Atom, Atom),
}

// Atoms and conditions have a `drop` of their own. A proof then has one call at each place that lets one go, and not a walk of
// all its forms.
impl Drop for Atom {
    fn drop(self) {
        match self {
            Atom::Word(_) | Atom::Quoted(_) => {}
        }
    }
}

impl Drop for Expr {
    fn drop(self) {
        match self {
            Expr::True | Expr::Holds(_) | Expr::Same(_, _) | Expr::Differ(_, _) => {}
            Expr::And(left, right) | Expr::Or(left, right) => {
                drop(left);
                drop(right);
            }
            Expr::Not(inner) => drop(inner),
        }
    }
}

impl Atom {
    /// The same atom once more.
    pub fn copy(&self) -> Result<Atom, Memory>
        ensures { IfOk result (λ atom. atom ≡ self.now) }
    {
        match self {
            Atom::Word(word) => Ok(Atom::Word(word.copy()?)),
            Atom::Quoted(text) => Ok(Atom::Quoted(text.copy()?)),
        }
    }
}

impl Expr {
    /// The same condition once more.
    pub fn copy(&self, alloc: Global) -> Result<Expr, Memory>
        ensures { IfOk result (λ expr. expr ≡ self.now) }
    {
        match self {
            Expr::True => Ok(Expr::True),
            Expr::And(left, right) => and(alloc, left.get().copy(alloc)?, right.get().copy(alloc)?),
            Expr::Or(left, right) => or(alloc, left.get().copy(alloc)?, right.get().copy(alloc)?),
            Expr::Not(inner) => not(alloc, inner.get().copy(alloc)?),
            Expr::Holds(atom) => Ok(Expr::Holds(atom.copy()?)),
            Expr::Same(left, right) => Ok(Expr::Same(left.copy()?, right.copy()?)),
            Expr::Differ(left, right) => Ok(Expr::Differ(left.copy()?, right.copy()?)),
        }
    }
}

/// Both hold.
pub fn and(alloc: Global, left: Expr, right: Expr) -> Result<Expr, Memory>
    ensures { IfOk result (λ expr. expr ≡ views.And left right) }
{
    Ok(Expr::And(Boxed::new(alloc, left)?, Boxed::new(alloc, right)?))
}

/// One of them holds.
pub fn or(alloc: Global, left: Expr, right: Expr) -> Result<Expr, Memory>
    ensures { IfOk result (λ expr. expr ≡ views.Or left right) }
{
    Ok(Expr::Or(Boxed::new(alloc, left)?, Boxed::new(alloc, right)?))
}

/// It doesn't hold.
pub fn not(alloc: Global, inner: Expr) -> Result<Expr, Memory>
    ensures { IfOk result (λ expr. expr ≡ views.Not inner) }
{
    Ok(Expr::Not(Boxed::new(alloc, inner)?))
}
