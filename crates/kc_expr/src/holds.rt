//! Which condition holds.
ghost use Rattle.std.specs.Prelude.{◌≡◌};
ghost use Rattle.kc_expr.specs.Holds.{holds, atom_holds, same_texts, text_of};
ghost use Rattle.kc_values.specs.Values.{is_y, is_yes};

use crate::expr::{Atom, Expr};
use br_path::is_text;
use kc_values::Values;

impl Expr {
    /// Whether the condition holds, where the declared symbols are those of the values.
    #[tactic(auto, using(crate::proofs::Conds::telling))]
    pub fn holds(&self, values: &Values) -> bool
        ensures { result ≡ holds values.now self.now }
    {
        match self {
            Expr::True => true,
            Expr::And(left, right) => left.get().holds(values) && right.get().holds(values),
            Expr::Or(left, right) => left.get().holds(values) || right.get().holds(values),
            Expr::Not(inner) => !inner.get().holds(values),
            Expr::Holds(atom) => atom_holds(atom, values),
            Expr::Same(left, right) => same_texts(left, right, values),
            Expr::Differ(left, right) => !same_texts(left, right, values),
        }
    }
}

fn atom_holds(atom: &Atom, values: &Values) -> bool
    ensures { result ≡ atom_holds values.now atom.now }
{
    match atom {
        Atom::Word(word) => is_y(word.as_slice()) || values.is_yes(word.as_slice()),
        Atom::Quoted(text) => is_y(text.as_slice()),
    }
}

fn is_y(text: &[u8]) -> bool
    ensures { result ≡ is_y text.now }
{
    is_text(text, b"y")
}

fn same_texts(left: &Atom, right: &Atom, values: &Values) -> bool
    ensures { result ≡ same_texts values.now left.now right.now }
{
    is_text(text_of(left, values), text_of(right, values))
}

fn text_of<'a>(atom: &'a Atom, values: &'a Values) -> &'a [u8]
    ensures { result.now ≡ text_of values.now atom.now }
{
    match atom {
        Atom::Word(word) => values.get(word.as_slice()).unwrap_or(word.as_slice()),
        Atom::Quoted(text) => text.as_slice(),
    }
}
