//! What a solution of a configuration is.
//!
//! Each symbol has an equation, which gives its text by the texts of all symbols. A bool outside choices is y where it is
//! wished, or where its default holds and nothing is wished, or where a select names it; of the members of a choice at most
//! one is y; a string or an int has the text that is wished, or that of its default. Wishes count only where the symbol is
//! visible. A solution has for each symbol the text that its equation gives.
//!
//! The equation of a symbol names the symbols that stand in it. Where none is on a cycle of such names, there is exactly one
//! solution, whatever the menu and the wishes.
#![tactic(auto)]

mod choice;
mod fault;
mod law;
mod outside;

pub use choice::taken;
pub use fault::SolveFault;
pub use law::{choices_take_one_member, one_answer, one_solution};
pub use outside::text_by_kind;
