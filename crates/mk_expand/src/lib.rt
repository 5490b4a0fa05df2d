//! The expansion of a make text: variables, references and the functions of make that recipes use.
//!
//! A text is read from the left, piece by piece: a byte stands for itself, `$$` for a dollar, and `$(X)` or `${X}` for what
//! its inside X says. X is a call where it begins with a function's name and a blank, and otherwise a text whose value is a
//! variable's name. A local name hides every variable; a simple variable stands for its text, another for the value of its
//! text where it is used, and an unset one for nothing. A reference can also be given by the variable's name as it is,
//! which may then hold brackets, dollars and commas.
//!
//! Each expansion has a cost: 1 for a byte, for `$$`, for a reference and for a call, and then the cost of what a reference
//! or call expands, the length of a simple or local text, and the length of a call's result. It ends with a fault as soon as
//! the cost would pass 1,048,576 or references and calls stand more than 200 deep. So no value has more bytes than that,
//! and a result that would be longer is refused before it is built: a chain of variables each of which names the one before
//! twice is refused at once, however long it is. The stack is as deep as references stand in one another.
//!
//! No text is copied more often than references stand round it: words, arguments and bodies are slices of the text
//! they stand in. The time is proportional to the cost and to the texts that are read, branches of `if` that aren't taken
//! among them, times the depth where brackets nest; a filter compares each word with each of its patterns.
#![tactic(auto)]

mod apply;
mod blanks;
mod bracket;
mod call;
mod draft;
mod expander;
mod fault;
mod function;
mod locals;
mod pattern;
mod piece;
mod scope;
mod vars;

pub use apply::{sorts_rise, subst_replaces};
pub use blanks::{is_blank, words};
pub use bracket::first_comma_divides;
pub use call::arguments_divide;
pub use expander::{expand, expand_reference, one_answer, reference_is_exact};
pub use fault::ExpandFault;
pub use locals::{Local, Locals};
pub use vars::{Variable, Vars};
