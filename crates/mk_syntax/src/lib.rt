//! Recipes: from the text of a makefile fragment to its statements, or to its first fault.
//!
//! A recipe sets variables (`N = V`, `N := V`, `N += V`, `N ?= V`, and `define N` with lines up to `endef`), chooses
//! by conditions (`ifeq (A,B)`, `ifneq (A,B)`, `ifdef N`, `ifndef N`, with `else` and `endif`), and makes packages
//! (`$(eval $(generic-package))` and `$(eval $(host-generic-package))`). Nothing is expanded here.
//!
//! A backslash before a newline, with the blanks round the two, is one space; blanks are space and tab. Outside a
//! `define` an unescaped `#` ends a line where it stands inside no `$(..)` or `${..}`, and `\#` there is `#`. Each
//! line is then of one row: the rows stand in `specs/Row.antt`, the grammar of a whole recipe in `specs/Grammar.antt`.
//!
//! The fault is at the first line that nothing allows there. A `define` or a condition that isn't closed is a fault
//! of the end, so it comes after all others, and is named by the least opening line.
//!
//! Lines are counted from 1, and a line that was joined from several has the number of its first. A text has fewer
//! than 2^32 - 1 lines. The time is proportional to the text, whose bytes are copied a few times.
#![tactic(auto)]

mod assignment;
mod blanks;
mod brackets;
mod comment;
mod condition;
mod fault;
mod lines;
mod reader;
mod recipe;
mod row;
mod unfinished;

pub use comment::comments_end;
pub use fault::{MkError, MkFault, MkKind};
pub use lines::parts_join;
pub use reader::{one_answer, read};
pub use recipe::{How, Recipe, Statement, Test, What};
