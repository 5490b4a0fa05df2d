//! The packages that are selected, with the dependencies that they list.
//!
//! A package lists its dependencies by three variables, whose values are read when all recipes are: those that it needs, those
//! that it needs before it is extracted, and those that it needs before it is patched. A host package that doesn't set the
//! first takes those of the target package, as host packages. A package is selected where its symbol is y; and a host
//! package also where a selected one lists it. A target package that is listed isn't selected by that: its symbol must be y.
//!
//! Of several faults the one counts that stands first here: a folder whose package is asked for while no recipe makes it; a list
//! that has no value; a selected package that lists what no recipe makes; one that lists a target package that isn't selected; and
//! more than 256 packages.
//!
//! The time is proportional to the folders, the packages and the values of their lists, except for look-ups by name, each of which is
//! logarithmic in the number of packages.
#![tactic(auto)]

mod chains;
mod listed;
mod listings;
mod lists;
mod missing;
mod names;
mod places;
mod select;
mod words;

pub use listed::Listed;
pub use select::{Selection, one_answer, select_packages};
