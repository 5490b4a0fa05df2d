//! The plan of the selected packages: what each task runs, what it needs, and the order in which tasks are taken.
//!
//! A selected package has two tasks. Its prep extracts and patches the source; its make configures, builds and installs. They
//! are numbered from 0 by the names of the packages, prep before make. A make needs the prep of its package and the makes of the
//! packages that it depends on, or that must be made before it is extracted; a prep needs the makes of the latter, and the preps
//! of those that must be extracted before it is patched.
//!
//! A step has hooks before it, commands, and hooks after it. The hooks `PRE_EXTRACT` of `foo` are the variables that the words
//! of `FOO_PRE_EXTRACT_HOOKS` name, in their order and with repeats. Each variable is expanded as a reference to it, with `@D` for the folder that the
//! package is built in, and cut at its newlines; lines of blanks alone are dropped. A package is installed into the staging
//! area where `FOO_INSTALL_STAGING` is `YES`, and into the root file system unless `FOO_INSTALL_TARGET` is set and isn't.
//!
//! The texts of one task have at most 262,144 bytes. The first fault counts, in the order of `PlanFault`; that of a text is found in the order in which
//! the steps and their texts are run. The time is that of reading and expanding, and a look-up for each name that is listed.
#![tactic(auto)]

mod laws;
mod lines;
mod needs;
mod packages;
mod planning;
mod rows;
mod steps;
mod texts;

pub use laws::{cycles_have_names, one_plan};
pub use packages::{depends, rdepends, recursive_depends};
pub use planning::{plan, task_names};
