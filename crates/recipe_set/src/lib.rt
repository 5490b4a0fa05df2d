//! The recipes of the input, read into one set of variables, and the packages that they make.
//!
//! The file `package/foo/foo.mk` is the recipe of `foo`. All recipes are read in the order of their paths. Before the first
//! one each symbol of the configuration is a simple variable (a bool `y` is `y`, one that is `n` isn't set, a string stands
//! in double quotes, an int is its digits), and the presets such as `TARGET_DIR` win over symbols of the same name.
//!
//! A statement is met in its place: `N = V`, `define` and `?=` keep a text as it is, `:=` its value at once, and `+=` appends
//! what the variable is, after a space where there is something to divide it from. A condition is asked where its line is
//! met. Of its branches one is read at most; those that aren't read have no effect, and their conditions aren't asked.
//! `$(eval $(generic-package))` makes the package `foo` and sets `FOO_NAME`, `FOO_DIR` and `FOO_PKGDIR`;
//! `$(eval $(host-generic-package))` makes `host-foo` and sets the same three of `HOST_FOO`.
//!
//! The fault is the first one in the order of `PlanFault`: recipe by recipe a folder's name that no package may have, or
//! whose variables would be those of an earlier recipe; a recipe that isn't read; and a text that has no value where it is
//! expanded. After them all comes the least patch in a recipe's folder.
//!
//! `specs/Reading.antt` states what the recipes of files are. There conditions are matched as brackets, and a condition with
//! its branches is one thing; the code goes from statement to statement, with the conditions that stand open. The time is
//! that of reading each recipe once and of the expansions, and a look-up for each folder.
#![tactic(auto)]

mod branch;
mod draft;
mod fault;
mod first;
mod folder;
mod names;
mod packages;
mod reader;
mod recipes;
mod texts;

pub use fault::PlanFault;
pub use names::upper_form;
pub use packages::{Made, Packages};
pub use recipes::{Recipes, one_reading, read_recipes};
