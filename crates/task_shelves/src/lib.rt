//! What a task leaves on its shelf, and the shelves of a build.
//!
//! The make of `zlib` runs to its end: its shelf is `Built`, with the host, staging and target trees as it left them,
//! the list of the paths that it wrote there, and the stamps of its steps. `false` in its BUILD_CMDS: the shelf is
//! `Failed`, with the step, the line and the reason. A task that needs `zlib` is then `Skipped`. What is built from
//! shelves, a root file system or a report, is said over `ShelfData`, which knows what stands in trees and not how
//! trees are kept.
#![tactic(auto)]

mod overwrites;
mod shelf;
mod shelves;

pub use overwrites::{Overwrite, Overwrites};
pub use shelf::{Shelf, Stamp, Stamps, Written};
pub use shelves::Shelves;
