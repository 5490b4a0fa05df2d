//! What becomes of the trees of all packages: the paths that several of them wrote, and the root file system.
//!
//! `zlib` and `musl` both install `/usr/lib/libz.so`: that path is overwritten, and no root is made. Folders that all their
//! writers left with one mode are no overwrite. Where nothing is overwritten, the root is the union of what the packages
//! wrote in their target trees, together with the root folder.
#![tactic(auto)]

mod entry;
mod laws;
mod overwriting;
mod owners;
mod packages;
mod root;
mod writers;

pub use laws::{order_has_no_effect, root_is_written};
pub use overwriting::overwrites;
pub use root::merge;
