//! Trees of files, and the changes that a task makes in them.
#![tactic(auto)]

mod change;
mod entry;
mod laws;
mod ops;
mod pen;
mod text;
mod walk;

pub use change::ChangeFault;
pub use entry::{Contents, Entry, Label, Node};
pub use laws::{
    changes_keep_trees, counts_move_alike, files_change_whole, moves_are_whole,
    names_below_are_exact, other_files_stay, over_by_look_ups,
};
pub use ops::TreeOps;
pub use pen::Pen;
pub use text::{LENGTH_LIMIT, rooted_length};
pub use walk::{Found, Walked, resolve};
