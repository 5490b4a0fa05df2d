//! Where the words of a command lead, what stands there, and changes there.
#![tactic(auto)]

mod acting;
mod finding;
mod kind;
mod looks;
mod spot;

pub use acting::act_in;
pub use finding::{
    components, entry_of, find, is_name_byte, place_below, read, resolve, rooted_walk, walk_in,
};
pub use kind::Kind;
pub use looks::{bytes_at, input_kind, kind_at, mode_at, names_at, text_at, tree_of};
pub use spot::{Site, Spot, is_area, is_label, is_same_file};
