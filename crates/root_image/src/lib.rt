//! The image: the text of a root file system, both ways.
//!
//!     rootfs 1
//!     d 0755 /
//!     f 0644 3 /a
//!     = 6f6e65
//!     h /b
//!     > /a
//!     l /c
//!     > a
//!     end 4
//!
//! An image has a line for each entry in the order of paths, with a file's bytes as lines of hex digits after it, and the
//! text of a link or the first name of a file on a line of its own. A file stands whole at the least of its names. Each
//! root has one text, and `read` takes no other: it answers the first line at fault and what is wrong with it.
#![tactic(auto)]

mod fault;
mod image;
mod laws;
mod length;
mod line;
mod place;
mod root;
mod text;

pub use fault::{ImageError, ImageFault, ImageKind};
pub use image::read;
pub use laws::{images_are_read, lines_are_spelled, one_root};
pub use root::{Root, RootEntry};
pub use text::write;
