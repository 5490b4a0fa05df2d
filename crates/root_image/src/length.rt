//! How long the text of a root is.

use crate::root::{Root, RootEntry};
use br_path::Path;

/// The bytes of the first line and of the last, without the number of entries.
const ENDS: usize = 14;

/// The bytes of the text of a root, or the greatest number if there are more. Nothing depends on it but the room that the
/// text is given once.
pub(crate) fn text_len(root: &Root) -> usize {
    let mut len = number_len(root.entries().len()).saturating_add(ENDS);
    for (path, entry) in root.entries() {
        len = len.saturating_add(entry_len(path, entry));
    }
    len
}

/// The bytes of the lines of an entry.
fn entry_len(path: &Path, entry: &RootEntry) -> usize {
    let line = path_len(path).saturating_add(3);
    match entry {
        RootEntry::Dir(_) => line.saturating_add(5),
        RootEntry::Link(target) => line
            .saturating_add(target.as_slice().len())
            .saturating_add(3),
        RootEntry::First { mode: _, bytes } => {
            let size = bytes.as_slice().len();
            line.saturating_add(6)
                .saturating_add(number_len(size))
                .saturating_add(bytes_len(size))
        }
        RootEntry::Same(first) => line.saturating_add(path_len(first)).saturating_add(3),
    }
}

/// The bytes of a path with a slash before each name.
fn path_len(path: &Path) -> usize {
    let mut len: usize = 0;
    for name in path.names() {
        len = len.saturating_add(1).saturating_add(name.as_slice().len());
    }
    len.max(1)
}

/// The bytes of the lines of so many bytes of a file: two digits for each, and for 32 of them, or fewer at the end, `= `
/// and a newline.
fn bytes_len(size: usize) -> usize {
    size.div_ceil(32)
        .saturating_mul(3)
        .saturating_add(size.saturating_mul(2))
}

/// The digits of a number.
fn number_len(number: usize) -> usize {
    match number.checked_ilog10() {
        Some(power) => power as usize + 1,
        None => 1,
    }
}
