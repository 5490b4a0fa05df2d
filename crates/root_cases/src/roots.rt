//! Roots, as they are printed.
use br_path::Path;
use case_text::{Page, Stopped};
use root_image::{Root, RootEntry, write};

/// The entries of a root, each in a line.
pub(crate) fn put_entries(page: &mut Page, root: &Root) -> Result<(), Stopped> {
    for (path, entry) in root.entries() {
        put_entry(page, path, entry)?;
    }
    Ok(())
}

/// The image of a root.
pub(crate) fn put_text(page: &mut Page, root: &Root) -> Result<(), Stopped> {
    let text = write(page.alloc(), root)?;
    page.lines(b"  ", text.as_slice())
}

fn put_entry(page: &mut Page, path: &Path, entry: &RootEntry) -> Result<(), Stopped> {
    match entry {
        RootEntry::Dir(mode) => {
            page.number(b"  dir ", u64::from(*mode))?;
            page.path(b"    /", path)
        }
        RootEntry::Link(text) => {
            page.path(b"  link /", path)?;
            page.line(b"    ", text.as_slice())
        }
        RootEntry::First { mode, bytes } => {
            page.number(b"  first ", u64::from(*mode))?;
            page.path(b"    /", path)?;
            page.line(b"    ", bytes.as_slice())
        }
        RootEntry::Same(first) => {
            page.path(b"  same /", path)?;
            page.path(b"    /", first)
        }
    }
}
